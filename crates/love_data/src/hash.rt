ghost use Rattle.std.specs.Prelude.{◌≡◌};
ghost use Rattle.love_data.specs.Hash.{digest_of};

use crate::digest_bytes::{Digest, Value};
use md5::{Digest as _, Md5};
use sha1::Sha1;
use sha2::{Digest as _, Sha224, Sha256, Sha384, Sha512};

/// A way to make a digest (LÖVE wiki, `HashFunction`).
#[derive(Clone, Copy, Debug, PartialEq, Eq)]
pub enum HashKind {
    /// MD5, 16 bytes (RFC 1321); broken as a cryptographic hash.
    Md5,
    /// SHA-1, 20 bytes (FIPS 180-4); broken as a cryptographic hash.
    Sha1,
    /// SHA-224, 28 bytes (FIPS 180-4).
    Sha224,
    /// SHA-256, 32 bytes (FIPS 180-4).
    Sha256,
    /// SHA-384, 48 bytes (FIPS 180-4).
    Sha384,
    /// SHA-512, 64 bytes (FIPS 180-4).
    Sha512,
}

/// The digest of a whole message, in time linear in its length and without memory (LÖVE wiki,
/// `love.data.hash`).
pub fn digest(kind: HashKind, message: &[u8]) -> Digest
    ensures { result ≡ digest_of kind message.now }
{
    let value = match kind {
        HashKind::Md5 => Value::Md5(Md5::digest(message)),
        HashKind::Sha1 => Value::Sha1(Sha1::digest(message)),
        HashKind::Sha224 => Value::Sha224(Sha224::digest(message)),
        HashKind::Sha256 => Value::Sha256(Sha256::digest(message)),
        HashKind::Sha384 => Value::Sha384(Sha384::digest(message)),
        HashKind::Sha512 => Value::Sha512(Sha512::digest(message)),
    };
    Digest::of(value)
}

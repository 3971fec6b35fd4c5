ghost use Rattle.std.specs.Prelude.{◌≡◌};
ghost use Rattle.love_data.specs.Value.{value_bytes};

use std::marker::Model;

/// The digest of some bytes; contracts see it as the list of its own bytes.
#[derive(Debug, Drop)]
pub struct Digest {
    value: Value,
}

#[derive(Debug, Drop)]
pub(crate) enum Value {
    Md5([u8; 16]),
    Sha1([u8; 20]),
    Sha224([u8; 28]),
    Sha256([u8; 32]),
    Sha384([u8; 48]),
    Sha512([u8; 64]),
}

impl Model for Digest {
    ghost use Rattle.std.specs.Prelude.{List, ℕ};
    ghost use Rattle.love_data.specs.Value.{value_bytes};

    ghost Value = { List ℕ };

    ghost view = { λ digest. value_bytes digest.value };
}

impl Digest {
    pub(crate) fn of(value: Value) -> Digest
        ensures { result ≡ value_bytes value }
    {
        Digest { value }
    }

    /// The bytes of the digest, in constant time.
    pub fn bytes(&self) -> &[u8]
        ensures { result.now ≡ self.now }
    {
        match &self.value {
            Value::Md5(bytes) => bytes.as_slice(),
            Value::Sha1(bytes) => bytes.as_slice(),
            Value::Sha224(bytes) => bytes.as_slice(),
            Value::Sha256(bytes) => bytes.as_slice(),
            Value::Sha384(bytes) => bytes.as_slice(),
            Value::Sha512(bytes) => bytes.as_slice(),
        }
    }
}

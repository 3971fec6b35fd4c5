//! Texts and digests of bytes, as `love.data` gives them: base64 and hexadecimal texts, and the
//! digests MD5, SHA-1 and SHA-2 (LÖVE wiki, `love.data.encode`, `love.data.decode` and
//! `love.data.hash`).
#![tactic(auto)]

mod digest_bytes;
mod encoding;
mod hash;
pub mod laws;
#[cfg(test)]
mod tests;

pub use digest_bytes::Digest;
pub use encoding::{DecodeFault, Format, decode, encode};
pub use hash::{HashKind, digest};

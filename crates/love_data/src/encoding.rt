ghost use Rattle.std.specs.Prelude.{◌≡◌, Err, None, Some, IfOk};
ghost use Rattle.love_data.specs.Encoding.{encoded, decoded};

use base64::DecodeAllocError;
use base64::engine::general_purpose::STANDARD;
use hex::FromHexError;
use love_base::{Memory, Text};
use std::alloc::Global;

/// How bytes are written as text (LÖVE wiki, `EncodeFormat`).
#[derive(Clone, Copy, Debug, PartialEq, Eq)]
pub enum Format {
    /// The standard alphabet with padding, without line breaks (RFC 4648 §4).
    Base64,
    /// Two hexadecimal digits for each byte, in lower case (RFC 4648 §8, in lower case).
    Hex,
}

/// Why a text isn't decoded.
#[derive(Clone, Copy, Debug, PartialEq, Eq)]
pub enum DecodeFault {
    /// The text is none that the format has.
    NotEncoded,
    /// Want of memory.
    Memory,
}

/// The text of these bytes, in time linear in their number (LÖVE wiki, `love.data.encode`).
///
/// # Errors
///
/// [`Memory`] where there is no room for the text.
pub fn encode(alloc: Global, format: Format, bytes: &[u8]) -> Result<Text, Memory>
    ensures { IfOk result (λ text. text ≡ encoded format bytes.now) }
{
    let text = match format {
        Format::Base64 => STANDARD.encode(alloc, bytes)?,
        Format::Hex => hex::encode(alloc, bytes)?,
    };
    Ok(Text::from_vec(text.into_bytes()))
}

/// The bytes that a text stands for, in time linear in its length (LÖVE wiki, `love.data.decode`).
///
/// Base64 is read with its padding and no other byte, so that only what [`encode`] gives is read.
/// Hexadecimal digits are read in either case.
///
/// # Errors
///
/// [`DecodeFault::NotEncoded`] exactly where the text is none of the format;
/// [`DecodeFault::Memory`] where there is no room for the bytes.
pub fn decode(alloc: Global, format: Format, text: &[u8]) -> Result<Text, DecodeFault>
    ensures bytes { IfOk result (λ bytes. decoded format text.now ≡ Some bytes) }
    ensures not_encoded { result ≡ Err DecodeFault.NotEncoded → decoded format text.now ≡ None }
{
    match format {
        Format::Base64 => decode_base64(alloc, text),
        Format::Hex => decode_hex(alloc, text),
    }
}

fn decode_base64(alloc: Global, text: &[u8]) -> Result<Text, DecodeFault>
    ensures bytes { IfOk result (λ bytes. decoded Format.Base64 text.now ≡ Some bytes) }
    ensures not_encoded { result ≡ Err DecodeFault.NotEncoded
        → decoded Format.Base64 text.now ≡ None }
{
    match STANDARD.decode(alloc, text) {
        Ok(bytes) => Ok(Text::from_vec(bytes)),
        Err(DecodeAllocError::DecodeError(_)) => Err(DecodeFault::NotEncoded),
        Err(DecodeAllocError::OutOfMemory) => Err(DecodeFault::Memory),
    }
}

fn decode_hex(alloc: Global, text: &[u8]) -> Result<Text, DecodeFault>
    ensures bytes { IfOk result (λ bytes. decoded Format.Hex text.now ≡ Some bytes) }
    ensures not_encoded { result ≡ Err DecodeFault.NotEncoded → decoded Format.Hex text.now ≡ None }
{
    match hex::decode(alloc, text) {
        Ok(bytes) => Ok(Text::from_vec(bytes)),
        Err(FromHexError::OutOfMemory) => Err(DecodeFault::Memory),
        Err(_) => Err(DecodeFault::NotEncoded),
    }
}

ghost use Rattle.std.specs.Prelude.{◌≡◌, ◌+◌, ◌≤◌, ◌<◌, List, ℕ, length, Ok, IfOk};
ghost use Rattle.lua_token.specs.Cuts.{StandsIn};
ghost use Rattle.lua_token.specs.Value.{is_return_newline, plain_lines, long_bytes, QuotedBytes, LongBytes, StringBytes, HasValue};
ghost use Rattle.lua_token.specs.Place.{begins, Stands, StandsAt};
ghost use Rattle.lua_token.specs.declared.kind.Kind.TheVariants.{Str};
ghost use Rattle.lua_token.specs.declared.start.Start.TheVariants as starts;
ghost use Rattle.lua_token.specs.declared.step.Step.TheVariants.{Found};

use crate::Token;
use crate::quoted::{Character, character_at};
use crate::start::{Start, start_of};
use love_base::{Memory, Text};
use std::alloc::Global;

// The bytes of the quoted string at the front.
fn quoted_bytes(alloc: Global, text: &[u8]) -> Result<Vec<u8>, Memory>
    requires some { 0 < length text.now }
    requires closed { (bytes : List ℕ) × QuotedBytes text.now bytes }
    ensures { IfOk result (λ bytes. QuotedBytes text.now bytes.items) }
{
    let quote = text[0];
    let mut bytes = Vec::new(alloc);
    let mut end = 1;
    while let Character::Byte(byte, length) = character_at(quote, &text[end..]) {
        bytes.push(byte)?;
        end += length;
    }
    Ok(bytes)
}

// Whether a return stands at the front, and a newline follows it.
fn is_return_newline(text: &[u8]) -> bool
    ensures { result ≡ is_return_newline text.now }
{
    matches!(text, [b'\r', b'\n', ..])
}

// The text, with a newline for each return that a newline follows.
fn plain_lines(alloc: Global, text: &[u8]) -> Result<Vec<u8>, Memory>
    ensures { IfOk result (λ bytes. bytes.items ≡ plain_lines text.now) }
{
    let mut bytes = Vec::new(alloc);
    for at in 0..text.len() {
        if !is_return_newline(&text[at..]) {
            bytes.push(text[at])?;
        }
    }
    Ok(bytes)
}

// The bytes of a long string with this body.
fn long_bytes(alloc: Global, body: &[u8]) -> Result<Vec<u8>, Memory>
    ensures { IfOk result (λ bytes. bytes.items ≡ long_bytes body.now) }
{
    match body {
        [b'\n', rest @ ..] | [b'\r', b'\n', rest @ ..] => plain_lines(alloc, rest),
        _ => plain_lines(alloc, body),
    }
}

// The bytes of the long string of this level and size at the front.
fn long_value(alloc: Global, text: &[u8], opened: usize, size: usize) -> Result<Vec<u8>, Memory>
    requires within { size ≤ length text.now }
    requires stands { Stands (starts.Long opened) text.now (Ok (Found Str size)) }
    ensures { IfOk result (λ bytes. LongBytes opened text.now bytes.items) }
{
    let bracket = opened + 2;
    long_bytes(alloc, &text[bracket..size - bracket])
}

// The bytes of the string of this size at the front.
fn value_at(alloc: Global, text: &[u8], size: usize) -> Result<Vec<u8>, Memory>
    requires within { size ≤ length text.now }
    requires stands { StandsAt text.now (Ok (Found Str size)) }
    ensures { IfOk result (λ bytes. StringBytes (begins text.now) text.now bytes.items) }
{
    match start_of(text) {
        Start::Long(opened) => long_value(alloc, text, opened, size),
        _ => quoted_bytes(alloc, text),
    }
}

/// The bytes of a string of the source: those between its quotes, each escape as the byte that it
/// stands for, or those between its long brackets, without a newline right behind the opening and
/// with a newline for each return that a newline follows (Lua 5.1 manual §2.1).
///
/// Takes time in proportion to the token's length.
///
/// # Errors
///
/// [`Memory`] where there is no room for the bytes.
pub fn string_value(alloc: Global, source: &[u8], token: &Token) -> Result<Text, Memory>
    requires stands { StandsIn source.now token.now }
    requires is_string { token.now.kind ≡ Str }
    ensures { IfOk result (λ text. HasValue source.now token.now text) }
{
    let text = &source[token.start as usize..];
    let bytes = value_at(alloc, text, token.length as usize)?;
    Ok(Text::from_vec(bytes))
}

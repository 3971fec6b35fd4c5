//! The functions of `string` (Lua 5.1 manual §5.4). Bytes have the places 1, 2, 3 and so on; a
//! negative place counts from the end.

ghost use Rattle.std.specs.Prelude.{◌≡◌, ◌≤◌, [], ◌∷◌, map, reverse, length, codes, IfOk, IfErr, OnOk};
ghost use Rattle.lua_meaning.specs.Value.{num, str, flag};
ghost use Rattle.lua_meaning.specs.Text.{longest_string};
ghost use Rattle.lua_meaning.specs.Strings as meaning;
ghost use Rattle.lua_lib.specs.Outcome.{Gives};
ghost use Rattle.lua_lib.specs.Faults.{FailsBy};

use crate::Fault;
use crate::signed::{Signed, split_sign};
use bstr::ByteSlice;
use love_base::Memory;
use lua_value::Num;
use std::alloc::{AllocError, Global};

/// The greatest length of a string.
pub const LONGEST: usize = 16_777_216;

// A place in a text of so many bytes, counted from its beginning; 0 where it lies before it.
pub(crate) fn place_in(size: usize, place: Num) -> usize
    ensures { result ≡ meaning.place_in size place }
{
    match split_sign(place) {
        Signed::Plus(place) => place as usize,
        Signed::Minus(behind) => size.saturating_sub(behind as usize),
    }
}

// The bytes of a text from a place up to another one, as far as there are any.
fn part(text: &[u8], first: usize, last: usize) -> &[u8]
    ensures { result.now ≡ meaning.part text.now first last }
{
    let passed = first.max(1) - 1;
    let end = last.min(text.len());
    if passed < end {
        &text[passed..end]
    } else {
        &[]
    }
}

/// `string.sub(text, i, j)`: the bytes at `i` to `j`.
pub fn sub(text: &[u8], i: Num, j: Num) -> &[u8]
    ensures { Gives (meaning.sub (str text.now ∷ num i ∷ num j ∷ [])) (str result.now ∷ []) }
{
    part(text, place_in(text.len(), i), place_in(text.len(), j))
}

/// `string.byte(text, i, j)`: the bytes at `i` to `j`.
///
/// # Errors
///
/// [`Fault::TooManyValues`] where there are over 1,000,000.
pub fn byte(text: &[u8], i: Num, j: Num) -> Result<&[u8], Fault>
    ensures ok { IfOk result (λ bytes.
        Gives (meaning.byte (str text.now ∷ num i ∷ num j ∷ []))
        (map meaning.byte_value bytes.now)) }
    ensures fault { IfErr result
        (FailsBy (meaning.byte (str text.now ∷ num i ∷ num j ∷ []))) }
{
    let bytes = part(text, place_in(text.len(), i), place_in(text.len(), j));
    if bytes.len() > 1_000_000 {
        return Err(Fault::TooManyValues);
    }
    Ok(bytes)
}

/// The byte of one argument of `string.char`, counted from 0.
///
/// # Errors
///
/// [`Fault::NoByte`] where it isn't from 0 to 255.
pub fn char_byte(argument: usize, number: Num) -> Result<u8, Fault>
    ensures ok { IfOk result (Gives
        (meaning.byte_wanted argument (meaning.as_byte number))) }
    ensures fault { IfErr result (FailsBy
        (meaning.byte_wanted argument (meaning.as_byte number))) }
{
    match split_sign(number) {
        Signed::Plus(code) if code < 256 => Ok(code as u8),
        _ => Err(Fault::NoByte(argument)),
    }
}

/// Whether a string may be as long as a text is.
///
/// # Errors
///
/// [`Fault::StringTooLong`] where it has over 16,777,216 bytes.
pub fn check_length(text: &[u8]) -> Result<(), Fault>
    ensures ok { OnOk result (Gives (meaning.string_value text.now) (str text.now ∷ [])) }
    ensures fault { IfErr result (FailsBy (meaning.string_value text.now)) }
{
    if text.len() > LONGEST {
        return Err(Fault::StringTooLong);
    }
    Ok(())
}

/// A text that was made, as a string.
///
/// # Errors
///
/// [`Fault::StringTooLong`] where it has over 16,777,216 bytes.
pub fn string(text: Vec<u8>) -> Result<Vec<u8>, Fault>
    ensures ok { IfOk result (λ made.
        Gives (meaning.string_value text.items) (str made.items ∷ [])) }
    ensures fault { IfErr result (FailsBy (meaning.string_value text.items)) }
{
    if text.len() > LONGEST {
        return Err(Fault::StringTooLong);
    }
    Ok(text)
}

/// `string.lower(text)`: the letters of ASCII in lower case.
pub fn lower(alloc: Global, text: &[u8]) -> Result<Vec<u8>, Memory>
    ensures { IfOk result (λ made.
        Gives (meaning.lower (str text.now ∷ [])) (str made.items ∷ [])) }
{
    Ok(lowered(alloc, text)?)
}

fn lowered(alloc: Global, text: &[u8]) -> Result<Vec<u8>, AllocError>
    ensures { IfOk result (λ made. made.items ≡ map meaning.lower_byte text.now) }
{
    text.iter().map(|byte| lower_byte(*byte)).collect(alloc)
}

fn lower_byte(byte: u8) -> u8
    ensures { result ≡ meaning.lower_byte byte }
{
    match byte {
        b'A'..=b'Z' => byte + 32,
        _ => byte,
    }
}

/// `string.upper(text)`: the letters of ASCII in upper case.
pub fn upper(alloc: Global, text: &[u8]) -> Result<Vec<u8>, Memory>
    ensures { IfOk result (λ made.
        Gives (meaning.upper (str text.now ∷ [])) (str made.items ∷ [])) }
{
    Ok(raised(alloc, text)?)
}

fn raised(alloc: Global, text: &[u8]) -> Result<Vec<u8>, AllocError>
    ensures { IfOk result (λ made. made.items ≡ map meaning.upper_byte text.now) }
{
    text.iter().map(|byte| upper_byte(*byte)).collect(alloc)
}

fn upper_byte(byte: u8) -> u8
    ensures { result ≡ meaning.upper_byte byte }
{
    match byte {
        b'a'..=b'z' => byte - 32,
        _ => byte,
    }
}

/// `string.reverse(text)`: the bytes from the last to the first.
pub fn reverse(alloc: Global, text: &[u8]) -> Result<Vec<u8>, Memory>
    ensures { IfOk result (λ made.
        Gives (meaning.reversed (str text.now ∷ [])) (str made.items ∷ [])) }
{
    Ok(turned(alloc, text)?)
}

fn turned(alloc: Global, text: &[u8]) -> Result<Vec<u8>, AllocError>
    ensures { IfOk result (λ made. made.items ≡ reverse text.now) }
{
    text.iter().rev().copied().collect(alloc)
}

/// `string.rep(text, n)`: so many copies of a text, none where `n` is below 1.
///
/// # Errors
///
/// [`Fault::StringTooLong`] where they have over 16,777,216 bytes.
pub fn rep(alloc: Global, text: &[u8], n: Num) -> Result<Vec<u8>, Fault>
    ensures ok { IfOk result (λ made.
        Gives (meaning.rep (str text.now ∷ num n ∷ [])) (str made.items ∷ [])) }
    ensures fault { IfErr result (FailsBy (meaning.rep (str text.now ∷ num n ∷ []))) }
{
    if text.is_empty() {
        return Ok(Vec::new(alloc));
    }
    let count = count_of(n);
    if text.len().saturating_mul(count) > LONGEST {
        return Err(Fault::StringTooLong);
    }
    copies(alloc, count, text)
}

fn count_of(n: Num) -> usize
    ensures { result ≡ meaning.count_of n }
{
    match split_sign(n) {
        Signed::Plus(count) => count as usize,
        Signed::Minus(_) => 0,
    }
}

fn copies(alloc: Global, count: usize, text: &[u8]) -> Result<Vec<u8>, Fault>
    ensures ok { IfOk result (λ made. made.items ≡ meaning.copies count text.now) }
    ensures fault { IfErr result (λ fault. fault ≡ Fault.Memory) }
{
    let mut made = Vec::new(alloc);
    for _copy in 0..count {
        made.extend_from_slice(text)?;
    }
    Ok(made)
}

/// `string.find(text, wanted, init, plain)`: the place of the first part of the text that is the
/// wanted one, from `init` on. It ends at that place plus the wanted one's length less 1.
///
/// # Errors
///
/// [`Fault::PatternsNotAvailable`] without `plain`, where the wanted text has one of `^$*+?.([%-`.
pub fn find(text: &[u8], wanted: &[u8], init: Num, plain: bool) -> Result<Option<usize>, Fault>
    ensures ok { IfOk result (λ place.
        Gives (meaning.find (str text.now ∷ str wanted.now ∷ num init ∷ flag plain ∷ []))
        (meaning.found_places (length wanted.now) place)) }
    ensures fault { IfErr result
        (FailsBy (meaning.find (str text.now ∷ str wanted.now ∷ num init ∷ flag plain ∷ []))) }
{
    if !plain && is_pattern(wanted) {
        return Err(Fault::PatternsNotAvailable);
    }
    let passed = passed_over(text.len(), init);
    let rest = &text[passed..];
    match rest.find(wanted) {
        Some(place) => Ok(Some(passed + place + 1)),
        None => Ok(None),
    }
}

// How many bytes a search passes over.
fn passed_over(size: usize, init: Num) -> usize
    ensures passed { result ≡ meaning.passed_over size init }
    ensures within { result ≤ size }
{
    place_in(size, init).saturating_sub(1).min(size)
}

// Whether a text has a byte that means something in a pattern (Lua 5.1 manual §5.4.1).
fn is_pattern(text: &[u8]) -> bool
    ensures { result ≡ meaning.is_pattern text.now }
{
    for byte in text {
        if is_special(*byte) {
            return true;
        }
    }
    false
}

fn is_special(byte: u8) -> bool
    ensures { result ≡ meaning.is_one_of (codes "^$*+?.([%-") byte }
{
    matches!(
        byte,
        b'^' | b'$' | b'*' | b'+' | b'?' | b'.' | b'(' | b'[' | b'%' | b'-'
    )
}

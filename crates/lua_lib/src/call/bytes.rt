//! The functions of `string` (Lua 5.1 manual §5.4) that give or take the numbers of bytes and
//! places.

ghost use Rattle.std.specs.Prelude.{◌≡◌, pos, map, length, IfOk, IfErr};
ghost use Rattle.lua_meaning.specs.Arguments as reading;
ghost use Rattle.lua_meaning.specs.Strings as meaning;
ghost use Rattle.lua_lib.specs.declared.fault.Fault.TheVariants.{Memory};
ghost use Rattle.lua_lib.specs.declared.call.cause.Cause.TheVariants.{By};
ghost use Rattle.lua_lib.specs.Causes.{AreMade, values_of, Comes, one_text, places_or_nil};

use crate::call::arguments::{argument, number_argument, number_or_natural, text_argument};
use crate::call::cause::Cause;
use crate::call::types::is_true;
use crate::signed::natural;
use crate::{Fault, strings};
use itoa::Buffer;
use lua_heap::{Heap, Value};
use lua_value::Num;
use std::alloc::{AllocError, Global};

// A byte as a number.
fn byte_value(byte: u8) -> Value
    ensures { result ≡ Value.Num (pos byte) }
{
    Value::Num(Num::new(i64::from(byte)).unwrap())
}

// Bytes as numbers.
fn byte_values(alloc: Global, bytes: &[u8]) -> Result<Vec<Value>, AllocError>
    ensures { IfOk result (λ made. made.items ≡ map (λ byte. Value.Num (pos byte)) bytes.now) }
{
    bytes.iter().map(|byte| byte_value(*byte)).collect(alloc)
}

// A place of a text of so many bytes, which is the same as another one where it is nil.
fn last_place(heap: &Heap, args: &[Value], n: usize, size: usize, first: Num) -> Result<Num, Cause>
    requires { AreMade heap.now args.now }
    ensures { Comes (λ number. number) heap.now
        (reading.number_or n (values_of heap.now args.now) (pos (meaning.place_in size first)))
        result }
{
    number_or_natural(heap, args, n, strings::place_in(size, first) as u64)
}

/// `string.byte(s, i, j)`: the bytes at i to j, as numbers; i is 1 where none is given, and j is i.
///
/// # Errors
///
/// [`Fault::TooManyValues`] where there are over 1,000,000.
pub fn byte(alloc: Global, heap: &Heap, args: &[Value]) -> Result<Vec<Value>, Cause>
    requires { AreMade heap.now args.now }
    ensures given { Comes (λ made. values_of heap.now made.items) heap.now
        (meaning.byte (values_of heap.now args.now)) result }
    ensures made { IfOk result (λ made. AreMade heap.now made.items) }
{
    let mut digits = Buffer::new();
    let text = text_argument(heap, args, 0, &mut digits)?;
    let i = number_or_natural(heap, args, 1, 1)?;
    let j = last_place(heap, args, 2, text.len(), i)?;
    let bytes = strings::byte(text, i, j)?;
    let made = byte_values(alloc, bytes)?;
    Ok(made)
}

/// `string.char(...)`: the string of these bytes.
///
/// # Errors
///
/// [`Fault::NoByte`] of the first argument that isn't from 0 to 255; [`Fault::StringTooLong`].
pub fn char(alloc: Global, heap: &Heap, args: &[Value]) -> Result<Vec<u8>, Cause>
    requires { AreMade heap.now args.now }
    ensures { Comes (λ made. one_text made.items) heap.now
        (meaning.char (values_of heap.now args.now)) result }
{
    let bytes = char_bytes(alloc, heap, args)?;
    let made = strings::string(bytes)?;
    Ok(made)
}

// The arguments as bytes.
fn char_bytes(alloc: Global, heap: &Heap, args: &[Value]) -> Result<Vec<u8>, Cause>
    requires { AreMade heap.now args.now }
    ensures { Comes (λ made. made.items) heap.now
        (meaning.bytes_from 0 (length (values_of heap.now args.now))
        (values_of heap.now args.now)) result }
{
    let mut bytes = Vec::new(alloc);
    for n in 0..args.len() {
        let byte = byte_argument(heap, args, n)?;
        bytes.push(byte)?;
    }
    Ok(bytes)
}

/// An argument as a byte.
///
/// # Errors
///
/// [`Fault::NoByte`] where it isn't from 0 to 255.
pub(crate) fn byte_argument(heap: &Heap, args: &[Value], n: usize) -> Result<u8, Cause>
    requires { AreMade heap.now args.now }
    ensures { Comes (λ byte. byte) heap.now
        (meaning.byte_argument n (values_of heap.now args.now)) result }
{
    let number = number_argument(heap, args, n)?;
    let byte = strings::char_byte(n, number)?;
    Ok(byte)
}

/// `string.find(s, p, init, plain)`: the places of the first and the last byte of the first part of
/// s that is p, from init on, which is 1 where none is given; `None` where there is none. A place
/// that is no number is want of memory.
///
/// # Errors
///
/// [`Fault::PatternsNotAvailable`] where p means a pattern and plain is nil or false.
pub fn find(heap: &Heap, args: &[Value]) -> Result<Option<(Num, Num)>, Cause>
    requires { AreMade heap.now args.now }
    ensures { Comes places_or_nil heap.now (meaning.find (values_of heap.now args.now)) result }
{
    let mut digits = Buffer::new();
    let text = text_argument(heap, args, 0, &mut digits)?;
    let mut wanted_digits = Buffer::new();
    let wanted = text_argument(heap, args, 1, &mut wanted_digits)?;
    let init = number_or_natural(heap, args, 2, 1)?;
    let plain = is_true(&argument(args, 3));
    let place = strings::find(text, wanted, init, plain)?;
    let places = found(place, wanted.len())?;
    Ok(places)
}

// The places of a part of so many bytes that was found at a place.
fn found(place: Option<usize>, size: usize) -> Result<Option<(Num, Num)>, Cause>
    ensures ok { IfOk result (λ places. places_or_nil places ≡ meaning.found_places size place) }
    ensures fault { IfErr result (λ cause. cause ≡ By Memory) }
{
    let Some(place) = place else {
        return Ok(None);
    };
    let last = place.saturating_add(size).saturating_sub(1);
    match (natural(place as u64), natural(last as u64)) {
        (Some(first), Some(last)) => Ok(Some((first, last))),
        _ => Err(Cause::By(Fault::Memory)),
    }
}

//! The functions of `string` (Lua 5.1 manual §5.4) that give one text.

ghost use Rattle.std.specs.Prelude.{◌≡◌, negsuc, IfOk};
ghost use Rattle.lua_meaning.specs.Strings as meaning;
ghost use Rattle.lua_lib.specs.Causes.{AreMade, values_of, Comes, one_number, one_text};

use crate::call::arguments::{number_argument, number_or, text_argument};
use crate::call::cause::Cause;
use crate::signed::natural;
use crate::{Fault, strings};
use itoa::Buffer;
use love_base::Memory;
use lua_heap::{Heap, Value};
use lua_value::Num;
use std::alloc::Global;

/// `string.len(s)`. A length that is no number is want of memory.
pub fn len(heap: &Heap, args: &[Value]) -> Result<Num, Cause>
    requires { AreMade heap.now args.now }
    ensures { Comes one_number heap.now (meaning.len (values_of heap.now args.now)) result }
{
    let mut digits = Buffer::new();
    let text = text_argument(heap, args, 0, &mut digits)?;
    match natural(text.len() as u64) {
        Some(length) => Ok(length),
        None => Err(Cause::By(Fault::Memory)),
    }
}

/// `string.lower(s)`.
pub fn lower(alloc: Global, heap: &Heap, args: &[Value]) -> Result<Vec<u8>, Cause>
    requires { AreMade heap.now args.now }
    ensures { Comes (λ made. one_text made.items) heap.now
        (meaning.lower (values_of heap.now args.now)) result }
{
    let mut digits = Buffer::new();
    let text = text_argument(heap, args, 0, &mut digits)?;
    let made = strings::lower(alloc, text)?;
    Ok(made)
}

/// `string.upper(s)`.
pub fn upper(alloc: Global, heap: &Heap, args: &[Value]) -> Result<Vec<u8>, Cause>
    requires { AreMade heap.now args.now }
    ensures { Comes (λ made. one_text made.items) heap.now
        (meaning.upper (values_of heap.now args.now)) result }
{
    let mut digits = Buffer::new();
    let text = text_argument(heap, args, 0, &mut digits)?;
    let made = strings::upper(alloc, text)?;
    Ok(made)
}

/// `string.reverse(s)`.
pub fn reverse(alloc: Global, heap: &Heap, args: &[Value]) -> Result<Vec<u8>, Cause>
    requires { AreMade heap.now args.now }
    ensures { Comes (λ made. one_text made.items) heap.now
        (meaning.reversed (values_of heap.now args.now)) result }
{
    let mut digits = Buffer::new();
    let text = text_argument(heap, args, 0, &mut digits)?;
    let made = strings::reverse(alloc, text)?;
    Ok(made)
}

/// `string.rep(s, n)`.
pub fn rep(alloc: Global, heap: &Heap, args: &[Value]) -> Result<Vec<u8>, Cause>
    requires { AreMade heap.now args.now }
    ensures { Comes (λ made. one_text made.items) heap.now
        (meaning.rep (values_of heap.now args.now)) result }
{
    let mut digits = Buffer::new();
    let text = text_argument(heap, args, 0, &mut digits)?;
    let n = number_argument(heap, args, 1)?;
    let made = strings::rep(alloc, text, n)?;
    Ok(made)
}

// The number of the last place.
fn minus_one() -> Num
    ensures { result ≡ negsuc 0 }
{
    Num::new(-1).unwrap()
}

pub(crate) fn copied(alloc: Global, text: &[u8]) -> Result<Vec<u8>, Memory>
    ensures { IfOk result (λ made. made.items ≡ text.now) }
{
    Ok(Vec::from_slice(alloc, text)?)
}

/// `string.sub(s, i, j)`.
pub fn sub(alloc: Global, heap: &Heap, args: &[Value]) -> Result<Vec<u8>, Cause>
    requires { AreMade heap.now args.now }
    ensures { Comes (λ made. one_text made.items) heap.now
        (meaning.sub (values_of heap.now args.now)) result }
{
    let mut digits = Buffer::new();
    let text = text_argument(heap, args, 0, &mut digits)?;
    let i = number_argument(heap, args, 1)?;
    let j = number_or(heap, args, 2, minus_one())?;
    let made = copied(alloc, strings::sub(text, i, j))?;
    Ok(made)
}

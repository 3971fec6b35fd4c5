//! `string.format` (Lua 5.1 manual §5.4).

ghost use Rattle.std.specs.Prelude.{◌≡◌, ◌<◌, ◌≤◌, ◌+◌, [], ◌∷◌, ℕ, List, length, MatchOption, IfOk, IfErr};
ghost use Rattle.lua_meaning.specs.Store.{Store};
ghost use Rattle.lua_meaning.specs.Format as meaning;
ghost use Rattle.lua_lib.specs.Faults.{RaisesBy};
ghost use Rattle.lua_lib.specs.Causes.{AreMade, values_of, Comes, error_of, one_text};
ghost use Rattle.lua_lib.specs.Items.{written_by, in_base_16};
ghost use Rattle.lua_lib.specs.Pieces.{put_before, Puts};

use crate::call::arguments::{number_argument, text_argument};
use crate::call::bytes::byte_argument;
use crate::call::cause::Cause;
use crate::format::{Directive, Item, put_hexadecimal, put_padded, put_whole, read_directive};
use crate::{Fault, strings};
use itoa::Buffer;
use lua_heap::{Heap, Value};
use std::alloc::Global;

/// `string.format(f, ...)`: the format with what its items write of the arguments behind it.
///
/// # Errors
///
/// [`Fault::InvalidFormat`] of an item that isn't one of `%d %s %x %X %c %%`; [`Fault::Negative`] of
/// an argument of `%x` or `%X`; [`Fault::NoByte`] of one of `%c`; [`Fault::StringTooLong`].
pub fn format(alloc: Global, heap: &Heap, args: &[Value]) -> Result<Vec<u8>, Cause>
    requires { AreMade heap.now args.now }
    ensures { Comes (λ made. one_text made.items) heap.now
        (meaning.format (values_of heap.now args.now)) result }
{
    let mut digits = Buffer::new();
    let text = text_argument(heap, args, 0, &mut digits)?;
    let written = written(alloc, heap, args, text)?;
    let made = strings::string(written)?;
    Ok(made)
}

// What a format writes of the arguments behind it.
fn written(alloc: Global, heap: &Heap, args: &[Value], format: &[u8]) -> Result<Vec<u8>, Cause>
    requires { AreMade heap.now args.now }
    ensures { Comes (λ made. made.items) heap.now
        (meaning.text_from format.now 1 (values_of heap.now args.now)) result }
{
    let mut made = Vec::new(alloc);
    let mut rest = format;
    let mut argument = 1;
    while let Some((byte, behind)) = split_first(rest) {
        let (left, next) = put_piece(alloc, &mut made, heap, args, byte, behind, argument)?;
        rest = left;
        argument = next;
    }
    Ok(made)
}

// The first byte of a text, and those behind it.
fn split_first(text: &[u8]) -> Option<(u8, &[u8])>
    ensures { MatchOption result (text.now ≡ []) (λ parts. text.now ≡ parts.0 ∷ parts.1.now) }
{
    match text {
        [first, behind @ ..] => Some((*first, behind)),
        [] => None,
    }
}

// Puts what a format's byte, or the item that it begins, writes; what is left of the format, and
// the next argument.
fn put_piece<'a>(
    alloc: Global,
    made: &mut Vec<u8>,
    heap: &Heap,
    args: &[Value],
    byte: u8,
    behind: &'a [u8],
    argument: usize,
) -> Result<(&'a [u8], usize), Cause>
    requires args { AreMade heap.now args.now }
    requires room { argument + length behind.now < 18446744073709551615 }
    ensures put { IfOk result (λ left. (s : Store) →
        put_before made.old.items
        (meaning.text_from (byte ∷ behind.now) argument (values_of heap.now args.now)) s
        ≡ put_before made.new.items
        (meaning.text_from left.0.now left.1 (values_of heap.now args.now)) s) }
    ensures shorter { IfOk result (λ left. length left.0.now ≤ length behind.now) }
    ensures next { IfOk result (λ left.
        left.1 + length left.0.now ≤ argument + length behind.now) }
    ensures fault { IfErr result (λ cause.
        RaisesBy (meaning.text_from (byte ∷ behind.now) argument (values_of heap.now args.now))
        (error_of heap.now.texts cause)) }
{
    if byte != b'%' {
        made.push(byte)?;
        return Ok((behind, argument));
    }
    match read_directive(behind) {
        Ok((directive, left)) => {
            let next = put_directive(alloc, made, heap, args, argument, directive)?;
            Ok((left, next))
        }
        Err(fault) => Err(Cause::By(fault)),
    }
}

// Puts what stands behind a `%`; the next argument.
fn put_directive(
    alloc: Global,
    made: &mut Vec<u8>,
    heap: &Heap,
    args: &[Value],
    argument: usize,
    directive: Directive,
) -> Result<usize, Cause>
    requires args { AreMade heap.now args.now }
    requires room { argument < 18446744073709551615 }
    ensures put { IfOk result (λ next. (rest : List ℕ) (s : Store) →
        put_before made.old.items
        (written_by directive rest argument (values_of heap.now args.now)) s
        ≡ put_before made.new.items
        (meaning.text_from rest next (values_of heap.now args.now)) s) }
    ensures next { IfOk result (λ next. next ≤ argument + 1) }
    ensures fault { IfErr result (λ cause. (rest : List ℕ) →
        RaisesBy (written_by directive rest argument (values_of heap.now args.now))
        (error_of heap.now.texts cause)) }
{
    match directive {
        Directive::Percent => {
            made.push(b'%')?;
            Ok(argument)
        }
        Directive::Converts(item, letter) => {
            put_converted(alloc, made, heap, args, argument, item, letter)?;
            Ok(argument + 1)
        }
    }
}

// Puts what an item with its letter writes of an argument.
fn put_converted(
    alloc: Global,
    made: &mut Vec<u8>,
    heap: &Heap,
    args: &[Value],
    argument: usize,
    item: Item,
    letter: u8,
) -> Result<(), Cause>
    requires { AreMade heap.now args.now }
    ensures { Puts heap.now.texts made.old.items made.new.items
        (meaning.converted item letter argument (values_of heap.now args.now)) result }
{
    if letter == b'd' {
        return put_decimal(made, heap, args, argument, item);
    }
    if letter == b's' {
        return put_text(made, heap, args, argument, item);
    }
    if letter == b'x' {
        return put_base_16(alloc, made, heap, args, argument, item, false);
    }
    if letter == b'X' {
        return put_base_16(alloc, made, heap, args, argument, item, true);
    }
    if letter == b'c' {
        return put_byte(made, heap, args, argument, item);
    }
    Err(Cause::By(Fault::InvalidFormat))
}

// `%d`
fn put_decimal(
    made: &mut Vec<u8>,
    heap: &Heap,
    args: &[Value],
    argument: usize,
    item: Item,
) -> Result<(), Cause>
    requires { AreMade heap.now args.now }
    ensures { Puts heap.now.texts made.old.items made.new.items
        (meaning.converted item 100 argument (values_of heap.now args.now)) result }
{
    let number = number_argument(heap, args, argument)?;
    put_whole(made, item, number)?;
    Ok(())
}

// `%s`
fn put_text(
    made: &mut Vec<u8>,
    heap: &Heap,
    args: &[Value],
    argument: usize,
    item: Item,
) -> Result<(), Cause>
    requires { AreMade heap.now args.now }
    ensures { Puts heap.now.texts made.old.items made.new.items
        (meaning.converted item 115 argument (values_of heap.now args.now)) result }
{
    let mut digits = Buffer::new();
    let text = text_argument(heap, args, argument, &mut digits)?;
    put_padded(made, item, text)?;
    Ok(())
}

// `%x`, and `%X` with `upper`
fn put_base_16(
    alloc: Global,
    made: &mut Vec<u8>,
    heap: &Heap,
    args: &[Value],
    argument: usize,
    item: Item,
    upper: bool,
) -> Result<(), Cause>
    requires { AreMade heap.now args.now }
    ensures { Puts heap.now.texts made.old.items made.new.items
        (in_base_16 item upper argument (values_of heap.now args.now)) result }
{
    let number = number_argument(heap, args, argument)?;
    put_hexadecimal(alloc, made, item, upper, argument, number)?;
    Ok(())
}

// `%c`
fn put_byte(
    made: &mut Vec<u8>,
    heap: &Heap,
    args: &[Value],
    argument: usize,
    item: Item,
) -> Result<(), Cause>
    requires { AreMade heap.now args.now }
    ensures { Puts heap.now.texts made.old.items made.new.items
        (meaning.converted item 99 argument (values_of heap.now args.now)) result }
{
    let byte = byte_argument(heap, args, argument)?;
    put_padded(made, item, &[byte])?;
    Ok(())
}

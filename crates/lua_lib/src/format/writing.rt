//! What the items of a format write.

ghost use Rattle.std.specs.Prelude.{◌≡◌, ◌++◌, ℕ, List, OnOk, IfOk, IfErr, replicate};
ghost use Rattle.std.specs.Fmt.{digits};
ghost use Rattle.std.specs.String.{string_bytes};
ghost use Rattle.lua_meaning.specs.Format as meaning;
ghost use Rattle.lua_lib.specs.Outcome.{Gives};
ghost use Rattle.lua_lib.specs.Faults.{FailsBy};

use crate::Fault;
use crate::format::Item;
use crate::signed::{Signed, split_sign};
use itoa::Buffer;
use love_base::Memory;
use lua_value::Num;
use std::alloc::{AllocError, Global};

// Puts a byte at the end so many times.
fn put_times(made: &mut Vec<u8>, count: usize, byte: u8) -> Result<(), Memory>
    ensures { OnOk result (made.new.items ≡ made.old.items ++ replicate count byte) }
{
    for _time in 0..count {
        made.push(byte)?;
    }
    Ok(())
}

// Puts a sign and digits, or nothing and a text, at the end in an item's width, with blanks.
fn put_both(made: &mut Vec<u8>, item: Item, sign: &[u8], text: &[u8]) -> Result<(), Memory>
    ensures { OnOk result (made.new.items
        ≡ made.old.items ++ meaning.padded item (sign.now ++ text.now)) }
{
    let blanks = item.width.saturating_sub(sign.len() + text.len());
    if item.left {
        made.extend_from_slice(sign)?;
        made.extend_from_slice(text)?;
        put_times(made, blanks, b' ')
    } else {
        put_times(made, blanks, b' ')?;
        made.extend_from_slice(sign)?;
        made.extend_from_slice(text)?;
        Ok(())
    }
}

/// Puts a text at the end in an item's width, with blanks: `%s`, `%c`.
///
/// # Errors
///
/// [`Memory`] where there is no room; a part may have been put then.
pub fn put_padded(made: &mut Vec<u8>, item: Item, text: &[u8]) -> Result<(), Memory>
    ensures { OnOk result (made.new.items ≡ made.old.items ++ meaning.padded item text.now) }
{
    put_both(made, item, b"", text)
}

// Puts a sign and digits at the end in an item's width, with blanks or zeros.
fn put_number(made: &mut Vec<u8>, item: Item, sign: &[u8], digits: &[u8]) -> Result<(), Memory>
    ensures { OnOk result (made.new.items
        ≡ made.old.items ++ meaning.padded_number item sign.now digits.now) }
{
    if item.zeros && !item.left {
        let zeros = item.width.saturating_sub(sign.len() + digits.len());
        made.extend_from_slice(sign)?;
        put_times(made, zeros, b'0')?;
        made.extend_from_slice(digits)?;
        return Ok(());
    }
    put_both(made, item, sign, digits)
}

/// Puts a number's decimal digits at the end in an item's width: `%d`.
///
/// # Errors
///
/// [`Memory`] where there is no room; a part may have been put then.
pub fn put_whole(made: &mut Vec<u8>, item: Item, number: Num) -> Result<(), Memory>
    ensures { OnOk result (made.new.items ≡ made.old.items ++ meaning.whole_text item number) }
{
    let mut buffer = Buffer::new();
    match split_sign(number) {
        Signed::Plus(size) => put_number(made, item, b"", buffer.format(size).as_bytes()),
        Signed::Minus(size) => put_number(made, item, b"-", buffer.format(size + 1).as_bytes()),
    }
}

// The digits of a number in base 16.
fn hexadecimal(alloc: Global, size: u64, upper: bool) -> Result<String, AllocError>
    ensures { IfOk result (λ text. string_bytes text ≡ digits 16 upper size) }
{
    if upper {
        format!(in alloc; "{size:X}")
    } else {
        format!(in alloc; "{size:x}")
    }
}

/// Puts a number's digits of base 16 at the end in an item's width: `%x`, and `%X` with `upper`.
///
/// # Errors
///
/// [`Fault::Negative`] of this argument, counted from 0, where the number is negative;
/// [`Fault::Memory`] where there is no room, and a part may have been put then.
pub fn put_hexadecimal(
    alloc: Global,
    made: &mut Vec<u8>,
    item: Item,
    upper: bool,
    argument: usize,
    number: Num,
) -> Result<(), Fault>
    ensures ok { OnOk result ((text : List ℕ)
        × (made.new.items ≡ made.old.items ++ text)
        × Gives (meaning.hexadecimal_text argument upper item number) text) }
    ensures fault { IfErr result
        (FailsBy (meaning.hexadecimal_text argument upper item number)) }
{
    let Signed::Plus(size) = split_sign(number) else {
        return Err(Fault::Negative(argument));
    };
    let digits = hexadecimal(alloc, size, upper)?;
    put_number(made, item, b"", digits.as_bytes())?;
    Ok(())
}

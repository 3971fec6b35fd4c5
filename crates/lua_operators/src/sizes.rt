//! Lengths (Lua 5.1 manual §2.5.5).

ghost use Rattle.std.specs.Prelude.{◌≡◌, ◌<◌, pos, IfOk, MatchOption, OnErr};
ghost use Rattle.lua_heap.specs.Heap.{store_of, IsMade};
ghost use Rattle.lua_code.specs.Doing as code;
ghost use Rattle.lua_operators.specs.Doing.{seen, does, IsMadeDoing};
ghost use Rattle.lua_operators.specs.Answers.{IsTooLarge};

use crate::{Doing, Fault, TypeName};
use love_base::Memory;
use lua_heap::{Heap, Value};
use lua_value::Num;

// The greatest number.
const GREATEST: u64 = 99_999_999_999_999;

// A count as a number, where it is one.
#[inline]
fn count(count: u64) -> Option<Num>
    ensures { MatchOption result (99999999999999 < count) (λ n. n ≡ pos count) }
{
    if count > GREATEST {
        return None;
    }
    Num::new(count as i64)
}

/// The length of a string in bytes, or the least border of a table. Takes no memory.
///
/// # Errors
///
/// [`Memory`] where the length is no number: over 99,999,999,999,999.
pub fn size(heap: &Heap, value: &Value) -> Result<Doing, Memory>
    requires { IsMade heap.now value.now }
    ensures doing { IfOk result (λ doing.
        does heap.now doing ≡ code.size (store_of heap.now) (seen heap.now value.now)) }
    ensures made { IfOk result (λ doing. IsMadeDoing heap.now doing) }
    ensures refused { OnErr result (IsTooLarge (store_of heap.now) (seen heap.now value.now)) }
{
    let size = match *value {
        Value::Str(id) => heap.string(id).len() as u64,
        Value::Table(id) => heap.border(id),
        _ => return Ok(Doing::Fails(Fault::Length(TypeName::of(value)))),
    };
    match count(size) {
        Some(size) => Ok(Doing::Gives(Value::Num(size))),
        None => Err(Memory),
    }
}

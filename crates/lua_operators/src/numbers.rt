//! Values as numbers (Lua 5.1 manual §2.2.1).

ghost use Rattle.std.specs.Prelude.{◌≡◌};
ghost use Rattle.lua_meaning.specs.Text.{as_number};
ghost use Rattle.lua_meaning.specs.Number.{read};
ghost use Rattle.lua_heap.specs.Heap.{IsMade};
ghost use Rattle.lua_operators.specs.Doing.{seen};

use lua_heap::{Heap, Value};
use lua_lib::laws::texts_are_read;
use lua_value::Num;

// The number that a text stands for.
#[inline]
fn read(text: &[u8]) -> Option<Num>
    ensures { result ≡ read text.now }
{
    texts_are_read();
    Num::read(text)
}

// A value as a number: a number itself, or a string that reads as one.
#[inline]
pub(crate) fn as_number(heap: &Heap, value: &Value) -> Option<Num>
    requires { IsMade heap.now value.now }
    ensures { result ≡ as_number (seen heap.now value.now) }
{
    match *value {
        Value::Num(n) => Some(n),
        Value::Str(id) => read(heap.string(id)),
        _ => None,
    }
}

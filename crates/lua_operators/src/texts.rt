//! Values as texts (Lua 5.1 manual §2.2.1).

ghost use Rattle.std.specs.Prelude.{◌≡◌, IfOk, true};
ghost use Rattle.lua_meaning.specs.Text.{as_text};
ghost use Rattle.lua_heap.specs.Heap.{IsMade};
ghost use Rattle.lua_operators.specs.Doing.{seen};
ghost use Rattle.lua_operators.specs.Answers.{HasPut};

use itoa::Buffer;
use love_base::Memory;
use lua_heap::{Heap, Value};

// Puts a value's text at the end of a buffer: a string itself, or a number's digits. False where the
// value has none.
#[inline]
pub(crate) fn put_text(heap: &Heap, value: &Value, buffer: &mut Vec<u8>) -> Result<bool, Memory>
    requires { IsMade heap.now value.now }
    ensures { IfOk result (λ put. HasPut (as_text (seen heap.now value.now)) put
        buffer.old.items buffer.new.items) }
{
    match *value {
        Value::Str(id) => {
            buffer.extend_from_slice(heap.string(id))?;
            Ok(true)
        }
        Value::Num(n) => {
            let mut digits = Buffer::new();
            buffer.extend_from_slice(n.text(&mut digits).as_bytes())?;
            Ok(true)
        }
        _ => Ok(false),
    }
}

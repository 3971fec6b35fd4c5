//! Fields (Lua 5.1 manual §2.2, §2.3).

ghost use Rattle.std.specs.Prelude.{◌≡◌};
ghost use Rattle.lua_heap.specs.Heap.{store_of, IsMade};
ghost use Rattle.lua_code.specs.Doing.{field_doing};
ghost use Rattle.lua_operators.specs.Doing.{seen, does, IsMadeDoing};

use crate::{Doing, Fault, TypeName, Use};
use lua_heap::{Heap, Lookup, Value};

/// A field of a value, along the handlers `__index`. Takes no memory.
#[inline]
pub fn field(heap: &Heap, base: &Value, key: &Value) -> Doing
    requires base { IsMade heap.now base.now }
    requires key { IsMade heap.now key.now }
    ensures doing { does heap.now result ≡ field_doing (store_of heap.now)
        (seen heap.now base.now) (seen heap.now key.now) }
    ensures made { IsMadeDoing heap.now result }
{
    let lookup = heap.index(*base, *key);
    match lookup {
        Lookup::Found(value) => Doing::Gives(value),
        Lookup::Ask(handler, base) => Doing::Asks {
            handler,
            first: base,
            second: *key,
            becomes: Use::Plain,
        },
        Lookup::Not(value) => Doing::Fails(Fault::Index(TypeName::of(&value))),
        Lookup::Loop => Doing::Fails(Fault::IndexLoop),
    }
}

//! Equality (Lua 5.1 manual §2.5.2).

ghost use Rattle.std.specs.Prelude.{◌≡◌, List};
ghost use Rattle.lua_tree.specs.Tree.{Bytes};
ghost use Rattle.lua_heap.specs.Heap.{HeapView, store_of, IsMade};
ghost use Rattle.lua_code.specs.Doing as code;
ghost use Rattle.lua_operators.specs.Doing.{seen, does, use_view, doing_view, IsMadeDoing};
ghost use Rattle.lua_operators.specs.Events.{AreEvents};

use crate::asking::shared_handler;
use crate::operators::is_true;
use crate::{Doing, Event, Events, Use};
use lua_heap::{Heap, Value};

/// Whether two values are the same one. Two tables are also compared by the function that both have
/// as their handler. Takes no memory.
pub fn equal(heap: &Heap, events: &Events, a: &Value, b: &Value) -> Doing
    requires events { AreEvents heap.now.texts events.now }
    requires a { IsMade heap.now a.now }
    requires b { IsMade heap.now b.now }
    ensures doing { does heap.now result ≡ code.equal (store_of heap.now)
        (seen heap.now a.now) (seen heap.now b.now) }
    ensures made { IsMadeDoing heap.now result }
{
    if heap.is_same(*a, *b) {
        return Doing::Gives(Value::Bool(true));
    }
    let handler = &shared_handler(heap, events, Event::Equal, a, b);
    match *handler {
        Value::Func(_) | Value::Native(_) => Doing::Asks {
            handler: *handler,
            first: *a,
            second: *b,
            becomes: Use::Truth,
        },
        _ => Doing::Gives(Value::Bool(false)),
    }
}

/// Whether two values aren't equal. Takes no memory.
pub fn unequal(heap: &Heap, events: &Events, a: &Value, b: &Value) -> Doing
    requires events { AreEvents heap.now.texts events.now }
    requires a { IsMade heap.now a.now }
    requires b { IsMade heap.now b.now }
    ensures doing { does heap.now result ≡ code.opposite (code.equal (store_of heap.now)
        (seen heap.now a.now) (seen heap.now b.now)) }
    ensures made { IsMadeDoing heap.now result }
{
    opposite(equal(heap, events, a, b))
}

// What is true where this one is false.
fn opposite(doing: Doing) -> Doing
    ensures doing { (texts : List Bytes) → doing_view texts result
        ≡ code.opposite (doing_view texts doing) }
    ensures made { (h : HeapView) → IsMadeDoing h doing → IsMadeDoing h result }
{
    match doing {
        Doing::Gives(value) => Doing::Gives(Value::Bool(!is_true(&value))),
        Doing::Asks {
            handler,
            first,
            second,
            becomes,
        } => Doing::Asks {
            handler,
            first,
            second,
            becomes: other(becomes),
        },
        Doing::Fails(fault) => Doing::Fails(fault),
    }
}

// What the opposite makes of a result.
fn other(becomes: Use) -> Use
    ensures { use_view result ≡ code.other_use (use_view becomes) }
{
    match becomes {
        Use::Plain | Use::Truth => Use::Untruth,
        Use::Untruth => Use::Truth,
    }
}

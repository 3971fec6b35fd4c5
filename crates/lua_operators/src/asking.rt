//! Handlers of operators (Lua 5.1 manual §2.8).

ghost use Rattle.std.specs.Prelude.{◌≡◌, List, [], ◌∷◌};
ghost use Rattle.lua_tree.specs.Tree.{Bytes};
ghost use Rattle.lua_meaning.specs.Operators.{binary_handler, shared_handler};
ghost use Rattle.lua_heap.specs.Value.{value_view};
ghost use Rattle.lua_heap.specs.Heap.{HeapView, store_of, IsMade};
ghost use Rattle.lua_code.specs.Doing.{ask_or_fault};
ghost use Rattle.lua_operators.specs.Faults.{fault_text};
ghost use Rattle.lua_operators.specs.Doing.{seen, use_view, doing_view, IsMadeDoing};
ghost use Rattle.lua_operators.specs.Events.{AreEvents, event_text};

use crate::{Doing, Event, Events, Fault, Use};
use lua_heap::{Heap, Value};

// The handler of an operator on two values: the first one's, or else the second one's.
#[inline]
pub(crate) fn binary_handler(
    heap: &Heap,
    events: &Events,
    event: Event,
    a: &Value,
    b: &Value,
) -> Value
    requires events { AreEvents heap.now.texts events.now }
    requires a { IsMade heap.now a.now }
    requires b { IsMade heap.now b.now }
    ensures handler { seen heap.now result ≡ binary_handler (store_of heap.now) (event_text event)
        (seen heap.now a.now) (seen heap.now b.now) }
    ensures made { IsMade heap.now result }
{
    match events.handler(heap, a, event) {
        Value::Nil => events.handler(heap, b, event),
        handler => handler,
    }
}

// The handler that two tables share, nil for other values.
#[inline]
pub(crate) fn shared_handler(
    heap: &Heap,
    events: &Events,
    event: Event,
    a: &Value,
    b: &Value,
) -> Value
    requires events { AreEvents heap.now.texts events.now }
    requires a { IsMade heap.now a.now }
    requires b { IsMade heap.now b.now }
    ensures handler { seen heap.now result ≡ shared_handler (store_of heap.now) (event_text event)
        (seen heap.now a.now) (seen heap.now b.now) }
    ensures made { IsMade heap.now result }
{
    let Value::Table(_) = *a else {
        return Value::Nil;
    };
    let Value::Table(_) = *b else {
        return Value::Nil;
    };
    let first = &events.handler(heap, a, event);
    let second = &events.handler(heap, b, event);
    if heap.is_same(*first, *second) {
        *first
    } else {
        Value::Nil
    }
}

// Asks a handler of two values; there is none where it is nil.
#[inline]
pub(crate) fn ask_or_fail(
    handler: Value,
    first: &Value,
    second: &Value,
    becomes: Use,
    fault: Fault,
) -> Doing
    ensures doing { (texts : List Bytes) → doing_view texts result ≡ ask_or_fault
        (value_view texts handler) (fault_text fault)
        (value_view texts first.now ∷ value_view texts second.now ∷ []) (use_view becomes) }
    ensures made { (h : HeapView) → IsMade h handler → IsMade h first.now → IsMade h second.now
        → IsMadeDoing h result }
{
    match handler {
        Value::Nil => Doing::Fails(fault),
        handler => Doing::Asks {
            handler,
            first: *first,
            second: *second,
            becomes,
        },
    }
}

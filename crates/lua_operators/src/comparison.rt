//! Order (Lua 5.1 manual §2.5.2).

ghost use Rattle.std.specs.Prelude.{◌≡◌, List, not};
ghost use Rattle.lua_tree.specs.Tree.{Bytes};
ghost use Rattle.lua_meaning.specs.Fault.{order_text};
ghost use Rattle.lua_meaning.specs.Tables.{is_text_up_to};
ghost use Rattle.lua_meaning.specs.Operators.{is_less, is_not_greater, shared_handler};
ghost use Rattle.lua_heap.specs.Value.{value_view};
ghost use Rattle.lua_heap.specs.Heap.{store_of, IsMade};
ghost use Rattle.lua_code.specs.Doing as code;
ghost use Rattle.lua_operators.specs.Faults.{fault_text};
ghost use Rattle.lua_operators.specs.Doing.{seen, does, IsMadeDoing};
ghost use Rattle.lua_operators.specs.Events.{AreEvents, event_text};

use crate::asking::{ask_or_fail, shared_handler};
use crate::{Doing, Event, Events, Fault, TypeName, Use};
use lua_heap::{Heap, Value};

/// Whether the first value is less: of two numbers, or two strings by their bytes; or else the
/// handler that two tables share. Takes no memory.
pub fn less(heap: &Heap, events: &Events, a: &Value, b: &Value) -> Doing
    requires events { AreEvents heap.now.texts events.now }
    requires a { IsMade heap.now a.now }
    requires b { IsMade heap.now b.now }
    ensures doing { does heap.now result ≡ code.less (store_of heap.now)
        (seen heap.now a.now) (seen heap.now b.now) }
    ensures made { IsMadeDoing heap.now result }
{
    match is_less(heap, a, b) {
        Some(known) => Doing::Gives(Value::Bool(known)),
        None => {
            let handler = shared_handler(heap, events, Event::Less, a, b);
            ask_or_fail(handler, a, b, Use::Truth, unordered(a, b))
        }
    }
}

/// Whether the first value is less or equal. Two tables without a handler for that are compared the
/// other way round: the second one isn't less. Takes no memory.
pub fn up_to(heap: &Heap, events: &Events, a: &Value, b: &Value) -> Doing
    requires events { AreEvents heap.now.texts events.now }
    requires a { IsMade heap.now a.now }
    requires b { IsMade heap.now b.now }
    ensures doing { does heap.now result ≡ code.up_to (store_of heap.now)
        (seen heap.now a.now) (seen heap.now b.now) }
    ensures made { IsMadeDoing heap.now result }
{
    match is_not_greater(heap, a, b) {
        Some(known) => Doing::Gives(Value::Bool(known)),
        None => {
            let handler = shared_handler(heap, events, Event::UpTo, a, b);
            up_to_by(heap, events, handler, a, b)
        }
    }
}

// The same by the handler for it, or without one.
fn up_to_by(heap: &Heap, events: &Events, handler: Value, a: &Value, b: &Value) -> Doing
    requires events { AreEvents heap.now.texts events.now }
    requires handler { IsMade heap.now handler }
    requires a { IsMade heap.now a.now }
    requires b { IsMade heap.now b.now }
    ensures doing { does heap.now result ≡ code.up_to_by (seen heap.now handler)
        (store_of heap.now) (seen heap.now a.now) (seen heap.now b.now) }
    ensures made { IsMadeDoing heap.now result }
{
    match handler {
        Value::Nil => {
            let less = shared_handler(heap, events, Event::Less, b, a);
            ask_or_fail(less, b, a, Use::Untruth, unordered(a, b))
        }
        handler => Doing::Asks {
            handler,
            first: *a,
            second: *b,
            becomes: Use::Truth,
        },
    }
}

// That two values have no order.
fn unordered(a: &Value, b: &Value) -> Fault
    ensures { (texts : List Bytes) → fault_text result
        ≡ order_text (value_view texts a.now) (value_view texts b.now) }
{
    Fault::Compare(TypeName::of(a), TypeName::of(b))
}

// Whether the first of two numbers, or of two strings, is less.
#[inline]
fn is_less(heap: &Heap, a: &Value, b: &Value) -> Option<bool>
    requires a { IsMade heap.now a.now }
    requires b { IsMade heap.now b.now }
    ensures { result ≡ is_less (seen heap.now a.now) (seen heap.now b.now) }
{
    match *a {
        Value::Num(x) => match *b {
            Value::Num(y) => Some(x.get() < y.get()),
            _ => None,
        },
        Value::Str(x) => match *b {
            Value::Str(y) => Some(is_text_less(heap.string(x), heap.string(y))),
            _ => None,
        },
        _ => None,
    }
}

// Whether it is less or equal.
#[inline]
fn is_not_greater(heap: &Heap, a: &Value, b: &Value) -> Option<bool>
    requires a { IsMade heap.now a.now }
    requires b { IsMade heap.now b.now }
    ensures { result ≡ is_not_greater (seen heap.now a.now) (seen heap.now b.now) }
{
    match *a {
        Value::Num(x) => match *b {
            Value::Num(y) => Some(x.get() <= y.get()),
            _ => None,
        },
        Value::Str(x) => match *b {
            Value::Str(y) => Some(!is_text_less(heap.string(y), heap.string(x))),
            _ => None,
        },
        _ => None,
    }
}

// The order of texts by their bytes.
#[inline]
fn is_text_less(a: &[u8], b: &[u8]) -> bool
    ensures { result ≡ not (is_text_up_to b.now a.now) }
{
    a < b
}

//! Handlers: which one is asked, of what, and what becomes of its result.

use crate::asked::{field_of, number, of_one, of_two, text};
use love_base::Memory;
use lua_heap::{Heap, Native, Value};
use lua_operators::{Doing, Fault, TypeName, Use};
use lua_tree::{BinOp, UnOp};

// A table whose metatable has a value for an event.
fn with_handler(heap: &mut Heap, event: &[u8], handler: &Value) -> Result<Value, Memory> {
    let id = heap.new_table()?;
    let meta = heap.new_table()?;
    let event = heap.intern(event)?;
    if heap.is_made(*handler) {
        heap.set_raw(meta, Value::Str(event), *handler)?;
    }
    if heap.is_made(Value::Table(id)) && heap.is_made(Value::Table(meta)) {
        heap.set_meta(id, Some(meta));
    }
    Ok(Value::Table(id))
}

const PRINT: Value = Value::Native(Native::Print);

const NEXT: Value = Value::Native(Native::Next);

fn asks(handler: &Value, first: &Value, second: &Value, becomes: Use) -> Doing {
    Doing::Asks {
        handler: *handler,
        first: *first,
        second: *second,
        becomes,
    }
}

// The first operand's handler, or else the second one's; it is asked of both as they stand.
#[test]
fn handlers_of_either_operand(rt: HostRuntime) -> Result<(), Memory> {
    let mut heap = Heap::new(rt.alloc())?;
    let one = &number(1);
    for (op, event) in [
        (BinOp::Add, b"__add".as_slice()),
        (BinOp::Sub, b"__sub"),
        (BinOp::Mul, b"__mul"),
        (BinOp::Div, b"__div"),
        (BinOp::Mod, b"__mod"),
        (BinOp::Pow, b"__pow"),
        (BinOp::Concat, b"__concat"),
    ] {
        let a = &with_handler(&mut heap, event, &PRINT)?;
        let b = &with_handler(&mut heap, event, &NEXT)?;
        for (left, right, handler) in [
            (a, b, &PRINT),
            (b, a, &NEXT),
            (one, b, &NEXT),
            (a, one, &PRINT),
        ] {
            let found = of_two(rt.alloc(), &mut heap, op, left, right)?;
            assert!(rt; found == asks(handler, left, right, Use::Plain));
        }
    }
    let minus = &with_handler(&mut heap, b"__unm", &PRINT)?;
    let found = of_one(&mut heap, UnOp::Minus, minus)?;
    assert!(rt; found == asks(&PRINT, minus, minus, Use::Plain));
    Ok(())
}

// A handler that is no function is called as well; what comes of that is the call's affair.
#[test]
fn a_handler_of_any_type(rt: HostRuntime) -> Result<(), Memory> {
    let mut heap = Heap::new(rt.alloc())?;
    let one = &number(1);
    let a = &with_handler(&mut heap, b"__add", one)?;
    let found = of_two(rt.alloc(), &mut heap, BinOp::Add, one, a)?;
    assert!(rt; found == asks(one, one, a, Use::Plain));
    Ok(())
}

// Two tables are compared by the handler that both have. `a <= b` without one for it is that `b`
// isn't less than `a`.
#[test]
fn handlers_of_both_tables(rt: HostRuntime) -> Result<(), Memory> {
    let mut heap = Heap::new(rt.alloc())?;
    let less = &with_handler(&mut heap, b"__lt", &PRINT)?;
    let same = &with_handler(&mut heap, b"__lt", &PRINT)?;
    let up_to = &with_handler(&mut heap, b"__le", &PRINT)?;
    let alike = &with_handler(&mut heap, b"__le", &PRINT)?;
    let equal = &with_handler(&mut heap, b"__eq", &PRINT)?;
    let twin = &with_handler(&mut heap, b"__eq", &PRINT)?;
    for (op, a, b, doing) in [
        (
            BinOp::Less,
            less,
            same,
            asks(&PRINT, less, same, Use::Truth),
        ),
        (
            BinOp::Greater,
            less,
            same,
            asks(&PRINT, same, less, Use::Truth),
        ),
        (
            BinOp::LessEqual,
            less,
            same,
            asks(&PRINT, same, less, Use::Untruth),
        ),
        (
            BinOp::GreaterEqual,
            less,
            same,
            asks(&PRINT, less, same, Use::Untruth),
        ),
        (
            BinOp::LessEqual,
            up_to,
            alike,
            asks(&PRINT, up_to, alike, Use::Truth),
        ),
        (
            BinOp::GreaterEqual,
            up_to,
            alike,
            asks(&PRINT, alike, up_to, Use::Truth),
        ),
        (
            BinOp::Equal,
            equal,
            twin,
            asks(&PRINT, equal, twin, Use::Truth),
        ),
        (
            BinOp::NotEqual,
            equal,
            twin,
            asks(&PRINT, equal, twin, Use::Untruth),
        ),
        (BinOp::Equal, equal, equal, Doing::Gives(Value::Bool(true))),
        (BinOp::Equal, equal, less, Doing::Gives(Value::Bool(false))),
    ] {
        let found = of_two(rt.alloc(), &mut heap, op, a, b)?;
        assert!(rt; found == doing);
    }
    Ok(())
}

// Handlers that differ are none, and a number has none.
#[test]
fn handlers_that_are_not_shared(rt: HostRuntime) -> Result<(), Memory> {
    let mut heap = Heap::new(rt.alloc())?;
    let a = &with_handler(&mut heap, b"__lt", &PRINT)?;
    let b = &with_handler(&mut heap, b"__lt", &NEXT)?;
    let one = &number(1);
    let tables = of_two(rt.alloc(), &mut heap, BinOp::Less, a, b)?;
    assert!(rt; tables == Doing::Fails(Fault::Compare(TypeName::Table, TypeName::Table)));
    let mixed = of_two(rt.alloc(), &mut heap, BinOp::Less, a, one)?;
    assert!(rt; mixed == Doing::Fails(Fault::Compare(TypeName::Table, TypeName::Number)));
    // `==` asks functions alone.
    let equal = &with_handler(&mut heap, b"__eq", one)?;
    let twin = &with_handler(&mut heap, b"__eq", one)?;
    let found = of_two(rt.alloc(), &mut heap, BinOp::Equal, equal, twin)?;
    assert!(rt; found == Doing::Gives(Value::Bool(false)));
    Ok(())
}

#[test]
fn handlers_of_fields(rt: HostRuntime) -> Result<(), Memory> {
    let mut heap = Heap::new(rt.alloc())?;
    let asked = &with_handler(&mut heap, b"__index", &PRINT)?;
    let before = &with_handler(&mut heap, b"__index", asked)?;
    let key = &text(&mut heap, b"key");
    assert!(rt; field_of(&heap, asked, key)? == asks(&PRINT, asked, key, Use::Plain));
    assert!(rt; field_of(&heap, before, key)? == asks(&PRINT, asked, key, Use::Plain));
    Ok(())
}

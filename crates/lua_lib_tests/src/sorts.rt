//! `table.sort` and `table.maxn`.

use crate::natives::{given, gives, num, text};
use lua_heap::{Heap, Native, Value};
use lua_lib::Fault;
use lua_lib::call::{Cause, LibFault};
use std::alloc::Global;
use std::test::Fail;

// A table with these items, the last one first.
fn table_of(alloc: Global, heap: &mut Heap, items: &[Value]) -> Value {
    let Ok(id) = heap.new_table() else {
        return Value::Nil;
    };
    let table = Value::Table(id);
    for item in items {
        let _put = given(alloc, heap, Native::TableInsert, &table, &num(1), item);
    }
    table
}

// Whether the items of a table, once it is sorted, stand in this order.
fn sorts_to(alloc: Global, heap: &mut Heap, items: &[Value], wanted: &[u8]) -> bool {
    let table = table_of(alloc, heap, items);
    let nil = Value::Nil;
    let is_sorted = gives(alloc, heap, Native::TableSort, &table, &nil, &nil, &[]);
    let wanted = text(heap, wanted);
    let blank = text(heap, b" ");
    let is_joined = gives(
        alloc,
        heap,
        Native::TableConcat,
        &table,
        &blank,
        &num(1),
        &[wanted],
    );
    is_sorted && is_joined
}

// Whether a table isn't sorted, because of a fault.
fn is_refused(
    alloc: Global,
    heap: &mut Heap,
    items: &[Value],
    second: &Value,
    wanted: Fault,
) -> bool {
    let table = table_of(alloc, heap, items);
    let found = given(alloc, heap, Native::TableSort, &table, second, second);
    found == Err(LibFault::Fails(Cause::By(wanted)))
}

#[test]
fn numbers(rt: HostRuntime) -> Result<(), Fail> {
    let mut heap = Heap::new(rt.alloc()).map_err(|_| "no heap")?;
    let items = [num(3), num(-1), num(2), num(3), num(-99_999_999_999_999)];
    assert!(rt; sorts_to(rt.alloc(), &mut heap, &items, b"-99999999999999 -1 2 3 3"));
    assert!(rt; sorts_to(rt.alloc(), &mut heap, &[], b""));
    Ok(())
}

#[test]
fn texts(rt: HostRuntime) -> Result<(), Fail> {
    let mut heap = Heap::new(rt.alloc()).map_err(|_| "no heap")?;
    let b = text(&mut heap, b"b");
    let empty = text(&mut heap, b"");
    let ab = text(&mut heap, b"ab");
    let a = text(&mut heap, b"a");
    let large = text(&mut heap, b"B");
    let last = text(&mut heap, b"\xff");
    let same = text(&mut heap, b"ab");
    let items = [b, empty, ab, a, large, last, same];
    assert!(rt; sorts_to(rt.alloc(), &mut heap, &items, b" B a ab ab b \xff"));
    Ok(())
}

#[test]
fn refusals(rt: HostRuntime) -> Result<(), Fail> {
    let mut heap = Heap::new(rt.alloc()).map_err(|_| "no heap")?;
    let word = text(&mut heap, b"1");
    let print = Value::Native(Native::Print);
    let nil = Value::Nil;
    let alloc = rt.alloc();
    assert!(rt; is_refused(alloc, &mut heap, &[word, num(2)], &nil, Fault::NoOrder));
    assert!(rt; is_refused(alloc, &mut heap, &[num(2)], &print, Fault::TakesNoFunction));
    Ok(())
}

// Keys that get a value, which two of them lose, and the greatest number among them.
#[test]
fn greatest_keys(rt: HostRuntime) -> Result<(), Fail> {
    let mut heap = Heap::new(rt.alloc()).map_err(|_| "no heap")?;
    let table = &Value::Table(heap.new_table().map_err(|_| "no table")?);
    let word = text(&mut heap, b"9");
    let nil = Value::Nil;
    let rows = [
        (num(-8), num(1), 0),
        (word, num(1), 0),
        (num(3), num(1), 3),
        (num(7), num(1), 7),
        (num(5), num(1), 7),
        (num(7), nil, 5),
        (num(3), nil, 5),
    ];
    for (key, value, wanted) in rows {
        let _set = given(rt.alloc(), &mut heap, Native::RawSet, table, &key, &value);
        let wanted = num(wanted);
        assert!(rt;
            gives(
                rt.alloc(),
                &mut heap,
                Native::TableMaxn,
                table,
                &nil,
                &nil,
                &[wanted]
            )
        );
    }
    Ok(())
}

use love_base::Data;
use lua_heap::{Heap, Native, Value};
use lua_lib::Fault;
use lua_lib::call::{Cause, Expected, LibFault, call};
use lua_value::Num;
use std::alloc::Global;
use std::test::Fail;

pub(crate) fn num(n: i64) -> Value {
    match Num::new(n) {
        Some(n) => Value::Num(n),
        None => Value::Nil,
    }
}

pub(crate) fn text(heap: &mut Heap, bytes: &[u8]) -> Value {
    match heap.intern(bytes) {
        Ok(id) => Value::Str(id),
        Err(_) => Value::Nil,
    }
}

// What a function gives for three arguments that the heap made.
pub(crate) fn given(
    alloc: Global,
    heap: &mut Heap,
    native: Native,
    a: &Value,
    b: &Value,
    c: &Value,
) -> Result<Vec<Value>, LibFault> {
    if !heap.is_made(*a) || !heap.is_made(*b) || !heap.is_made(*c) {
        return Err(LibFault::Elsewhere);
    }
    let args = [*a, *b, *c];
    call(alloc, heap, native, &args)
}

// Whether a function gives these values for three arguments.
pub(crate) fn gives(
    alloc: Global,
    heap: &mut Heap,
    native: Native,
    a: &Value,
    b: &Value,
    c: &Value,
    wanted: &[Value],
) -> bool {
    match given(alloc, heap, native, a, b, c) {
        Ok(found) => found.as_slice() == wanted,
        Err(_) => false,
    }
}

// Whether a function gives this number for two numbers and a third.
fn gives_number(
    alloc: Global,
    heap: &mut Heap,
    native: Native,
    a: i64,
    b: i64,
    wanted: i64,
) -> bool {
    let wanted = num(wanted);
    gives(alloc, heap, native, &num(a), &num(b), &num(-9), &[wanted])
}

// Whether a function gives this text for a text and two numbers.
fn gives_text(
    alloc: Global,
    heap: &mut Heap,
    native: Native,
    word: &Value,
    a: i64,
    b: i64,
    wanted: &[u8],
) -> bool {
    let wanted = text(heap, wanted);
    gives(alloc, heap, native, word, &num(a), &num(b), &[wanted])
}

// A function, two arguments, and the one value that it gives.
#[test]
fn numbers(rt: HostRuntime) -> Result<(), Fail> {
    let mut heap = Heap::new(rt.alloc()).map_err(|_| "no heap")?;
    let rows = [
        (Native::MathAbs, -7, 2, 7),
        (Native::MathCeil, -7, 2, -7),
        (Native::MathFloor, -7, 2, -7),
        (Native::MathFmod, -7, 2, -1),
        (Native::MathMax, -7, 2, 2),
        (Native::MathMin, -7, 2, -9),
        (Native::MathPow, -7, 2, 49),
        (Native::StringLen, -12, 2, 3),
        (Native::CollectGarbage, 1, 1, 0),
    ];
    for (native, a, b, wanted) in rows {
        assert!(rt;
            gives_number(rt.alloc(), &mut heap, native, a, b, wanted),
            "{native:?}"
        );
    }
    Ok(())
}

#[test]
fn texts(rt: HostRuntime) -> Result<(), Fail> {
    let mut heap = Heap::new(rt.alloc()).map_err(|_| "no heap")?;
    let word = &text(&mut heap, b"aBc");
    let rows: [(Native, &[u8]); 6] = [
        (Native::StringLower, b"abc"),
        (Native::StringUpper, b"ABC"),
        (Native::StringReverse, b"cBa"),
        (Native::StringRep, b"aBcaBc"),
        (Native::StringSub, b"Bc"),
        (Native::TypeName, b"string"),
    ];
    for (native, wanted) in rows {
        assert!(rt;
            gives_text(rt.alloc(), &mut heap, native, word, 2, 3, wanted),
            "{native:?}"
        );
    }
    Ok(())
}

// A table whose field is set to 5, read and walked.
#[test]
fn tables(rt: HostRuntime) -> Result<(), Fail> {
    let mut heap = Heap::new(rt.alloc()).map_err(|_| "no heap")?;
    let table = &Value::Table(heap.new_table().map_err(|_| "no table")?);
    let nil = &Value::Nil;
    let zero = &num(0);
    let one = &num(1);
    let five = &num(5);
    let walk = &Value::Native(Native::IpairsWalk);
    let next = &Value::Native(Native::Next);
    let rows: [(Native, &Value, &[Value]); 12] = [
        (Native::RawGet, one, &[Value::Nil]),
        (Native::Next, nil, &[Value::Nil]),
        (Native::IpairsWalk, zero, &[]),
        (Native::RawSet, one, &[*table]),
        (Native::RawGet, one, &[*five]),
        (Native::Next, nil, &[*one, *five]),
        (Native::Next, one, &[Value::Nil]),
        (Native::IpairsWalk, zero, &[*one, *five]),
        (Native::Ipairs, one, &[*walk, *table, *zero]),
        (Native::Pairs, one, &[*next, *table, Value::Nil]),
        (Native::RawEqual, table, &[Value::Bool(true)]),
        (Native::LoveEventPump, one, &[]),
    ];
    for (native, key, wanted) in rows {
        assert!(rt;
            gives(rt.alloc(), &mut heap, native, table, key, five, wanted),
            "{native:?}"
        );
    }
    Ok(())
}

#[test]
fn data(rt: HostRuntime) -> Result<(), Fail> {
    let mut heap = Heap::new(rt.alloc()).map_err(|_| "no heap")?;
    let content = Data::new(rt.alloc(), b"abc", None).map_err(|_| "no data")?;
    let data = &Value::Data(heap.add_data(content).map_err(|_| "no data")?);
    let name = &text(&mut heap, b"Data");
    let abc = &text(&mut heap, b"abc");
    let own = &text(&mut heap, b"ByteData");
    let rows: [(Native, &Value); 4] = [
        (Native::DataGetSize, &num(3)),
        (Native::DataGetString, abc),
        (Native::ObjectType, own),
        (Native::ObjectTypeOf, &Value::Bool(true)),
    ];
    for (native, wanted) in rows {
        assert!(rt;
            gives(rt.alloc(), &mut heap, native, data, name, name, &[*wanted]),
            "{native:?}"
        );
    }
    Ok(())
}

// A function, two arguments behind 2, and what it gives.
#[test]
fn tuples(rt: HostRuntime) -> Result<(), Fail> {
    let mut heap = Heap::new(rt.alloc()).map_err(|_| "no heap")?;
    let mark = &text(&mut heap, b"#");
    let digits = &text(&mut heap, b"ff");
    let word = &text(&mut heap, b"hello");
    let ell = &text(&mut heap, b"l");
    let letters = &text(&mut heap, b"abc");
    let rows: [(Native, &Value, &Value, &Value, &[Value]); 9] = [
        (
            Native::Assert,
            &num(1),
            &num(2),
            &num(3),
            &[num(1), num(2), num(3)],
        ),
        (Native::Select, &num(2), &num(5), &num(6), &[num(6)]),
        (
            Native::Select,
            &num(-2),
            &num(5),
            &num(6),
            &[num(5), num(6)],
        ),
        (Native::Select, mark, &num(5), &num(6), &[num(2)]),
        (Native::ToNumber, digits, &num(16), &num(0), &[num(255)]),
        (Native::ToNumber, digits, &num(10), &num(0), &[Value::Nil]),
        (
            Native::StringByte,
            word,
            &num(1),
            &num(2),
            &[num(104), num(101)],
        ),
        (
            Native::StringChar,
            &num(97),
            &num(98),
            &num(99),
            &[*letters],
        ),
        (Native::StringFind, word, ell, &num(4), &[num(4), num(4)]),
    ];
    for (native, a, b, c, wanted) in rows {
        assert!(rt;
            gives(rt.alloc(), &mut heap, native, a, b, c, wanted),
            "{native:?}"
        );
    }
    Ok(())
}

// A table's metatable, before it is set and then.
#[test]
fn metatables(rt: HostRuntime) -> Result<(), Fail> {
    let mut heap = Heap::new(rt.alloc()).map_err(|_| "no heap")?;
    let table = &Value::Table(heap.new_table().map_err(|_| "no table")?);
    let meta = &Value::Table(heap.new_table().map_err(|_| "no table")?);
    let rows: [(Native, &Value); 3] = [
        (Native::GetMetatable, &Value::Nil),
        (Native::SetMetatable, table),
        (Native::GetMetatable, meta),
    ];
    for (native, wanted) in rows {
        assert!(rt;
            gives(rt.alloc(), &mut heap, native, table, meta, meta, &[*wanted]),
            "{native:?}"
        );
    }
    Ok(())
}

// Items that are put, moved, read, joined and taken.
#[test]
fn items(rt: HostRuntime) -> Result<(), Fail> {
    let mut heap = Heap::new(rt.alloc()).map_err(|_| "no heap")?;
    let table = &Value::Table(heap.new_table().map_err(|_| "no table")?);
    let comma = &text(&mut heap, b",");
    let joined = &text(&mut heap, b"8,7");
    let one = &num(1);
    let two = &num(2);
    let rows: [(Native, &Value, &Value, &[Value]); 5] = [
        (Native::TableInsert, one, &num(7), &[]),
        (Native::TableInsert, one, &num(8), &[]),
        (Native::Unpack, one, two, &[num(8), num(7)]),
        (Native::TableConcat, comma, one, &[*joined]),
        (Native::TableRemove, one, one, &[num(8)]),
    ];
    for (native, a, b, wanted) in rows {
        assert!(rt;
            gives(rt.alloc(), &mut heap, native, table, a, b, wanted),
            "{native:?}"
        );
    }
    Ok(())
}

// A field for nil, a key that was never set, an argument of the wrong type, a function of the
// machine.
#[test]
fn faults(rt: HostRuntime) -> Result<(), Fail> {
    let mut heap = Heap::new(rt.alloc()).map_err(|_| "no heap")?;
    let table = &Value::Table(heap.new_table().map_err(|_| "no table")?);
    let nil = &Value::Nil;
    let one = &num(1);
    let rows: [(Native, &Value, LibFault); 4] = [
        (
            Native::RawSet,
            nil,
            LibFault::Fails(Cause::By(Fault::KeyIsNil)),
        ),
        (
            Native::Next,
            one,
            LibFault::Fails(Cause::By(Fault::NoSuchKey)),
        ),
        (
            Native::MathAbs,
            one,
            LibFault::Fails(Cause::Wants(0, Expected::Number, *table)),
        ),
        (Native::Print, one, LibFault::Elsewhere),
    ];
    for (native, key, wanted) in rows {
        let found = given(rt.alloc(), &mut heap, native, table, key, one);
        assert!(rt; found == Err(wanted), "{native:?}");
    }
    Ok(())
}

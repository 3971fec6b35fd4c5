use lua_heap::{Heap, Value};
use lua_lib::call::{Cause, basic, math, strings};
use lua_value::Num;
use std::alloc::Global;
use std::test::Fail;

// A number of a row.
fn num(n: i64) -> Value {
    match Num::new(n) {
        Some(n) => Value::Num(n),
        None => Value::Nil,
    }
}

fn text(heap: &mut Heap, bytes: &[u8]) -> Value {
    match heap.intern(bytes) {
        Ok(id) => Value::Str(id),
        Err(_) => Value::Nil,
    }
}

// What a function of two numbers gives; 0 where it gives nothing.
fn number(heap: &Heap, name: &[u8], a: &Value, b: &Value) -> i64 {
    if !heap.is_made(*a) || !heap.is_made(*b) {
        return 0;
    }
    let args = [*a, *b];
    let result = match name {
        b"abs" => math::abs(heap, &args),
        b"ceil" => math::whole(heap, &args),
        b"max" => math::max(heap, &args),
        b"min" => math::min(heap, &args),
        b"pow" => math::pow(heap, &args),
        b"fmod" => math::fmod(heap, &args),
        _ => strings::len(heap, &args),
    };
    match result {
        Ok(n) => n.get(),
        Err(_) => 0,
    }
}

#[test]
fn numbers(rt: HostRuntime) -> Result<(), Fail> {
    let mut heap = Heap::new(rt.alloc()).map_err(|_| "no heap")?;
    let seven = &text(&mut heap, b" 0x7 ");
    let two = &num(2);
    assert_eq!(rt; number(&heap, b"abs", seven, two), 7);
    assert_eq!(rt; number(&heap, b"ceil", seven, two), 7);
    assert_eq!(rt; number(&heap, b"max", two, seven), 7);
    assert_eq!(rt; number(&heap, b"min", seven, two), 2);
    assert_eq!(rt; number(&heap, b"pow", seven, two), 49);
    assert_eq!(rt; number(&heap, b"fmod", seven, two), 1);
    assert_eq!(rt; number(&heap, b"len", seven, two), 5);
    assert_eq!(rt; number(&heap, b"max", two, &Value::Nil), 0);
    Ok(())
}

// What a function of a text and two numbers gives; nothing where it gives none.
fn made(alloc: Global, heap: &Heap, name: &[u8], a: &Value, b: &Value) -> Result<Vec<u8>, Cause> {
    if !heap.is_made(*a) || !heap.is_made(*b) {
        return Ok(Vec::new(alloc));
    }
    let args = [*a, *b];
    match name {
        b"lower" => strings::lower(alloc, heap, &args),
        b"upper" => strings::upper(alloc, heap, &args),
        b"reverse" => strings::reverse(alloc, heap, &args),
        b"rep" => strings::rep(alloc, heap, &args),
        _ => strings::sub(alloc, heap, &args),
    }
}

// Whether a function makes this text of a text and two numbers.
fn makes(alloc: Global, heap: &Heap, name: &[u8], a: &Value, b: &Value, wanted: &[u8]) -> bool {
    match made(alloc, heap, name, a, b) {
        Ok(found) => found.as_slice() == wanted,
        Err(_) => false,
    }
}

#[test]
fn texts(rt: HostRuntime) -> Result<(), Fail> {
    let mut heap = Heap::new(rt.alloc()).map_err(|_| "no heap")?;
    let word = &text(&mut heap, b"aBc");
    let two = &num(2);
    let rows: [(&[u8], &[u8]); 5] = [
        (b"lower", b"abc"),
        (b"upper", b"ABC"),
        (b"reverse", b"cBa"),
        (b"rep", b"aBcaBc"),
        (b"sub", b"Bc"),
    ];
    for (name, wanted) in rows {
        assert!(rt;
            makes(rt.alloc(), &heap, name, word, two, wanted),
            "{name:?}"
        );
    }
    Ok(())
}

// Whether `pairs` and `ipairs` give the value itself, and `rawequal` knows it.
fn is_walked(heap: &Heap, base: &Value) -> bool {
    let Value::Table(id) = *base else {
        return false;
    };
    if !heap.is_made(*base) {
        return false;
    }
    let args = [*base, *base];
    basic::pairs(heap, &args) == Ok(id)
        && basic::ipairs(heap, &args) == Ok(id)
        && basic::rawequal(heap, &args)
}

#[test]
fn tables(rt: HostRuntime) -> Result<(), Fail> {
    let mut heap = Heap::new(rt.alloc()).map_err(|_| "no heap")?;
    let id = heap.new_table().map_err(|_| "no table")?;
    let table = &Value::Table(id);
    assert!(rt; is_walked(&heap, table));
    assert!(rt; !is_walked(&heap, &num(1)));
    assert_eq!(rt; basic::type_of(&[num(1)]), b"number".as_slice());
    assert_eq!(rt; basic::type_of(&[]), b"nil".as_slice());
    Ok(())
}

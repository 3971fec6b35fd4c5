//! Rows of operators, with what the reference program gives but where docs/LANGUAGE.md has another
//! rule.

use crate::asked::{field_of, number, of_one, of_two, table, text};
use love_base::Memory;
use lua_heap::{Heap, Native, Value};
use lua_operators::{Doing, Fault, TypeName};
use lua_tree::{BinOp, UnOp};

#[test]
fn arithmetic_of_numbers(rt: HostRuntime) -> Result<(), Memory> {
    let mut heap = Heap::new(rt.alloc())?;
    for (op, a, b, doing) in [
        (BinOp::Add, 1, 2, Doing::Gives(number(3))),
        (BinOp::Sub, 1, 2, Doing::Gives(number(-1))),
        (BinOp::Mul, -3, 4, Doing::Gives(number(-12))),
        (BinOp::Div, 6, -3, Doing::Gives(number(-2))),
        (BinOp::Div, 7, 2, Doing::Fails(Fault::NotWhole)),
        (BinOp::Div, 1, 0, Doing::Fails(Fault::NotWhole)),
        (BinOp::Mod, -5, 3, Doing::Gives(number(1))),
        (BinOp::Mod, 5, -3, Doing::Gives(number(-1))),
        (BinOp::Pow, 2, 10, Doing::Gives(number(1024))),
        (BinOp::Pow, 2, -1, Doing::Fails(Fault::NotWhole)),
        (
            BinOp::Add,
            99_999_999_999_999,
            1,
            Doing::Fails(Fault::OutOfRange),
        ),
        (BinOp::And, 1, 2, Doing::Gives(number(2))),
        (BinOp::Or, 1, 2, Doing::Gives(number(2))),
    ] {
        let found = of_two(rt.alloc(), &mut heap, op, &number(a), &number(b))?;
        assert!(rt; found == doing);
    }
    Ok(())
}

// Strings that read as numbers are numbers; of two bad operands the first one is named.
#[test]
fn arithmetic_of_other_values(rt: HostRuntime) -> Result<(), Memory> {
    let mut heap = Heap::new(rt.alloc())?;
    let ten = &text(&mut heap, b" 0xA ");
    let word = &text(&mut heap, b"ten");
    let items = &table(&mut heap);
    let one = &number(1);
    let nil = &Value::Nil;
    let flag = &Value::Bool(true);
    let print = &Value::Native(Native::Print);
    for (a, b, doing) in [
        (ten, one, Doing::Gives(number(11))),
        (one, ten, Doing::Gives(number(11))),
        (word, one, Doing::Fails(Fault::Arithmetic(TypeName::String))),
        (one, nil, Doing::Fails(Fault::Arithmetic(TypeName::Nil))),
        (items, nil, Doing::Fails(Fault::Arithmetic(TypeName::Table))),
        (nil, items, Doing::Fails(Fault::Arithmetic(TypeName::Nil))),
        (
            one,
            flag,
            Doing::Fails(Fault::Arithmetic(TypeName::Boolean)),
        ),
        (
            print,
            one,
            Doing::Fails(Fault::Arithmetic(TypeName::Function)),
        ),
        (
            &Value::Thread(1),
            one,
            Doing::Fails(Fault::Arithmetic(TypeName::Userdata)),
        ),
    ] {
        let found = of_two(rt.alloc(), &mut heap, BinOp::Add, a, b)?;
        assert!(rt; found == doing);
    }
    Ok(())
}

#[test]
fn concatenation(rt: HostRuntime) -> Result<(), Memory> {
    let mut heap = Heap::new(rt.alloc())?;
    let a = &text(&mut heap, b"a\0");
    let empty = &text(&mut heap, b"");
    let joined = &text(&mut heap, b"a\0a\0");
    let behind = &text(&mut heap, b"a\0-12");
    let digits = &text(&mut heap, b"12-12");
    let items = &table(&mut heap);
    let twelve = &number(12);
    let minus = &number(-12);
    let nil = &Value::Nil;
    for (left, right, doing) in [
        (a, a, Doing::Gives(*joined)),
        (empty, a, Doing::Gives(*a)),
        (a, minus, Doing::Gives(*behind)),
        (twelve, minus, Doing::Gives(*digits)),
        (a, nil, Doing::Fails(Fault::Concatenate(TypeName::Nil))),
        (
            items,
            nil,
            Doing::Fails(Fault::Concatenate(TypeName::Table)),
        ),
        (nil, a, Doing::Fails(Fault::Concatenate(TypeName::Nil))),
    ] {
        let found = of_two(rt.alloc(), &mut heap, BinOp::Concat, left, right)?;
        assert!(rt; found == doing);
    }
    Ok(())
}

// A string of 16,777,216 bytes is the longest one.
#[test]
fn the_longest_string(rt: HostRuntime) -> Result<(), Memory> {
    let mut heap = Heap::new(rt.alloc())?;
    let mut bytes = Vec::new(rt.alloc());
    bytes.resize(8_388_608, b'x')?;
    let half = &text(&mut heap, bytes.as_slice());
    let whole = of_two(rt.alloc(), &mut heap, BinOp::Concat, half, half)?;
    let Doing::Gives(whole) = whole else {
        assert!(rt; false);
        return Ok(());
    };
    let size = of_one(&mut heap, UnOp::Length, &whole)?;
    assert!(rt; size == Doing::Gives(number(16_777_216)));
    let one = &number(1);
    let longer = of_two(rt.alloc(), &mut heap, BinOp::Concat, &whole, one)?;
    assert!(rt; longer == Doing::Fails(Fault::StringTooLong));
    Ok(())
}

#[test]
fn order(rt: HostRuntime) -> Result<(), Memory> {
    let mut heap = Heap::new(rt.alloc())?;
    let a = &text(&mut heap, b"a");
    let longer = &text(&mut heap, b"a\0");
    let capital = &text(&mut heap, b"Z");
    let one = &number(1);
    let two = &number(2);
    for (op, left, right, wanted) in [
        (BinOp::Less, one, two, true),
        (BinOp::Less, one, one, false),
        (BinOp::LessEqual, one, one, true),
        (BinOp::Greater, one, two, false),
        (BinOp::GreaterEqual, two, one, true),
        (BinOp::Less, capital, a, true),
        (BinOp::Less, a, longer, true),
        (BinOp::Less, a, a, false),
        (BinOp::LessEqual, a, a, true),
        (BinOp::LessEqual, longer, a, false),
        (BinOp::Greater, longer, a, true),
        (BinOp::GreaterEqual, a, longer, false),
    ] {
        let found = of_two(rt.alloc(), &mut heap, op, left, right)?;
        assert!(rt; found == Doing::Gives(Value::Bool(wanted)));
    }
    Ok(())
}

// Values of two types, and of a type without an order.
#[test]
fn no_order(rt: HostRuntime) -> Result<(), Memory> {
    let mut heap = Heap::new(rt.alloc())?;
    let one = &number(1);
    let digit = &text(&mut heap, b"1");
    let items = &table(&mut heap);
    let nil = &Value::Nil;
    for (op, a, b, left, right) in [
        (BinOp::Less, one, digit, TypeName::Number, TypeName::String),
        (
            BinOp::Greater,
            one,
            digit,
            TypeName::String,
            TypeName::Number,
        ),
        (BinOp::LessEqual, nil, nil, TypeName::Nil, TypeName::Nil),
        (
            BinOp::GreaterEqual,
            nil,
            items,
            TypeName::Table,
            TypeName::Nil,
        ),
        (BinOp::Less, items, items, TypeName::Table, TypeName::Table),
    ] {
        let found = of_two(rt.alloc(), &mut heap, op, a, b)?;
        assert!(rt; found == Doing::Fails(Fault::Compare(left, right)));
    }
    Ok(())
}

#[test]
fn equality(rt: HostRuntime) -> Result<(), Memory> {
    let mut heap = Heap::new(rt.alloc())?;
    let digit = &text(&mut heap, b"1");
    let again = &text(&mut heap, b"1");
    let items = &table(&mut heap);
    let others = &table(&mut heap);
    let one = &number(1);
    let nil = &Value::Nil;
    let no = &Value::Bool(false);
    for (a, b, is_equal) in [
        (one, digit, false),
        (digit, again, true),
        (items, items, true),
        (items, others, false),
        (nil, no, false),
        (nil, nil, true),
    ] {
        let found = of_two(rt.alloc(), &mut heap, BinOp::Equal, a, b)?;
        assert!(rt; found == Doing::Gives(Value::Bool(is_equal)));
        let found = of_two(rt.alloc(), &mut heap, BinOp::NotEqual, a, b)?;
        assert!(rt; found == Doing::Gives(Value::Bool(!is_equal)));
    }
    Ok(())
}

#[test]
fn unary_operators(rt: HostRuntime) -> Result<(), Memory> {
    let mut heap = Heap::new(rt.alloc())?;
    let five = &text(&mut heap, b"5");
    let items = &table(&mut heap);
    let zero = &number(0);
    let nil = &Value::Nil;
    for (op, value, doing) in [
        (UnOp::Not, nil, Doing::Gives(Value::Bool(true))),
        (UnOp::Not, zero, Doing::Gives(Value::Bool(false))),
        (UnOp::Minus, five, Doing::Gives(number(-5))),
        (UnOp::Minus, zero, Doing::Gives(number(0))),
        (
            UnOp::Minus,
            items,
            Doing::Fails(Fault::Arithmetic(TypeName::Table)),
        ),
        (UnOp::Length, five, Doing::Gives(number(1))),
        (UnOp::Length, items, Doing::Gives(number(0))),
        (
            UnOp::Length,
            zero,
            Doing::Fails(Fault::Length(TypeName::Number)),
        ),
    ] {
        let found = of_one(&mut heap, op, value)?;
        assert!(rt; found == doing);
    }
    Ok(())
}

#[test]
fn fields(rt: HostRuntime) -> Result<(), Memory> {
    let mut heap = Heap::new(rt.alloc())?;
    let rep = &text(&mut heap, b"rep");
    let items = &table(&mut heap);
    let nil = &Value::Nil;
    for (base, doing) in [
        (rep, Doing::Gives(Value::Native(Native::StringRep))),
        (items, Doing::Gives(Value::Nil)),
        (nil, Doing::Fails(Fault::Index(TypeName::Nil))),
    ] {
        assert!(rt; field_of(&heap, base, rep)? == doing);
    }
    Ok(())
}

#[test]
fn texts_of_faults(rt: HostRuntime) -> Result<(), Memory> {
    let number = TypeName::Number;
    for (fault, text) in [
        (
            Fault::Arithmetic(TypeName::Nil),
            b"attempt to perform arithmetic on a nil value".as_slice(),
        ),
        (Fault::NotWhole, b"number has no whole value"),
        (Fault::OutOfRange, b"number out of range"),
        (
            Fault::Concatenate(TypeName::Table),
            b"attempt to concatenate a table value",
        ),
        (Fault::StringTooLong, b"string too long"),
        (
            Fault::Length(TypeName::Boolean),
            b"attempt to get length of a boolean value",
        ),
        (
            Fault::Compare(number, TypeName::String),
            b"attempt to compare number with string",
        ),
        (
            Fault::Compare(number, number),
            b"attempt to compare two number values",
        ),
        (
            Fault::Index(TypeName::Userdata),
            b"attempt to index a userdata value",
        ),
        (Fault::IndexLoop, b"index loop"),
    ] {
        let mut buffer = Vec::new(rt.alloc());
        fault.put_text(&mut buffer)?;
        assert_eq!(rt; buffer.as_slice(), text);
    }
    Ok(())
}

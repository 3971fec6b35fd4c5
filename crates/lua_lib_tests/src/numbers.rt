use lua_lib::{Fault, basic, math};
use lua_value::Num;
use std::test::Fail;

const GREATEST: i64 = 99_999_999_999_999;

// A number of a row.
fn num(n: i64) -> Result<Num, Fail> {
    Ok(Num::new(n).ok_or("out of range")?)
}

#[test]
fn sizes(rt: HostRuntime) -> Result<(), Fail> {
    for (x, size) in [(0, 0), (7, 7), (-7, 7), (-GREATEST, GREATEST)] {
        assert_eq!(rt; math::abs(num(x)?).get(), size);
        assert_eq!(rt; math::whole(num(x)?).get(), x);
    }
    Ok(())
}

#[test]
fn greatest_and_least(rt: HostRuntime) -> Result<(), Fail> {
    let rows = [
        (1, 2, 1, 2),
        (2, 1, 1, 2),
        (-1, -2, -2, -1),
        (-1, 0, -1, 0),
        (3, 3, 3, 3),
        (-GREATEST, GREATEST, -GREATEST, GREATEST),
    ];
    for (x, y, less, greater) in rows {
        assert_eq!(rt; math::min(num(x)?, num(y)?).get(), less);
        assert_eq!(rt; math::max(num(x)?, num(y)?).get(), greater);
    }
    Ok(())
}

#[test]
fn powers(rt: HostRuntime) -> Result<(), Fail> {
    let rows = [
        (2, 10, Ok(1024)),
        (0, 0, Ok(1)),
        (-3, 3, Ok(-27)),
        (1, GREATEST, Ok(1)),
        (2, -1, Err(Fault::NotWhole)),
        (10, 14, Err(Fault::OutOfRange)),
    ];
    for (x, y, power) in rows {
        let found = math::pow(num(x)?, num(y)?).map(|n| n.get());
        assert_eq!(rt; found, power, "{x}^{y}");
    }
    Ok(())
}

#[test]
fn remainders(rt: HostRuntime) -> Result<(), Fail> {
    let rows = [
        (7, 3, Ok(1)),
        (-7, 3, Ok(-1)),
        (7, -3, Ok(1)),
        (-7, -3, Ok(-1)),
        (0, 5, Ok(0)),
        (6, 3, Ok(0)),
        (-6, 3, Ok(0)),
        (5, GREATEST, Ok(5)),
        (-GREATEST, 10, Ok(-9)),
        (5, 0, Err(Fault::NotWhole)),
    ];
    for (a, b, rest) in rows {
        let found = math::fmod(num(a)?, num(b)?).map(|n| n.get());
        assert_eq!(rt; found, rest, "{a}, {b}");
    }
    Ok(())
}

#[test]
fn selections(rt: HostRuntime) -> Result<(), Fail> {
    let nothing: &[u8] = b"";
    let rows = [
        (1, Ok(b"abc".as_slice())),
        (2, Ok(b"bc".as_slice())),
        (4, Ok(nothing)),
        (GREATEST, Ok(nothing)),
        (-1, Ok(b"c".as_slice())),
        (-3, Ok(b"abc".as_slice())),
        (0, Err(Fault::IndexOutOfRange)),
        (-4, Err(Fault::IndexOutOfRange)),
        (-GREATEST, Err(Fault::IndexOutOfRange)),
    ];
    for (n, selected) in rows {
        assert_eq!(rt; basic::select(num(n)?, b"abc".as_slice()), selected, "{n}");
    }
    Ok(())
}

#[test]
fn texts_as_numbers(rt: HostRuntime) -> Result<(), Fail> {
    let rows: [(&[u8], i64, Result<Option<i64>, Fault>); 23] = [
        (b" 0x10 ", 10, Ok(Some(16))),
        (b"1e3", 10, Ok(Some(1000))),
        (b"1 1", 10, Ok(None)),
        (b"zz", 36, Ok(Some(1295))),
        (b"ZZ", 36, Ok(Some(1295))),
        (b" 10 ", 2, Ok(Some(2))),
        (b" \t\n1\x0b\x0c\r", 3, Ok(Some(1))),
        (b"1010", 2, Ok(Some(10))),
        (b"12", 2, Ok(None)),
        (b"9", 9, Ok(None)),
        (b"8", 9, Ok(Some(8))),
        (b"5A", 11, Ok(Some(65))),
        (b"ff", 16, Ok(Some(255))),
        (b"", 16, Ok(None)),
        (b"  ", 16, Ok(None)),
        (b"1 1", 16, Ok(None)),
        (b"1.0", 16, Ok(None)),
        (b"-1", 16, Ok(None)),
        (b"5AF3107A3FFF", 16, Ok(Some(GREATEST))),
        (b"5AF3107A4000", 16, Ok(None)),
        (b"zzzzzzzzzzzzzzzzzzzzzzzzzzzz", 36, Ok(None)),
        (b"1", 1, Err(Fault::BaseOutOfRange)),
        (b"1", 37, Err(Fault::BaseOutOfRange)),
    ];
    for (text, base, number) in rows {
        let found = basic::tonumber(text, num(base)?).map(|n| n.map(|n| n.get()));
        assert_eq!(rt; found, number, "{text:?}");
    }
    Ok(())
}

#[test]
fn counts(rt: HostRuntime) -> Result<(), Fail> {
    let rows = [
        (1, 0, Ok(0)),
        (1, 3, Ok(3)),
        (-1, 1, Ok(3)),
        (GREATEST, -GREATEST, Ok(0)),
        (1, 1_000_000, Ok(1_000_000)),
        (0, 1_000_000, Err(Fault::TooManyValues)),
        (-GREATEST, GREATEST, Err(Fault::TooManyValues)),
    ];
    for (i, j, count) in rows {
        assert_eq!(rt; basic::unpacked(num(i)?, num(j)?), count, "{i}, {j}");
    }
    Ok(())
}

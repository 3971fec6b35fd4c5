//! Values from the manual's rules and worked out by hand.

use crate::{Num, NumFault, NumeralFault};
use itoa::Buffer;
use std::test::Fail;

#[test]
fn numerals(rt: HostRuntime) {
    let malformed = Err(NumeralFault::Malformed);
    let not_whole = Err(NumeralFault::NotWhole);
    let rows: [(&[u8], Result<i64, NumeralFault>); 48] = [
        (b"7", Ok(7)),
        (b"007", Ok(7)),
        (b"99999999999999", Ok(99_999_999_999_999)),
        (b"100000000000000", not_whole),
        (b"000000000000000000000000000000000000001", Ok(1)),
        (b"99999999999999999999999999999999999999", not_whole),
        (b"0x1F", Ok(31)),
        (b"0XaBcDeF", Ok(11_259_375)),
        (b"0x5AF3107A3FFF", Ok(99_999_999_999_999)),
        (b"0x5AF3107A4000", not_whole),
        (b"0xffffffffffffffffffffffffffff", not_whole),
        (b"0x00000000000000000000000000000001", Ok(1)),
        (b"0x1e3", Ok(483)),
        (b"5.", Ok(5)),
        (b".5", not_whole),
        (b".0", Ok(0)),
        (b"1.5", not_whole),
        (b"1.0", Ok(1)),
        (b"1.5e1", Ok(15)),
        (b"15e-1", not_whole),
        (b"100e-2", Ok(1)),
        (b"100e-3", not_whole),
        (b"1e3", Ok(1000)),
        (b"1E+3", Ok(1000)),
        (b"1e13", Ok(10_000_000_000_000)),
        (b"1e14", not_whole),
        (b"99999999999999e0", Ok(99_999_999_999_999)),
        (b".99999999999999e14", Ok(99_999_999_999_999)),
        (b"0.00000000000000000001e20", Ok(1)),
        (b"1e400", not_whole),
        (b"1e-400", not_whole),
        (b"0e99999999999999999999", Ok(0)),
        (b"0.000e-99999999999999999999", Ok(0)),
        (b"1e99999999999999999999", not_whole),
        (b"1e-99999999999999999999", not_whole),
        (b"1e00000000000000000000000002", Ok(100)),
        (b"", malformed),
        (b".", malformed),
        (b"0x", malformed),
        (b"0xg", malformed),
        (b"0x1.0", malformed),
        (b"0xep1", malformed),
        (b"1e", malformed),
        (b"1e+", malformed),
        (b"e1", malformed),
        (b".e1", malformed),
        (b"3..2", malformed),
        (b"3x", malformed),
    ];
    for (text, value) in rows {
        let read = Num::numeral(text).map(|n| n.get());
        assert_eq!(rt; read, value, "{text:?}");
    }
}

#[test]
fn texts(rt: HostRuntime) -> Result<(), Fail> {
    let rows = [
        (0, "0"),
        (7, "7"),
        (-7, "-7"),
        (99_999_999_999_999, "99999999999999"),
        (-99_999_999_999_999, "-99999999999999"),
    ];
    let mut buffer = Buffer::new();
    for (number, text) in rows {
        let shown = Num::new(number).ok_or("out of range")?;
        assert_eq!(rt; shown.text(&mut buffer), text);
    }
    assert_eq!(rt; Num::new(100_000_000_000_000), None);
    assert_eq!(rt; Num::new(-100_000_000_000_000), None);
    assert_eq!(rt; Num::new(i64::MIN), None);
    Ok(())
}

const GREATEST: i64 = 99_999_999_999_999;

fn apply(operator: char, a: Num, b: Num) -> Result<Num, NumFault> {
    match operator {
        '+' => a.add(b),
        '-' => a.sub(b),
        '*' => a.mul(b),
        '/' => a.div(b),
        '%' => a.rem(b),
        _ => a.pow(b),
    }
}

#[test]
fn operations(rt: HostRuntime) -> Result<(), Fail> {
    let not_whole = Err(NumFault::NotWhole);
    let out_of_range = Err(NumFault::OutOfRange);
    let rows = [
        ('+', GREATEST, 0, Ok(GREATEST)),
        ('+', GREATEST, 1, out_of_range),
        ('+', -GREATEST, -1, out_of_range),
        ('+', GREATEST, -GREATEST, Ok(0)),
        ('-', -GREATEST, 0, Ok(-GREATEST)),
        ('-', -GREATEST, 1, out_of_range),
        ('-', GREATEST, -1, out_of_range),
        ('-', GREATEST, GREATEST, Ok(0)),
        ('*', 10_000_000, 9_999_999, Ok(99_999_990_000_000)),
        ('*', 10_000_000, 10_000_000, out_of_range),
        ('*', GREATEST, GREATEST, out_of_range),
        ('*', GREATEST, -GREATEST, out_of_range),
        ('*', GREATEST, -1, Ok(-GREATEST)),
        ('*', 0, -GREATEST, Ok(0)),
        ('/', 6, 3, Ok(2)),
        ('/', -6, 3, Ok(-2)),
        ('/', 6, -3, Ok(-2)),
        ('/', -6, -3, Ok(2)),
        ('/', 7, 2, not_whole),
        ('/', -7, 2, not_whole),
        ('/', 0, 5, Ok(0)),
        ('/', 5, 0, not_whole),
        ('/', 0, 0, not_whole),
        ('/', GREATEST, -1, Ok(-GREATEST)),
        ('%', 7, 3, Ok(1)),
        ('%', -7, 3, Ok(2)),
        ('%', 7, -3, Ok(-2)),
        ('%', -7, -3, Ok(-1)),
        ('%', 6, -3, Ok(0)),
        ('%', -6, 3, Ok(0)),
        ('%', 5, 0, not_whole),
        ('%', -1, GREATEST, Ok(99_999_999_999_998)),
        ('%', 1, -GREATEST, Ok(-99_999_999_999_998)),
        ('%', GREATEST, -1, Ok(0)),
        ('^', 2, 46, Ok(70_368_744_177_664)),
        ('^', 2, 47, out_of_range),
        ('^', -2, 45, Ok(-35_184_372_088_832)),
        ('^', -2, 46, Ok(70_368_744_177_664)),
        ('^', -2, 47, out_of_range),
        ('^', 10, 13, Ok(10_000_000_000_000)),
        ('^', 10, 14, out_of_range),
        ('^', -10, 13, Ok(-10_000_000_000_000)),
        ('^', 0, 0, Ok(1)),
        ('^', 7, 0, Ok(1)),
        ('^', 0, GREATEST, Ok(0)),
        ('^', 1, GREATEST, Ok(1)),
        ('^', -1, GREATEST, Ok(-1)),
        ('^', -1, 99_999_999_999_998, Ok(1)),
        ('^', 2, GREATEST, out_of_range),
        ('^', GREATEST, GREATEST, out_of_range),
        ('^', GREATEST, 1, Ok(GREATEST)),
        ('^', 1, -1, not_whole),
        ('^', 0, -1, not_whole),
    ];
    for (operator, a, b, value) in rows {
        let a = Num::new(a).ok_or("out of range")?;
        let b = Num::new(b).ok_or("out of range")?;
        let answer = apply(operator, a, b).map(|n| n.get());
        assert_eq!(rt; answer, value, "{a:?} {operator} {b:?}");
    }
    for (number, negative) in [(5, -5), (-5, 5), (0, 0), (GREATEST, -GREATEST)] {
        assert_eq!(rt;
            Num::new(number).ok_or("out of range")?.neg().get(),
            negative
        );
    }
    Ok(())
}

#[test]
fn number_texts(rt: HostRuntime) {
    let rows: [(&[u8], Option<i64>); 34] = [
        (b"7", Some(7)),
        (b" 0x10 ", Some(16)),
        (b"-0x10", Some(-16)),
        (b"1e3", Some(1000)),
        (b"-1.50e1", Some(-15)),
        (b"-0", Some(0)),
        (b"+5", Some(5)),
        (b"99999999999999", Some(GREATEST)),
        (b"-99999999999999", Some(-GREATEST)),
        (b" 7", Some(7)),
        (b"\t7", Some(7)),
        (b"\n7", Some(7)),
        (b"\x0b7", Some(7)),
        (b"\x0c7", Some(7)),
        (b"\r7", Some(7)),
        (b"7 \t\n\x0b\x0c\r", Some(7)),
        (b"", None),
        (b" ", None),
        (b"-", None),
        (b"+", None),
        (b"- 5", None),
        (b"--5", None),
        (b"+-5", None),
        (b"5 5", None),
        (b"5 -", None),
        (b"5x", None),
        (b"0x", None),
        (b"1.5", None),
        (b"100000000000000", None),
        (b"-100000000000000", None),
        (b"\x005", None),
        (b"\x085", None),
        (b"\x0e5", None),
        (b"\xa05", None),
    ];
    for (text, value) in rows {
        assert_eq!(rt; Num::read(text).map(|n| n.get()), value, "{text:?}");
    }
}

#[test]
fn faults(rt: HostRuntime) -> Result<(), Fail> {
    let not_whole = format!(in rt.alloc(); "{}", NumFault::NotWhole)?;
    let malformed = format!(in rt.alloc(); "{}", NumeralFault::Malformed)?;
    assert_eq!(rt; not_whole.as_str(), "the result isn't a whole number");
    assert_eq!(rt; malformed.as_str(), "malformed number");
    assert_eq!(rt; NumFault::OutOfRange as u8, 2);
    assert_eq!(rt; NumeralFault::NotWhole as u8, 2);
    Ok(())
}

#[test]
fn laws() {
    crate::laws::operations_commute();
    crate::laws::quotient_divides();
    crate::laws::remainder_is_left();
    crate::laws::negation_undoes_itself();
    crate::laws::texts_have_one_value();
}

use lua_lib::{Fault, strings};
use lua_value::Num;
use std::test::Fail;

const GREATEST: i64 = 99_999_999_999_999;

// A number of a row.
fn num(n: i64) -> Result<Num, Fail> {
    Ok(Num::new(n).ok_or("out of range")?)
}

#[test]
fn parts(rt: HostRuntime) -> Result<(), Fail> {
    let rows: [(i64, i64, &[u8]); 9] = [
        (2, 4, b"ell"),
        (-3, -1, b"llo"),
        (0, 99, b"hello"),
        (4, 2, b""),
        (-99, 2, b"he"),
        (5, 5, b"o"),
        (6, 9, b""),
        (GREATEST, -1, b""),
        (-GREATEST, GREATEST, b"hello"),
    ];
    for (i, j, part) in rows {
        assert_eq!(rt; strings::sub(b"hello", num(i)?, num(j)?), part, "{i}, {j}");
    }
    Ok(())
}

#[test]
fn bytes(rt: HostRuntime) -> Result<(), Fail> {
    let rows: [(i64, i64, &[u8]); 7] = [
        (1, 1, b"h"),
        (-1, -1, b"o"),
        (2, 3, b"el"),
        (0, 0, b""),
        (9, 9, b""),
        (-2, 99, b"lo"),
        (GREATEST, GREATEST, b""),
    ];
    for (i, j, part) in rows {
        let found = strings::byte(b"hello", num(i)?, num(j)?);
        assert_eq!(rt; found, Ok(part), "{i}, {j}");
    }
    Ok(())
}

#[test]
fn too_many_bytes(rt: HostRuntime) -> Result<(), Fail> {
    let text = strings::rep(rt.alloc(), b"x", num(1_000_001)?).map_err(|_| "no room")?;
    let found = strings::byte(&text, num(1)?, num(-1)?).map(|part| part.len());
    assert_eq!(rt; found, Err(Fault::TooManyValues));
    let found = strings::byte(&text, num(2)?, num(-1)?).map(|part| part.len());
    assert_eq!(rt; found, Ok(1_000_000));
    Ok(())
}

#[test]
fn codes(rt: HostRuntime) -> Result<(), Fail> {
    let rows = [
        (0, Ok(0)),
        (65, Ok(65)),
        (255, Ok(255)),
        (256, Err(Fault::NoByte(3))),
        (-1, Err(Fault::NoByte(3))),
        (GREATEST, Err(Fault::NoByte(3))),
    ];
    for (code, byte) in rows {
        assert_eq!(rt; strings::char_byte(3, num(code)?), byte, "{code}");
    }
    Ok(())
}

#[test]
fn cases(rt: HostRuntime) -> Result<(), Fail> {
    let alloc = rt.alloc();
    let text = b"aZ9_\xc0z";
    let upper = strings::upper(alloc, text).map_err(|_| "no room")?;
    assert_eq!(rt; upper.as_slice(), b"AZ9_\xc0Z".as_slice());
    let lower = strings::lower(alloc, text).map_err(|_| "no room")?;
    assert_eq!(rt; lower.as_slice(), b"az9_\xc0z".as_slice());
    let back = strings::reverse(alloc, text).map_err(|_| "no room")?;
    assert_eq!(rt; back.as_slice(), b"z\xc0_9Za".as_slice());
    Ok(())
}

#[test]
fn copies(rt: HostRuntime) -> Result<(), Fail> {
    let rows: [(&[u8], i64, Result<usize, Fault>); 7] = [
        (b"ab", 3, Ok(6)),
        (b"ab", 0, Ok(0)),
        (b"ab", -1, Ok(0)),
        (b"", GREATEST, Ok(0)),
        (b"x", 16_777_216, Ok(16_777_216)),
        (b"x", 16_777_217, Err(Fault::StringTooLong)),
        (b"ab", GREATEST, Err(Fault::StringTooLong)),
    ];
    for (text, n, size) in rows {
        let found = strings::rep(rt.alloc(), text, num(n)?).map(|made| made.len());
        assert_eq!(rt; found, size, "{n}");
    }
    let made = strings::rep(rt.alloc(), b"ab", num(3)?).map_err(|_| "no room")?;
    assert_eq!(rt; made.as_slice(), b"ababab".as_slice());
    Ok(())
}

#[test]
fn limits(rt: HostRuntime) -> Result<(), Fail> {
    for (size, is_string) in [(0, true), (16_777_216, true), (16_777_217, false)] {
        let mut text = Vec::new(rt.alloc());
        text.resize(size, b'x')?;
        assert_eq!(rt; strings::string(text).is_ok(), is_string);
    }
    Ok(())
}

#[test]
fn places(rt: HostRuntime) -> Result<(), Fail> {
    let rows: [(&[u8], &[u8], i64, bool, Result<Option<usize>, Fault>); 16] = [
        (b"hello", b"l", 1, true, Ok(Some(3))),
        (b"hello", b"l", 4, true, Ok(Some(4))),
        (b"hello", b"l", 5, true, Ok(None)),
        (b"hello", b"", 1, true, Ok(Some(1))),
        (b"hello", b"", 99, true, Ok(Some(6))),
        (b"hello", b"", -2, true, Ok(Some(4))),
        (b"hello", b"lo", -2, true, Ok(Some(4))),
        (b"hello", b"lo", -99, true, Ok(Some(4))),
        (b"hello", b"o", 0, true, Ok(Some(5))),
        (b"hello", b"hello!", 1, true, Ok(None)),
        (b"", b"", 1, true, Ok(Some(1))),
        (b"", b"a", 1, true, Ok(None)),
        (b"a.b", b".", 1, true, Ok(Some(2))),
        (b"aab", b"ab", 1, false, Ok(Some(2))),
        (b"a.b", b".", 1, false, Err(Fault::PatternsNotAvailable)),
        (b"a", b"%a", 1, false, Err(Fault::PatternsNotAvailable)),
    ];
    for (text, wanted, init, plain, place) in rows {
        let found = strings::find(text, wanted, num(init)?, plain);
        assert_eq!(rt; found, place, "{wanted:?}, {init}");
    }
    Ok(())
}

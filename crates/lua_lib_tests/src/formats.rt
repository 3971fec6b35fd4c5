use lua_lib::Fault;
use lua_lib::format::{Directive, Item, put_hexadecimal, put_padded, put_whole, read_directive};
use lua_value::Num;
use std::alloc::Global;
use std::test::Fail;

// Puts what an item with a letter writes of a number, or of a text.
fn put_item(
    alloc: Global,
    made: &mut Vec<u8>,
    item: Item,
    letter: u8,
    number: Num,
    text: &[u8],
) -> Result<(), Fault> {
    match letter {
        b'd' => put_whole(made, item, number)?,
        b's' => put_padded(made, item, text)?,
        _ => put_hexadecimal(alloc, made, item, letter == b'X', 1, number)?,
    }
    Ok(())
}

// What an item without its `%` writes of a number, or of a text.
fn written(alloc: Global, item: &[u8], number: Num, text: &[u8]) -> Result<Vec<u8>, Fault> {
    let mut made = Vec::new(alloc);
    let directive = match read_directive(item) {
        Ok((directive, _)) => directive,
        Err(fault) => return Err(fault),
    };
    match directive {
        Directive::Percent => made.push(b'%')?,
        Directive::Converts(item, letter) => {
            put_item(alloc, &mut made, item, letter, number, text)?
        }
    }
    Ok(made)
}

#[test]
fn whole_numbers(rt: HostRuntime) -> Result<(), Fail> {
    let rows: [(&[u8], i64, &[u8]); 17] = [
        (b"d", 42, b"42"),
        (b"5d", 42, b"   42"),
        (b"-5d", 42, b"42   "),
        (b"05d", 42, b"00042"),
        (b"05d", -42, b"-0042"),
        (b"-05d", -42, b"-42  "),
        (b"0-5d", 7, b"7    "),
        (b"00005d", 3, b"00003"),
        (b"2d", 12345, b"12345"),
        (b"d", -99_999_999_999_999, b"-99999999999999"),
        (b"%", 0, b"%"),
        (b"x", 255, b"ff"),
        (b"X", 255, b"FF"),
        (b"x", 0, b"0"),
        (b"08x", 48879, b"0000beef"),
        (b"-6x", 10, b"a     "),
        (b"x", 99_999_999_999_999, b"5af3107a3fff"),
    ];
    for (item, n, text) in rows {
        let number = Num::new(n).ok_or("out of range")?;
        let made = written(rt.alloc(), item, number, b"").map_err(|_| "a fault")?;
        assert_eq!(rt; made.as_slice(), text, "{item:?}");
    }
    Ok(())
}

#[test]
fn texts(rt: HostRuntime) -> Result<(), Fail> {
    let rows: [(&[u8], &[u8]); 6] = [
        (b"s", b"ab"),
        (b"5s", b"   ab"),
        (b"-5s", b"ab   "),
        (b"05s", b"   ab"),
        (b"-05s", b"ab   "),
        (b"1s", b"ab"),
    ];
    let number = Num::new(0).ok_or("out of range")?;
    for (item, text) in rows {
        let made = written(rt.alloc(), item, number, b"ab").map_err(|_| "a fault")?;
        assert_eq!(rt; made.as_slice(), text, "{item:?}");
    }
    Ok(())
}

#[test]
fn faults(rt: HostRuntime) -> Result<(), Fail> {
    let number = Num::new(-1).ok_or("out of range")?;
    let rows: [(&[u8], Fault); 4] = [
        (b"x", Fault::Negative(1)),
        (b"", Fault::InvalidFormat),
        (b"05", Fault::InvalidFormat),
        (b"-", Fault::InvalidFormat),
    ];
    for (item, fault) in rows {
        let made = written(rt.alloc(), item, number, b"").map(|made| made.len());
        assert_eq!(rt; made, Err(fault), "{item:?}");
    }
    Ok(())
}

// Whether it is an item with this letter, or for `None` a second `%`.
fn is_letter(directive: Directive, letter: Option<u8>) -> bool {
    match directive {
        Directive::Percent => letter.is_none(),
        Directive::Converts(_, found) => letter == Some(found),
    }
}

// Whether a text is such an item and this rest.
fn has_letter(text: &[u8], letter: Option<u8>, rest: &[u8]) -> bool {
    match read_directive(text) {
        Ok((directive, behind)) => is_letter(directive, letter) && behind == rest,
        Err(_) => false,
    }
}

#[test]
fn letters(rt: HostRuntime) {
    let rows: [(&[u8], Option<u8>, &[u8]); 5] = [
        (b"d!", Some(b'd'), b"!"),
        (b"099x", Some(b'x'), b""),
        (b"100d", Some(b'0'), b"d"),
        (b"5%", Some(b'%'), b""),
        (b"%%", None, b"%"),
    ];
    for (text, letter, rest) in rows {
        assert!(rt; has_letter(text, letter, rest), "{text:?}");
    }
}

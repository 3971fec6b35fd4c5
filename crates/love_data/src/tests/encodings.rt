//! The test vectors of RFC 4648 §10, and texts that no encoding gives.

use crate::{DecodeFault, Format, decode, encode};
use std::test::Fail;

#[test]
fn texts_of_bytes_and_back(rt: HostRuntime) -> Result<(), Fail> {
    let rows: [(Format, &[u8], &[u8]); 16] = [
        (Format::Base64, b"", b""),
        (Format::Base64, b"f", b"Zg=="),
        (Format::Base64, b"fo", b"Zm8="),
        (Format::Base64, b"foo", b"Zm9v"),
        (Format::Base64, b"foob", b"Zm9vYg=="),
        (Format::Base64, b"fooba", b"Zm9vYmE="),
        (Format::Base64, b"foobar", b"Zm9vYmFy"),
        (Format::Base64, b"\xfb\xff\xfe", b"+//+"),
        (Format::Base64, b"\0\0\0", b"AAAA"),
        (Format::Hex, b"", b""),
        (Format::Hex, b"f", b"66"),
        (Format::Hex, b"fo", b"666f"),
        (Format::Hex, b"foob", b"666f6f62"),
        (Format::Hex, b"foobar", b"666f6f626172"),
        (Format::Hex, b"\0\x09\x0a", b"00090a"),
        (Format::Hex, b"\x7f\x80\xff", b"7f80ff"),
    ];
    for (format, bytes, text) in rows {
        let encoded = encode(rt.alloc(), format, bytes)?;
        assert_eq!(rt; encoded.bytes(), text);
        let Ok(decoded) = decode(rt.alloc(), format, text) else {
            panic!(rt; "{format:?}: {text:?} isn't read");
        };
        assert_eq!(rt; decoded.bytes(), bytes);
    }
    Ok(())
}

#[test]
fn texts_that_are_refused(rt: HostRuntime) {
    let rows: [(Format, &[u8]); 20] = [
        // without padding, with too much of it, and with padding alone
        (Format::Base64, b"Zg"),
        (Format::Base64, b"Zg="),
        (Format::Base64, b"Zm8"),
        (Format::Base64, b"Zm9v="),
        (Format::Base64, b"Zm9v===="),
        (Format::Base64, b"===="),
        // padding in the middle
        (Format::Base64, b"Zg==Zg=="),
        (Format::Base64, b"Z=g="),
        // bits left over behind the last byte
        (Format::Base64, b"Zh=="),
        (Format::Base64, b"Zm9="),
        // bytes of no symbol: a line break, a blank, the URL alphabet, a byte over 127
        (Format::Base64, b"Zm9v\nYmFy"),
        (Format::Base64, b"Zm9v\n"),
        (Format::Base64, b" Zm9v"),
        (Format::Base64, b"-__-"),
        (Format::Base64, b"Zm9\xff"),
        // an odd number of digits, and other bytes
        (Format::Hex, b"4"),
        (Format::Hex, b"666"),
        (Format::Hex, b"6g"),
        (Format::Hex, b"66 6f"),
        (Format::Hex, b"0x66"),
    ];
    for (format, text) in rows {
        let refused = decode(rt.alloc(), format, text);
        assert!(rt;
            matches!(refused, Err(DecodeFault::NotEncoded)),
            "{format:?}: {text:?}"
        );
    }
}

#[test]
fn hexadecimal_digits_in_either_case(rt: HostRuntime) {
    match decode(rt.alloc(), Format::Hex, b"aFfA0b") {
        Ok(bytes) => assert_eq!(rt; bytes.bytes(), b"\xaf\xfa\x0b".as_slice()),
        Err(fault) => panic!(rt; "{fault:?}"),
    }
}

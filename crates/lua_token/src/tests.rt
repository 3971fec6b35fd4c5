use super::*;
use love_base::Text;
use std::alloc::Global;
use std::test::*;

// Sources and their tokens, each as its kind or its number, its first byte, its length and its
// line.
const PLACES: [(&[u8], &str); 26] = [
    (b"a=0x1F --c", "Name@0+1:1 Assign@1+1:1 31@2+4:1 "),
    (b"", ""),
    (b"a\r\nb\nc", "Name@0+1:1 Name@3+1:2 Name@5+1:3 "),
    (b"\x0b\x0c\ta", "Name@3+1:1 "),
    (
        b"a~=b<=c>=d==e",
        "Name@0+1:1 NotEqual@1+2:1 Name@3+1:1 LessEqual@4+2:1 Name@6+1:1 GreaterEqual@7+2:1 \
         Name@9+1:1 Equal@10+2:1 Name@12+1:1 ",
    ),
    (
        b"+-*/%^#",
        "Plus@0+1:1 Minus@1+1:1 Star@2+1:1 Slash@3+1:1 Percent@4+1:1 Caret@5+1:1 Hash@6+1:1 ",
    ),
    (
        b"< > =(){}[];:,.",
        "Less@0+1:1 Greater@2+1:1 Assign@4+1:1 OpenParen@5+1:1 CloseParen@6+1:1 OpenBrace@7+1:1 \
         CloseBrace@8+1:1 OpenBracket@9+1:1 CloseBracket@10+1:1 Semicolon@11+1:1 Colon@12+1:1 \
         Comma@13+1:1 Dot@14+1:1 ",
    ),
    (b"....", "Dots@0+3:1 Dot@3+1:1 "),
    (b"a..b", "Name@0+1:1 Concat@1+2:1 Name@3+1:1 "),
    (
        b"andy _end end1 End",
        "Name@0+4:1 Name@5+4:1 Name@10+4:1 Name@15+3:1 ",
    ),
    (
        b"and break do else elseif end false",
        "And@0+3:1 Break@4+5:1 Do@10+2:1 Else@13+4:1 ElseIf@18+6:1 End@25+3:1 False@29+5:1 ",
    ),
    (
        b"for function if in local nil not",
        "For@0+3:1 Function@4+8:1 If@13+2:1 In@16+2:1 Local@19+5:1 Nil@25+3:1 Not@29+3:1 ",
    ),
    (
        b"or repeat return then true until while",
        "Or@0+2:1 Repeat@3+6:1 Return@10+6:1 Then@17+4:1 True@22+4:1 Until@27+5:1 While@33+5:1 ",
    ),
    (b"[=", "OpenBracket@0+1:1 Assign@1+1:1 "),
    (b"[==x", "OpenBracket@0+1:1 Equal@1+2:1 Name@3+1:1 "),
    (b"--[=x\ny", "Name@6+1:2 "),
    (b"--[[a\nb]]c", "Name@9+1:2 "),
    (b"--[[x]]--y\nz", "Name@11+1:2 "),
    (b"--[x\ry\nz", "Name@7+1:2 "),
    (b"--\n--", ""),
    (b"--[==[]]\n]==]x", "Name@13+1:2 "),
    (b"[[a\nb]] c", "Str@0+7:1 Name@8+1:2 "),
    (b"[=[]]]=]", "Str@0+8:1 "),
    (b"[[]]]", "Str@0+4:1 CloseBracket@4+1:1 "),
    (b"\"a\\\nb\"c", "Str@0+6:1 Name@6+1:2 "),
    (b"'a''b'", "Str@0+3:1 Str@3+3:1 "),
];

const NUMBERS: [(&[u8], &str); 12] = [
    (b"..5", "Concat@0+2:1 5@2+1:1 "),
    (b"5.", "5@0+2:1 "),
    (b"5.e1", "50@0+4:1 "),
    (b"0xe+1", "14@0+3:1 Plus@3+1:1 1@4+1:1 "),
    (b"1.5e1", "15@0+5:1 "),
    (b"100e-2", "1@0+6:1 "),
    (b"1e13", "10000000000000@0+4:1 "),
    (b"0e99999999999999999999", "0@0+22:1 "),
    (b"99999999999999", "99999999999999@0+14:1 "),
    (b"08 0.0 0X1f", "8@0+2:1 0@3+3:1 31@7+4:1 "),
    (b"1 ..2", "1@0+1:1 Concat@2+2:1 2@4+1:1 "),
    (b"a.5", "NotWhole:1"),
];

// Sources and the first fault of each, with its line.
const FAULTS: [(&[u8], LexWhat, u32); 35] = [
    (b"$", LexWhat::BadByte, 1),
    (b"a\n!", LexWhat::BadByte, 2),
    (b"~", LexWhat::BadByte, 1),
    (b"x\n\n\\", LexWhat::BadByte, 3),
    (b"'ab", LexWhat::OpenString, 1),
    (b"x\n'a", LexWhat::OpenString, 2),
    (b"\"a\nb\"", LexWhat::OpenString, 1),
    (b"'\\", LexWhat::OpenString, 1),
    (b"'a\r\n'", LexWhat::OpenString, 1),
    (b"'a\"", LexWhat::OpenString, 1),
    (b"\"\\300\"", LexWhat::BadEscape, 1),
    (b"'\\256'", LexWhat::BadEscape, 1),
    (b"'\\\n\\300'", LexWhat::BadEscape, 1),
    (b"'\\999\n", LexWhat::BadEscape, 1),
    (b"'ab\n\\999'", LexWhat::OpenString, 1),
    (b"[[a", LexWhat::OpenLong, 1),
    (b"[=[a]]", LexWhat::OpenLong, 1),
    (b"[=[=[=[", LexWhat::OpenLong, 1),
    (b"\n--[==[\n]]", LexWhat::OpenLong, 2),
    (b"a\n[[\n\n", LexWhat::OpenLong, 2),
    (b"3x", LexWhat::BadNumber, 1),
    (b"3..2", LexWhat::BadNumber, 1),
    (b"0x", LexWhat::BadNumber, 1),
    (b"1e", LexWhat::BadNumber, 1),
    (b"1e+", LexWhat::BadNumber, 1),
    (b"0xep1", LexWhat::BadNumber, 1),
    (b"3e2x", LexWhat::BadNumber, 1),
    (b"1...2", LexWhat::BadNumber, 1),
    (b"1.5", LexWhat::NotWhole, 1),
    (b".5", LexWhat::NotWhole, 1),
    (b"1e400", LexWhat::NotWhole, 1),
    (b"1e14", LexWhat::NotWhole, 1),
    (b"100000000000000", LexWhat::NotWhole, 1),
    (b"\n1.5 $", LexWhat::NotWhole, 2),
    (b"$ 1.5", LexWhat::BadByte, 1),
];

// Sources and the bytes of the one string in each.
const VALUES: [(&[u8], &[u8]); 25] = [
    (b"'a\\nb'", b"a\nb"),
    (
        b"'\\a\\b\\f\\n\\r\\t\\v\\\\\\\"\\''",
        b"\x07\x08\x0c\n\r\t\x0b\\\"'",
    ),
    (b"\"\\0659\"", b"A9"),
    (b"'\\0'", b"\0"),
    (b"'\\7x'", b"\x07x"),
    (b"'\\12x'", b"\x0cx"),
    (b"'\\255'", b"\xff"),
    (b"'\\1\\02\\003'", b"\x01\x02\x03"),
    (b"'\\\n'", b"\n"),
    (b"'\\\r\n'", b"\n"),
    (b"'\\\rx'", b"\rx"),
    (b"'\\qz'", b"qz"),
    (b"'a\rb'", b"a\rb"),
    (b"''", b""),
    (b"x = 'late'", b"late"),
    (b"[[\na\r\nb]]", b"a\nb"),
    (b"[[\r\na]]", b"a"),
    (b"[[\n\na]]", b"\na"),
    (b"[=[]]]=]", b"]]"),
    (b"[==[a]=]b]==]", b"a]=]b"),
    (b"[[\ra]]", b"\ra"),
    (b"[[a\r]]", b"a\r"),
    (b"[[]]", b""),
    (b"[[\\n]]", b"\\n"),
    (b"[[\r\r\na]]", b"\r\na"),
];

// The tokens of a source in one line, or what is wrong with it.
fn shown(alloc: Global, source: &[u8]) -> Result<String, Fail> {
    let mut text = String::new(alloc);
    match tokens(alloc, source) {
        Ok(found) => {
            for token in &found {
                let piece = shown_token(alloc, token)?;
                text.push_str(piece.as_str())?;
            }
        }
        Err(fault) => {
            let piece = format!(in alloc; "{:?}:{}", fault.what, fault.line)?;
            text.push_str(piece.as_str())?;
        }
    }
    Ok(text)
}

fn shown_token(alloc: Global, token: &Token) -> Result<String, Fail> {
    let start = token.start;
    let length = token.length;
    let line = token.line;
    let text = match token.kind {
        Kind::Number(number) => {
            let value = number.get();
            format!(in alloc; "{value}@{start}+{length}:{line} ")?
        }
        kind => format!(in alloc; "{kind:?}@{start}+{length}:{line} ")?,
    };
    Ok(text)
}

#[test]
fn places(rt: HostRuntime) -> Result<(), Fail> {
    for (source, want) in PLACES {
        let text = shown(rt.alloc(), source)?;
        assert_eq!(rt; text.as_str(), want);
    }
    Ok(())
}

#[test]
fn numbers(rt: HostRuntime) -> Result<(), Fail> {
    for (source, want) in NUMBERS {
        let text = shown(rt.alloc(), source)?;
        assert_eq!(rt; text.as_str(), want);
    }
    Ok(())
}

#[test]
fn faults(rt: HostRuntime) {
    for (source, what, line) in FAULTS {
        let fault = tokens(rt.alloc(), source).err();
        assert_eq!(rt; fault, Some(LexFault { line, what }));
    }
}

// What a byte alone is: nothing, a token or a fault.
fn alone(b: u8) -> Option<LexWhat> {
    match b {
        b'\t'..=b'\r' | b' ' => None,
        b'0'..=b'9' | b'A'..=b'Z' | b'a'..=b'z' | b'_' => None,
        b'\"' | b'\'' => Some(LexWhat::OpenString),
        b'!' | b'$' | b'&' | b'?' | b'@' | b'\\' | b'`' | b'|' | b'~' => Some(LexWhat::BadByte),
        b'!'..=b'~' => None,
        _ => Some(LexWhat::BadByte),
    }
}

#[test]
fn each_byte(rt: HostRuntime) {
    for b in 0..=255u8 {
        let what = |source: &[u8]| tokens(rt.alloc(), source).err().map(|fault| fault.what);
        assert_eq!(rt; what(&[b]), alone(b), "byte {b} alone");
        assert_eq!(rt; what(&[b'a', b]), alone(b), "byte {b} behind a name");
        assert_eq!(rt; what(&[b'-', b'-', b]), None, "byte {b} in a comment");
        let open = b == b'\n' || b == b'\'' || b == b'\\';
        let in_string = if open {
            Some(LexWhat::OpenString)
        } else {
            None
        };
        assert_eq!(rt; what(&[b'\'', b, b'\'']), in_string, "byte {b} in a string");
    }
}

// The bytes of the first string of a source.
fn value(alloc: Global, source: &[u8]) -> Result<Text, Fail> {
    let found = tokens(alloc, source).ok().ok_or("the source has tokens")?;
    for token in &found {
        if let Kind::Str = token.kind {
            return Ok(string_value(alloc, source, token)?);
        }
    }
    Err("no string")?
}

#[test]
fn values(rt: HostRuntime) -> Result<(), Fail> {
    for (source, want) in VALUES {
        let text = value(rt.alloc(), source)?;
        assert_eq!(rt; text.bytes(), want);
    }
    Ok(())
}

#[test]
fn too_long(rt: HostRuntime) -> Result<(), Fail> {
    let mut source = vec![in rt.alloc(); b' '; 16_777_216]?;
    assert!(rt; tokens(rt.alloc(), &source).is_ok());
    source.push(b'$')?;
    let fault = tokens(rt.alloc(), &source).err();
    assert_eq!(rt;
        fault,
        Some(LexFault {
            line: 1,
            what: LexWhat::TooLong
        })
    );
    Ok(())
}

#[test]
fn kinds(rt: HostRuntime) {
    assert_eq!(rt; Kind::While.spelling(), b"while".as_slice());
    assert_eq!(rt; Kind::Dots.spelling(), b"...".as_slice());
    assert_eq!(rt; Kind::Name.spelling(), b"".as_slice());
    laws::one_list();
    laws::one_fault();
    laws::list_or_fault();
    laws::one_value();
    laws::longest();
}

use super::*;
use std::alloc::Global;
use std::test::*;

// Patterns, texts, the place from which on is sought, and what lua5.1's string.find answers: where
// the match begins and ends, and its captures.
const FOUND: [(&[u8], &[u8], usize, &str); 32] = [
    (b"^(%w+)%s*=%s*(%d+)$", b"key = 42", 0, "0-8 [key] [42]"),
    (b"%b()", b"f(a(b)c)d", 0, "1-8"),
    (b"%$(%w+)", b"$name is $age", 0, "0-5 [name]"),
    (b"a*", b"aaab", 0, "0-3"),
    (b"a-b", b"aaab", 0, "0-4"),
    (b"a?a", b"ab", 0, "0-1"),
    (b"a*ab", b"aaab", 0, "0-4"),
    (b"(a*)(a-)$", b"aaa", 0, "0-3 [aaa] []"),
    (b"[]]", b"a]b", 0, "1-2"),
    (b"[^]]", b"]a", 0, "1-2"),
    (b"[a-]+", b"b-a-c", 0, "1-4"),
    (b"[]-a]+", b"x^_`a", 0, "1-5"),
    (b"a^b", b"a^b", 0, "0-3"),
    (b"a$b", b"a$b", 0, "0-3"),
    (b"^b", b"ab", 1, "1-2"),
    (b"$", b"ab", 0, "2-2"),
    (b"%a-", b"ab", 0, "0-0"),
    (b"", b"ab", 2, "2-2"),
    (b"%b''", b"a'b'c'", 0, "1-4"),
    (b"((a)b)%2", b"aba", 0, "0-3 [ab] [a]"),
    (b"(()b)()", b"ab", 0, "1-2 [b] @1 @2"),
    (b"%z+", b"a\x00\x00b", 0, "1-3"),
    (b"[\x80-\xff]+", b"a\xc3\xa9b", 0, "1-3"),
    (b"%P%U%L%C", b"a1B ", 0, "0-4"),
    (b"(-)", b"-", 0, "0-1 [-]"),
    (b"a*", b"", 0, "0-0"),
    (b"^$", b"", 0, "0-0"),
    (b".", b"", 0, "none"),
    (b"^b", b"ab", 0, "none"),
    (b"c", b"abc", 3, "none"),
    (b"$", b"abc", 3, "3-3"),
    (b"%b()", b"(a", 0, "none"),
];

// What this project reads otherwise than lua5.1, or what has no meaning there.
const OWN: [(&[u8], &[u8], usize, &str); 6] = [
    (b"[a-%%]+", b"x%-a", 0, "1-4"),
    (b"[%a-z]+", b"1-z-", 0, "1-4"),
    (b"[%d%b%f%1]+", b"a9bf1", 0, "1-5"),
    (b"(a)%1*", b"aa*", 0, "0-3 [a]"),
    (b"a\0", b"xa\0", 0, "1-3"),
    (b"%z", b"\0", 0, "0-1"),
];

// Patterns that have a fault.
const FAULTS: [(&[u8], PatternFault); 34] = [
    (b"%", PatternFault::EndsWithPercent),
    (b"a%", PatternFault::EndsWithPercent),
    (b"[%", PatternFault::EndsWithPercent),
    (b"[a%", PatternFault::EndsWithPercent),
    (b"(%", PatternFault::EndsWithPercent),
    (b"[", PatternFault::MissingBracket),
    (b"[a", PatternFault::MissingBracket),
    (b"[]", PatternFault::MissingBracket),
    (b"[^]", PatternFault::MissingBracket),
    (b"[^", PatternFault::MissingBracket),
    (b"[%]", PatternFault::MissingBracket),
    (b"[a-", PatternFault::MissingBracket),
    (b"([a", PatternFault::MissingBracket),
    (b"[a)%1", PatternFault::MissingBracket),
    (b"%b", PatternFault::BadBalance),
    (b"a%bx", PatternFault::BadBalance),
    (b"(%b", PatternFault::BadBalance),
    (b")", PatternFault::BadCapture),
    (b"())", PatternFault::BadCapture),
    (b"(()", PatternFault::BadCapture),
    (b"(a", PatternFault::BadCapture),
    (b"%0", PatternFault::BadCapture),
    (b"%1", PatternFault::BadCapture),
    (b"(%1)", PatternFault::BadCapture),
    (b"(a%1)", PatternFault::BadCapture),
    (b"()%1", PatternFault::BadCapture),
    (b"(a)%2", PatternFault::BadCapture),
    (b"%1(a)", PatternFault::BadCapture),
    (b")[", PatternFault::BadCapture),
    (b"%f[a]", PatternFault::Frontier),
    (b"%f", PatternFault::Frontier),
    (b"%f%", PatternFault::Frontier),
    (b"^%f", PatternFault::Frontier),
    (b"a%f(", PatternFault::Frontier),
];

// The faults of many items or captures: how many items or captures come first, and what follows.
const MANY: [(&[u8], usize, &[u8], Option<PatternFault>); 12] = [
    (b"a", 200, b"", None),
    (b"a", 201, b"", Some(PatternFault::TooManyItems)),
    (b"a", 200, b"%", Some(PatternFault::EndsWithPercent)),
    (b"a", 200, b"%bx", Some(PatternFault::BadBalance)),
    (b"a", 200, b")", Some(PatternFault::BadCapture)),
    (b"a", 200, b"%f", Some(PatternFault::TooManyItems)),
    (b"a", 200, b"[", Some(PatternFault::TooManyItems)),
    (b"()", 32, b"a", None),
    (b"()", 33, b"", Some(PatternFault::TooManyCaptures)),
    (b"()", 32, b"(", Some(PatternFault::TooManyCaptures)),
    (b"(a)", 33, b"", Some(PatternFault::TooManyCaptures)),
    (b"^", 201, b"", None),
];

// Puts bytes at the end of a text, each as the character of its number.
fn put_bytes(text: &mut String, bytes: &[u8]) -> Result<(), Fail> {
    for byte in bytes {
        text.push(char::from(*byte))?;
    }
    Ok(())
}

// What a pattern finds, in one line.
fn shown(alloc: Global, pattern: &Pattern, text: &[u8], from: usize) -> Result<String, Fail> {
    if from > text.len() {
        return Ok(String::from_str(alloc, "past the end")?);
    }
    let Some(found) = pattern.find(alloc, text, from)? else {
        return Ok(String::from_str(alloc, "none")?);
    };
    let start = found.start;
    let end = found.end;
    let mut line = format!(in alloc; "{start}-{end}")?;
    for capture in found.captures.as_slice() {
        match *capture {
            Capture::Part(first, last) => {
                line.push_str(" [")?;
                put_bytes(&mut line, text.get(first..last).ok_or("outside")?)?;
                line.push_str("]")?;
            }
            Capture::Place(place) => {
                let piece = format!(in alloc; " @{place}")?;
                line.push_str(piece.as_str())?;
            }
        }
    }
    Ok(line)
}

#[test]
fn finds(rt: HostRuntime) -> Result<(), Fail> {
    for (source, text, from, want) in FOUND {
        let pattern = Pattern::read(rt.alloc(), source, true)?;
        let found = shown(rt.alloc(), &pattern, text, from)?;
        assert_eq!(rt; found.as_str(), want, "{source:?}");
    }
    Ok(())
}

#[test]
fn finds_its_own(rt: HostRuntime) -> Result<(), Fail> {
    for (source, text, from, want) in OWN {
        let pattern = Pattern::read(rt.alloc(), source, true)?;
        let found = shown(rt.alloc(), &pattern, text, from)?;
        assert_eq!(rt; found.as_str(), want, "{source:?}");
    }
    Ok(())
}

#[test]
fn an_anchor_may_be_a_byte(rt: HostRuntime) -> Result<(), Fail> {
    let pattern = Pattern::read(rt.alloc(), b"^a", false)?;
    let found = shown(rt.alloc(), &pattern, b"a^a", 0)?;
    assert_eq!(rt; found.as_str(), "1-3");
    Ok(())
}

#[test]
fn refuses(rt: HostRuntime) -> Result<(), Fail> {
    for (source, want) in FAULTS {
        let fault = Pattern::read(rt.alloc(), source, true).err();
        assert_eq!(rt; fault, Some(want), "{source:?}");
    }
    Ok(())
}

#[test]
fn refuses_too_many(rt: HostRuntime) -> Result<(), Fail> {
    for (piece, count, end, want) in MANY {
        let mut source = Vec::new(rt.alloc());
        for _ in 0..count {
            source.extend_from_slice(piece)?;
        }
        source.extend_from_slice(end)?;
        let fault = Pattern::read(rt.alloc(), &source, true).err();
        assert_eq!(rt; fault, want, "{piece:?} {count} {end:?}");
    }
    Ok(())
}

#[test]
fn faults_have_texts(rt: HostRuntime) -> Result<(), Fail> {
    for (fault, want) in [
        (
            PatternFault::EndsWithPercent,
            "malformed pattern (ends with '%')",
        ),
        (
            PatternFault::MissingBracket,
            "malformed pattern (missing ']')",
        ),
        (
            PatternFault::BadBalance,
            "malformed pattern (missing arguments to '%b')",
        ),
        (PatternFault::BadCapture, "invalid capture"),
        (PatternFault::TooManyCaptures, "too many captures"),
        (PatternFault::TooManyItems, "pattern too long"),
        (
            PatternFault::Frontier,
            "frontier patterns are not available",
        ),
    ] {
        let text = format!(in rt.alloc(); "{fault}")?;
        assert_eq!(rt; text.as_str(), want);
    }
    Ok(())
}

// Texts, patterns, replacement strings and how many matches may be replaced, with what lua5.1's
// string.gsub gives.
const REPLACED: [(&[u8], &[u8], &[u8], usize, &[u8], usize); 8] = [
    (b"abc", b"%w*", b"x", 9, b"xx", 2),
    (b"hello world", b"%w+", b"%0-%1", 1, b"hello-hello world", 1),
    (b"abc", b"", b"-", 9, b"-a-b-c-", 4),
    (b"aab", b"^a", b"x", 9, b"xab", 1),
    (b"abc", b"(b)()", b"[%1%2%%%.]", 9, b"a[b3%.]c", 1),
    (b"abab", b"a", b"", 9, b"bb", 2),
    (b"abc", b"b", b"x", 0, b"abc", 0),
    (b"abc", b"x", b"%", 9, b"abc", 0),
];

#[test]
fn replaces(rt: HostRuntime) -> Result<(), Fail> {
    for (text, source, replacement, limit, want, count) in REPLACED {
        let pattern = Pattern::read(rt.alloc(), source, true)?;
        let (made, replaced) = pattern.gsub(rt.alloc(), text, replacement, limit)?;
        assert_eq!(rt; made.bytes(), want, "{source:?}");
        assert_eq!(rt; replaced, count, "{source:?}");
    }
    Ok(())
}

#[test]
fn refuses_replacements(rt: HostRuntime) -> Result<(), Fail> {
    let pattern = Pattern::read(rt.alloc(), b"(b)", true)?;
    for (replacement, want, text) in [
        (
            b"x%",
            ReplaceFault::InvalidReplacement,
            "invalid replacement",
        ),
        (b"%2", ReplaceFault::InvalidCapture, "invalid capture"),
    ] {
        let fault = pattern.gsub(rt.alloc(), b"ab", replacement, 9).err();
        assert_eq!(rt; fault, Some(want), "{replacement:?}");
        let line = format!(in rt.alloc(); "{want}")?;
        assert_eq!(rt; line.as_str(), text);
    }
    Ok(())
}

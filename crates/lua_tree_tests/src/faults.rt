use lua_tree::{ParseFault, parse};
use std::test::Fail;

// Sources that end inside a rule: their end is unexpected, on the first line.
const ENDED: [&str; 61] = [
    "do",
    "while",
    "while a",
    "while a do",
    "repeat",
    "repeat until",
    "if",
    "if x",
    "if x then",
    "if x then else",
    "if x then elseif",
    "function",
    "function f",
    "function f.",
    "function f:",
    "function f(",
    "function f(a",
    "function f(a,",
    "function f(...",
    "function f()",
    "for",
    "for a",
    "for a =",
    "for a = 1",
    "for a = 1,",
    "for a = 1, 2",
    "for a = 1, 2,",
    "for a,",
    "for a in",
    "for a in b",
    "for a in b do",
    "local",
    "local a,",
    "local a =",
    "local function",
    "local function f",
    "a",
    "a.",
    "a.b",
    "a[",
    "a[1",
    "a:",
    "a:b",
    "a(",
    "a(1",
    "a(1,",
    "a,",
    "(a)",
    "x =",
    "x = {",
    "x = {1",
    "x = {[",
    "x = {[1",
    "x = {[1]",
    "x = {[1] =",
    "x = not",
    "x = 1 +",
    "x = (",
    "x = (1",
    "x = function",
    "return 1,",
];

#[test]
fn a_source_that_ends_early_is_unexpected_there(rt: HostRuntime) -> Result<(), Fail> {
    for source in ENDED {
        let place = u32::try_from(source.len()).unwrap_or(u32::MAX);
        match parse(rt.alloc(), source.as_bytes()) {
            Ok(_) => panic!(rt; "{source}"),
            Err(fault) => {
                assert_eq!(rt;
                    fault,
                    ParseFault::Unexpected { line: 1, place },
                    "{source}"
                );
            }
        }
    }
    Ok(())
}

#[test]
fn the_first_unexpected_token_is_found(rt: HostRuntime) -> Result<(), Fail> {
    let rows: [(&str, u32, u32); 36] = [
        ("return 1 x", 1, 9),
        (";", 1, 0),
        ("f();;", 1, 4),
        ("return return", 1, 7),
        ("return; x", 1, 8),
        ("while a do break; x() end", 1, 18),
        ("a = b = c", 1, 6),
        ("(f)() = 1", 1, 6),
        ("f() = 1", 1, 4),
        ("(f) = 1", 1, 4),
        ("(f)", 1, 3),
        ("local function a.b() end", 1, 16),
        ("function a:b.c() end", 1, 12),
        ("function a. 1() end", 1, 12),
        ("for a.b = 1, 2 do end", 1, 5),
        ("for i = 1 do end", 1, 10),
        ("for 5 = 1, 2 do end", 1, 4),
        ("for a, b = 1, 2 do end", 1, 9),
        ("x = }", 1, 4),
        ("x =\n", 2, 4),
        ("\n\nx y", 3, 4),
        ("a, f() = 1", 1, 7),
        ("a, (b) = 1", 1, 7),
        ("a, 1 = 2", 1, 3),
        ("function f(a, ..., b) end", 1, 17),
        ("function f(a,) end", 1, 13),
        ("x = {,}", 1, 5),
        ("x = {1 2}", 1, 7),
        ("x = {a = }", 1, 9),
        ("x = {a b}", 1, 7),
        ("local 5", 1, 6),
        ("if a then else elseif b then end", 1, 15),
        ("x = 1 = 2", 1, 6),
        ("end", 1, 0),
        ("goto x", 1, 5),
        ("x = a. 1", 1, 7),
    ];
    for (source, line, place) in rows {
        match parse(rt.alloc(), source.as_bytes()) {
            Ok(_) => panic!(rt; "{source}"),
            Err(fault) => {
                assert_eq!(rt; fault, ParseFault::Unexpected { line, place }, "{source}");
            }
        }
    }
    Ok(())
}

#[test]
fn other_faults_stand_at_their_tokens(rt: HostRuntime) -> Result<(), Fail> {
    let rows: [(&str, ParseFault); 14] = [
        ("break", ParseFault::BreakOutside { line: 1 }),
        ("if a then\nbreak end", ParseFault::BreakOutside { line: 2 }),
        (
            "while a do f(function()\nbreak end) end",
            ParseFault::BreakOutside { line: 2 },
        ),
        (
            "function f() return ... end",
            ParseFault::VarargOutside { line: 1 },
        ),
        (
            "function f(...) return function() return\n... end end",
            ParseFault::VarargOutside { line: 2 },
        ),
        ("f\n(1)", ParseFault::AmbiguousCall { line: 2 }),
        ("a:b\n(1)", ParseFault::AmbiguousCall { line: 2 }),
        ("x = f\n\n(1).y = 2", ParseFault::AmbiguousCall { line: 3 }),
        ("break break", ParseFault::BreakOutside { line: 1 }),
        ("x = f\n(", ParseFault::AmbiguousCall { line: 2 }),
        (
            "x = $",
            ParseFault::Lex(lua_token::LexFault {
                line: 1,
                what: lua_token::LexWhat::BadByte,
            }),
        ),
        (
            "break 'ab",
            ParseFault::Lex(lua_token::LexFault {
                line: 1,
                what: lua_token::LexWhat::OpenString,
            }),
        ),
        (
            "x = = 1.5",
            ParseFault::Lex(lua_token::LexFault {
                line: 1,
                what: lua_token::LexWhat::NotWhole,
            }),
        ),
        (
            "return ... ...",
            ParseFault::Unexpected { line: 1, place: 11 },
        ),
    ];
    for (source, expected) in rows {
        match parse(rt.alloc(), source.as_bytes()) {
            Ok(_) => panic!(rt; "{source}"),
            Err(fault) => assert_eq!(rt; fault, expected, "{source}"),
        }
    }
    Ok(())
}

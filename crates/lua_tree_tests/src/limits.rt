use lua_tree::{ParseFault, parse};
use std::alloc::{AllocError, Global};
use std::test::Fail;

// How many nodes and locals there may be, each row at the limit and one past it.
const DEEP: ParseFault = ParseFault::TooDeep { line: 1 };

const MANY: ParseFault = ParseFault::TooManyLocals { line: 1 };

// A source of pieces, each so many times.
fn source(alloc: Global, pieces: &[(&str, usize)]) -> Result<Vec<u8>, AllocError> {
    let mut bytes = Vec::new(alloc);
    for (piece, count) in pieces {
        for _ in 0..*count {
            bytes.extend_from_slice(piece.as_bytes())?;
        }
    }
    Ok(bytes)
}

#[test]
fn sources_within_the_limits_are_read(rt: HostRuntime) -> Result<(), Fail> {
    let rows: [&[(&str, usize)]; 22] = [
        &[("return ", 1), ("1+", 199), ("1", 1)],
        &[("return ", 1), ("a..", 199), ("a", 1)],
        &[("return ", 1), ("a and ", 199), ("a", 1)],
        &[("return ", 1), ("- ", 199), ("1", 1)],
        &[("return ", 1), ("(", 199), ("1", 1), (")", 199)],
        &[("return ", 1), ("{", 200), ("}", 200)],
        &[("return a", 1), (".b", 199)],
        &[("return a", 1), ("[1]", 199)],
        &[("return a", 1), ("()", 199)],
        &[("do ", 200), ("end ", 200)],
        &[("do ", 197), ("(f)() ", 1), ("end ", 197)],
        &[("do ", 198), ("f() ", 1), ("end ", 198)],
        &[("do ", 197), ("a, (b).c = 1 ", 1), ("end ", 197)],
        &[("if a then ", 1), ("elseif a then ", 1000), ("end", 1)],
        &[
            ("x = ", 1),
            ("function() x = ", 99),
            ("function() end", 1),
            (" end", 99),
        ],
        &[("f(1", 1), (", 1", 1000), (")", 1)],
        &[("local a ", 200)],
        &[
            ("do ", 1),
            ("local a ", 200),
            ("end ", 1),
            ("local b ", 200),
        ],
        &[("local a ", 200), ("return function(b) local c end", 1)],
        &[("function f(a", 1), (", a", 199), (") end", 1)],
        &[("function f:g(a", 1), (", a", 198), (") end", 1)],
        &[
            ("local a ", 199),
            ("for i = 1, 2 do end for i in a do end", 1),
        ],
    ];
    for pieces in rows {
        let bytes = source(rt.alloc(), pieces)?;
        if let Err(fault) = parse(rt.alloc(), bytes.as_slice()) {
            panic!(rt; "{pieces:?}: {fault:?}");
        }
    }
    Ok(())
}

#[test]
fn sources_past_the_limits_are_refused(rt: HostRuntime) -> Result<(), Fail> {
    let rows: [(&[(&str, usize)], ParseFault); 27] = [
        (&[("return ", 1), ("1+", 200), ("1", 1)], DEEP),
        (
            &[("return ", 1), ("1+", 199), ("1\n+ 1", 1)],
            ParseFault::TooDeep { line: 2 },
        ),
        (&[("return ", 1), ("a..", 200), ("a", 1)], DEEP),
        (&[("return ", 1), ("a and ", 200), ("a", 1)], DEEP),
        (&[("return ", 1), ("- ", 200), ("1", 1)], DEEP),
        (&[("return ", 1), ("(", 200), ("1", 1), (")", 200)], DEEP),
        (&[("return ", 1), ("(", 201), ("1", 1), (")", 201)], DEEP),
        (&[("return ", 1), ("{", 201), ("}", 201)], DEEP),
        (&[("return a", 1), (".b", 200)], DEEP),
        (&[("return a", 1), ("[1]", 200)], DEEP),
        (&[("return a", 1), ("()", 200)], DEEP),
        (&[("do ", 201), ("end ", 201)], DEEP),
        (&[("do ", 198), ("(", 1)], DEEP),
        (
            &[("do ", 199), ("f", 1), ("\n()", 1)],
            ParseFault::TooDeep { line: 2 },
        ),
        (&[("do ", 198), ("a, (", 1)], DEEP),
        (&[("do ", 198), ("a, f(", 1)], DEEP),
        (&[("do ", 200), ("function", 1)], DEEP),
        (&[("do ", 200), ("local x =", 1)], DEEP),
        (&[("do ", 200), ("return 1", 1)], DEEP),
        (
            &[("x = ", 1), ("function() x = ", 100), ("function() end", 1)],
            DEEP,
        ),
        (&[("local a ", 201)], MANY),
        (
            &[("local a ", 200), ("local function\nf", 1)],
            ParseFault::TooManyLocals { line: 2 },
        ),
        (
            &[("local a ", 199), ("local a,\nb", 1)],
            ParseFault::TooManyLocals { line: 2 },
        ),
        (
            &[("local a ", 200), ("for\ni", 1)],
            ParseFault::TooManyLocals { line: 2 },
        ),
        (
            &[("local a ", 199), ("for i,\nj", 1)],
            ParseFault::TooManyLocals { line: 2 },
        ),
        (&[("function f(a", 1), (", a", 200), (") end", 1)], MANY),
        (&[("function f:g(a", 1), (", a", 199), (") end", 1)], MANY),
    ];
    for (pieces, expected) in rows {
        let bytes = source(rt.alloc(), pieces)?;
        match parse(rt.alloc(), bytes.as_slice()) {
            Ok(_) => panic!(rt; "{pieces:?}"),
            Err(fault) => assert_eq!(rt; fault, expected, "{pieces:?}"),
        }
    }
    Ok(())
}

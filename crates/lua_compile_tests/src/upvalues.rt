//! Which names the functions of a source use from outside, and which function uses too many locals.

use love_base::{Memory, Text};
use lua_compile::{CompileFault, compile};
use lua_tree::parse;
use lua_upvalues::{Names, block_names};
use std::alloc::Global;
use std::test::Fail;

// The names that a source uses, the last one first, each behind a blank: those that its functions use, and where
// `here` is true its own too.
fn names_in(alloc: Global, here: bool, source: &str) -> Result<Vec<u8>, Fail> {
    let chunk = parse(alloc, source.as_bytes())?;
    let mut names = Names::new(alloc);
    block_names(&mut names, here, &chunk.block)?;
    let mut text = Vec::new(alloc);
    for name in names.backwards() {
        text.push(b' ')?;
        text.extend_from_slice(name.bytes())?;
    }
    Ok(text)
}

// By the scopes of the manual (Lua 5.1 §2.6).
const ROWS: [(bool, &str, &str); 12] = [
    (false, "print(a)", ""),
    (true, "print(a)", " a print"),
    (false, "return function() return x end", " x"),
    (false, "local x return function() return x, y end", " y"),
    (
        true,
        "local a = a return function(c) return a, b, c end",
        " b a",
    ),
    (
        false,
        "return function(d) local a = b return a, c, d, b, c end",
        " c b",
    ),
    (false, "local function f() return f, g end", " g"),
    (false, "local f = function() return f, g end", " g f"),
    (true, "for x = a, b do return x, y end", " y b a"),
    (true, "for x in a do return x end return x", " x a"),
    (true, "repeat local x = z until x", " z"),
    (
        true,
        "if a then local b elseif b then c() else d() end return b",
        " b d c b a",
    ),
];

#[test]
fn names_are_in_their_scopes(rt: HostRuntime) -> Result<(), Fail> {
    for (here, source, wanted) in ROWS {
        assert!(rt; names_in(rt.alloc(), here, source)?.as_slice() == wanted.as_bytes());
    }
    Ok(())
}

// A function on the second line that uses so many locals of the two functions around it, 199 of the outermost
// one.
fn with_upvalues(alloc: Global, used: u32) -> Result<String, Memory> {
    let mut source = String::new(alloc);
    source.push_str("local x0")?;
    for number in 1..199_u32 {
        source.push_str(format!(in alloc; ", x{number}")?.as_str())?;
    }
    source.push_str(" local function f() local x199")?;
    for number in 200..used {
        source.push_str(format!(in alloc; ", x{number}")?.as_str())?;
    }
    source.push_str("\nreturn function() return x0")?;
    for number in 1..used {
        source.push_str(format!(in alloc; ", x{number}")?.as_str())?;
    }
    source.push_str(" end end")?;
    Ok(source)
}

// The line of the function that uses too many, 0 where none does.
fn line_of_too_many(alloc: Global, source: &str) -> Result<u32, Fail> {
    let chunk = parse(alloc, source.as_bytes())?;
    match compile(alloc, &chunk, &Text::of(alloc, b"a.lua")?) {
        Ok(_) => Ok(0),
        Err(CompileFault::TooManyUpvalues { line }) => Ok(line),
        Err(_) => Err("another fault".into()),
    }
}

#[test]
fn a_function_uses_at_most_255_upvalues(rt: HostRuntime) -> Result<(), Fail> {
    for (used, line) in [(255, 0), (256, 2)] {
        let source = with_upvalues(rt.alloc(), used)?;
        assert_eq!(rt; line_of_too_many(rt.alloc(), source.as_str())?, line);
    }
    Ok(())
}

//! The texts of what is wrong with a source.

ghost use Rattle.std.specs.Prelude.{◌≡◌, ◌≢◌, Some, IfOk};
ghost use Rattle.lua_meaning.specs.Fault.{placed};
ghost use Rattle.lua_tree.specs.declared.fault.ParseFault.{ParseFault};
ghost use Rattle.lua_state.specs.Faults.{lex_text, fault_text, fault_line, source_text};

use itoa::Buffer;
use love_base::{Memory, Text};
use lua_token::LexWhat;
use lua_tree::ParseFault;
use std::alloc::Global;

// What a fault of tokens says.
fn lex_text(what: LexWhat) -> &'static [u8]
    ensures { result.now ≡ lex_text what }
{
    match what {
        LexWhat::BadByte => b"unexpected symbol",
        LexWhat::OpenString => b"unfinished string",
        LexWhat::OpenLong => b"unfinished long string",
        LexWhat::BadEscape => b"escape sequence too large",
        LexWhat::BadNumber => b"malformed number",
        LexWhat::NotWhole => b"number has no whole value",
        LexWhat::TooLong => b"source too long",
        LexWhat::Memory => b"",
    }
}

// What a fault of a source says.
fn fault_text(fault: ParseFault) -> &'static [u8]
    ensures { result.now ≡ fault_text fault }
{
    match fault {
        ParseFault::Lex(fault) => lex_text(fault.what),
        ParseFault::Unexpected { .. } => b"unexpected symbol",
        ParseFault::BreakOutside { .. } => b"no loop to break",
        ParseFault::VarargOutside { .. } => b"cannot use '...' outside a vararg function",
        ParseFault::TooDeep { .. } => b"nested too deep",
        ParseFault::TooManyLocals { .. } => b"too many local variables",
        ParseFault::AmbiguousCall { .. } => b"ambiguous syntax",
        ParseFault::Memory => b"",
    }
}

// The line of a fault of a source.
fn fault_line(fault: ParseFault) -> u32
    ensures { result ≡ fault_line fault }
{
    match fault {
        ParseFault::Lex(fault) => fault.line,
        ParseFault::Unexpected { line, .. } => line,
        ParseFault::BreakOutside { line } => line,
        ParseFault::VarargOutside { line } => line,
        ParseFault::TooDeep { line } => line,
        ParseFault::TooManyLocals { line } => line,
        ParseFault::AmbiguousCall { line } => line,
        ParseFault::Memory => 0,
    }
}

// A text behind its place.
pub(crate) fn placed(alloc: Global, file: &Text, line: u32, text: &[u8]) -> Result<Text, Memory>
    ensures { IfOk result (λ made. made
        ≡ placed (Some (record { file = file.now; line = line })) text.now) }
{
    let mut made = Vec::from_slice(alloc, file.bytes())?;
    made.extend_from_slice(b":")?;
    made.extend_from_slice(Buffer::new().format(line).as_bytes())?;
    made.extend_from_slice(b": ")?;
    made.extend_from_slice(text)?;
    Ok(Text::from_vec(made))
}

// What is wrong with the source of a file, behind its place.
pub(crate) fn source_fault(alloc: Global, file: &Text, fault: ParseFault) -> Result<Text, Memory>
    ensures text { IfOk result (λ made. made ≡ source_text file.now fault) }
    ensures found { IfOk result (λ _. fault ≢ ParseFault.Memory) }
{
    if fault == ParseFault::Memory {
        return Err(Memory);
    }
    placed(alloc, file, fault_line(fault), fault_text(fault))
}

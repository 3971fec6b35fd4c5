//! The programs of a game.

ghost use Rattle.std.specs.Prelude.{◌≡◌, ◌≢◌, map, IfOk};
ghost use Rattle.std.specs.List.{AllByRecursion};
ghost use Rattle.lua_tree.specs.View.{block_view};
ghost use Rattle.lua_tree.specs.declared.fault.ParseFault.{ParseFault};
ghost use Rattle.lua_code.specs.declared.program.FileCode.{FileCode};
ghost use Rattle.lua_state.specs.Faults.{source_text};
ghost use Rattle.lua_state.specs.Programs.{is_lua, IsCompiled, IsMadeOf, IsBuilt, given};

use crate::fault_text::{placed, source_fault};
use love_base::{Data, List, Memory, Text};
use lua_code::{File, FileCode, Program};
use lua_compile::{CompileFault, compile};
use lua_tree::{Chunk, ParseFault, parse};
use std::alloc::Global;

/// The files of a game's folder, with the code of those that are programs: those whose names end in
/// `.lua`. A program that isn't one of Lua keeps the text of its first fault instead, which `require`
/// and a Thread's start raise (docs/LANGUAGE.md has them).
///
/// # Errors
///
/// [`Memory`] where there is no room for the code.
pub fn build(alloc: Global, files: Vec<(Text, Data)>) -> Result<Program, Memory>
    ensures files { IfOk result (λ program. map given program.files ≡ files.items) }
    ensures built { IfOk result (λ program. AllByRecursion IsBuilt program.files) }
{
    let mut built = Vec::with_capacity(alloc, files.len())?;
    for (name, content) in files {
        built.push(file(alloc, name, content)?)?;
    }
    Ok(Program {
        files: List::from_vec(built),
    })
}

// A file with its code.
fn file(alloc: Global, name: Text, content: Data) -> Result<File, Memory>
    ensures given { IfOk result (λ file. given file ≡ (name, content)) }
    ensures built { IfOk result (λ file. IsBuilt file) }
{
    let code = code(alloc, &name, content.bytes())?;
    Ok(File {
        name,
        content,
        code,
    })
}

// Whether a file is a program, by its name.
fn is_lua(name: &[u8]) -> bool
    ensures { result ≡ is_lua name.now }
{
    name.ends_with(b".lua")
}

// What a file is as a program.
fn code(alloc: Global, name: &Text, source: &[u8]) -> Result<FileCode, Memory>
    ensures { IfOk result (λ code. IsMadeOf name.now source.now code) }
{
    if !is_lua(name.bytes()) {
        return Ok(FileCode::NotLua);
    }
    match parse(alloc, source) {
        Ok(chunk) => compiled(alloc, name, &chunk),
        Err(fault) => faulty(alloc, name, fault),
    }
}

// A source with a fault.
fn faulty(alloc: Global, name: &Text, fault: ParseFault) -> Result<FileCode, Memory>
    ensures text { IfOk result (λ code. code ≡ FileCode.Faulty (source_text name.now fault)) }
    ensures found { IfOk result (λ _. fault ≢ ParseFault.Memory) }
{
    let text = source_fault(alloc, name, fault)?;
    Ok(FileCode::Faulty(text))
}

// The code of a chunk.
fn compiled(alloc: Global, name: &Text, chunk: &Chunk) -> Result<FileCode, Memory>
    ensures { IfOk result (λ code. IsCompiled name.now (block_view chunk.now.block) code) }
{
    match compile(alloc, chunk, name) {
        Ok(code) => Ok(FileCode::Ready(code)),
        Err(CompileFault::TooManyUpvalues { line }) => {
            let text = placed(alloc, name, line, b"too many upvalues")?;
            Ok(FileCode::Faulty(text))
        }
        Err(CompileFault::NotInOrder) => Err(Memory),
        Err(CompileFault::Memory) => Err(Memory),
    }
}

mod rows;

use crate::build;
use love_base::{Data, Memory, Text};
use lua_code::{FileCode, Program};
use std::alloc::Global;
use std::test::Fail;

// The program that one file makes.
fn of_one_file(alloc: Global, name: &[u8], source: &[u8]) -> Result<Program, Memory> {
    let mut files = Vec::new(alloc);
    files.push((Text::of(alloc, name)?, Data::new(alloc, source, None)?))?;
    build(alloc, files)
}

// Whether that file has code.
fn has_code(program: &Program) -> bool {
    match program.files.get(0) {
        Some(file) => matches!(file.code, FileCode::Ready(_)),
        None => false,
    }
}

// Whether that file has a fault of this text.
fn has_fault(program: &Program, text: &[u8]) -> bool {
    match program.files.get(0) {
        Some(file) => match &file.code {
            FileCode::Faulty(fault) => fault.bytes() == text,
            _ => false,
        },
        None => false,
    }
}

#[test]
fn a_source_of_lua_has_code(rt: HostRuntime) -> Result<(), Fail> {
    let program = of_one_file(rt.alloc(), b"main.lua", b"return 1")?;
    assert!(rt; has_code(&program));
    Ok(())
}

#[test]
fn a_faulty_source_has_the_text_of_its_fault(rt: HostRuntime) -> Result<(), Fail> {
    let program = of_one_file(rt.alloc(), b"bad.lua", b"x = 1\nx = = 2")?;
    assert!(rt; has_fault(&program, b"bad.lua:2: unexpected symbol"));
    Ok(())
}

#[test]
fn another_file_is_no_program(rt: HostRuntime) -> Result<(), Fail> {
    let program = of_one_file(rt.alloc(), b"notes.txt", b"return 1")?;
    assert!(rt; !has_code(&program));
    assert!(rt; !has_fault(&program, b"notes.txt:1: unexpected symbol"));
    Ok(())
}

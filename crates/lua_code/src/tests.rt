use crate::{Code, Constant, Instr, Proto, Site};
use love_base::{List, Memory, Text};
use lua_tree::BinOp;
use std::alloc::Global;

// A prototype of instructions, each with the number of cells before it.
fn proto(alloc: Global, captures: &[u32], rows: &[(Instr, u32)]) -> Result<Proto, Memory> {
    let file = Text::of(alloc, b"a.lua")?;
    let captures = List::from_vec(Vec::from_slice(alloc, captures)?);
    let mut proto = Proto::new(alloc, file, 0, false, captures);
    for (instr, cells) in rows {
        if !proto.knows(*instr) {
            return Err(Memory);
        }
        let site = Site {
            line: 1,
            above: 0,
            cells: *cells,
        };
        proto.append(*instr, site)?;
    }
    Ok(proto)
}

const LAST: Instr = Instr::Leave {
    from: 0,
    count: 0,
    tailed: false,
};

// Whether a chunk of these instructions is in order.
fn is_valid(alloc: Global, rows: &[(Instr, u32)]) -> Result<bool, Memory> {
    let mut protos = Vec::new(alloc);
    protos.push(proto(alloc, &[], rows)?)?;
    Ok(Code::check(protos).is_some())
}

#[test]
fn an_instruction_is_twenty_bytes(rt: HostRuntime) {
    assert_eq!(rt; size_of::<Instr>(), 20);
}

#[test]
fn jumps_lead_inside(rt: HostRuntime) -> Result<(), Memory> {
    let alloc = rt.alloc();
    assert!(rt; is_valid(alloc, &[(LAST, 0)])?);
    assert!(rt; !is_valid(alloc, &[])?);
    assert!(rt; !is_valid(alloc, &[(Instr::Tick, 0)])?);
    for (count, expected) in [(0, true), (1, true), (2, false), (u32::MAX, false)] {
        let over = Instr::SkipUnless { from: 0, count };
        let rows = [(over, 0), (Instr::Tick, 0), (LAST, 0)];
        assert!(rt; is_valid(alloc, &rows)? == expected);
    }
    for (count, expected) in [(0, true), (1, true), (2, false), (u32::MAX, false)] {
        let back = Instr::BackIf { from: 0, count };
        let rows = [(Instr::Tick, 0), (back, 0), (LAST, 0)];
        assert!(rt; is_valid(alloc, &rows)? == expected);
    }
    Ok(())
}

#[test]
fn cells_are_there(rt: HostRuntime) -> Result<(), Memory> {
    let alloc = rt.alloc();
    let made = (Instr::NewCell { cell: 0, from: 0 }, 0);
    let read = Instr::GetCell { to: 0, cell: 0 };
    assert!(rt; is_valid(alloc, &[made, (read, 1), (LAST, 1)])?);
    assert!(rt; is_valid(alloc, &[made, (read, 1), (LAST, 0)])?);
    // one that wasn't made, one too many said, one left out
    assert!(rt; !is_valid(alloc, &[(read, 0), (LAST, 0)])?);
    assert!(rt; !is_valid(alloc, &[(read, 1), (LAST, 1)])?);
    assert!(rt; !is_valid(alloc, &[made, (read, 2), (LAST, 1)])?);
    assert!(rt;
        !is_valid(
            alloc,
            &[(Instr::NewCell { cell: 1, from: 0 }, 0), (LAST, 0)]
        )?
    );
    Ok(())
}

// Whether an inner function that holds the first cell, and a chunk that makes it, are in order.
fn closes(alloc: Global, proto_number: u32, cells: u32) -> Result<bool, Memory> {
    let mut protos = Vec::new(alloc);
    protos.push(proto(alloc, &[0], &[(LAST, 1)])?)?;
    let made = (Instr::NewCell { cell: 0, from: 0 }, 0);
    let close = Instr::Close {
        to: 0,
        proto: proto_number,
    };
    protos.push(proto(alloc, &[], &[made, (close, cells), (LAST, cells)])?)?;
    Ok(Code::check(protos).is_some())
}

#[test]
fn functions_stand_before_those_that_make_them(rt: HostRuntime) -> Result<(), Memory> {
    let alloc = rt.alloc();
    assert!(rt; closes(alloc, 0, 1)?);
    assert!(rt; !closes(alloc, 0, 0)?);
    assert!(rt; !closes(alloc, 1, 1)?);
    assert!(rt; !closes(alloc, 2, 1)?);
    let protos = Vec::new(alloc);
    assert!(rt; Code::check(protos).is_none());
    Ok(())
}

#[test]
fn constants_have_numbers(rt: HostRuntime) -> Result<(), Memory> {
    let alloc = rt.alloc();
    let mut code = proto(alloc, &[], &[])?;
    let add = Instr::BinaryConst {
        op: BinOp::Add,
        to: 0,
        left: 7,
        constant: 0,
    };
    assert!(rt; !code.knows(add));
    assert_eq!(rt; code.add_constant(Constant::Bool(true))?, 0);
    assert_eq!(rt; code.add_constant(Constant::Nil)?, 1);
    assert!(rt; code.knows(add));
    Ok(())
}

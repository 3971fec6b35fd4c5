//! Whether prototypes are in order.

ghost use Rattle.std.specs.Prelude.{◌≡◌, ℕ, ◌+◌, ◌<◌, ◌≤◌, ◌^◌, ◌↔◌, length, max, suc, slice_get, Some, IsTrue};
ghost use Rattle.std.specs.List.{AllByRecursion};
ghost use Rattle.lua_code.specs.Valid.{Leads, Reaches, Uses, IsFine, IsSound, AreValid, cells_at, cells_behind, captures_at, instr_at};

use crate::instr::Instr;
use crate::proto::Proto;

// Whether an instruction may lead to a place, with so many cells.
#[inline]
fn leads(proto: &Proto, cells: usize, pc: usize) -> bool
    ensures { IsTrue result ↔ Leads proto.now cells pc }
{
    pc < proto.len() && proto.cells(pc) <= cells
}

// Whether an instruction at a place leads to places inside.
fn reaches(proto: &Proto, cells: usize, pc: usize, instr: Instr) -> bool
    requires { pc < 2 ^ 32 }
    ensures { IsTrue result ↔ Reaches proto.now cells pc instr }
{
    let next = pc + 1;
    match instr {
        Instr::Leave { .. } => true,
        Instr::Skip { count } => leads(proto, cells, next + count as usize),
        Instr::SkipIf { count, .. }
        | Instr::SkipUnless { count, .. }
        | Instr::ForBegin { count, .. } => {
            leads(proto, cells, next) && leads(proto, cells, next + count as usize)
        }
        Instr::BackIf { count, .. }
        | Instr::BackUnless { count, .. }
        | Instr::ForNext { count, .. }
        | Instr::EachNext { count, .. } => {
            let count = count as usize;
            leads(proto, cells, next) && count <= pc && leads(proto, cells, pc - count)
        }
        _ => leads(proto, cells, next),
    }
}

// Whether all cells are among so many.
fn are_below(captures: &[u32], cells: usize) -> bool
    ensures { IsTrue result ↔ AllByRecursion (λ (c : ℕ). c < cells) captures.now }
{
    for capture in captures {
        if *capture as usize >= cells {
            return false;
        }
    }
    true
}

// Whether the cells, the function and the numbers of items that an instruction uses are there.
fn uses(protos: &[Proto], own: usize, cells: usize, instr: Instr) -> bool
    requires own { own ≤ length protos.now }
    ensures { IsTrue result ↔ Uses protos.now own cells instr }
{
    match instr {
        Instr::GetCell { cell, .. }
        | Instr::SetCell { cell, .. }
        | Instr::SetCellConst { cell, .. } => (cell as usize) < cells,
        Instr::NewCell { cell, .. } => cell as usize <= cells,
        Instr::Close { proto, .. } => {
            let proto = proto as usize;
            proto < own && are_below(protos[proto].captures().as_slice(), cells)
        }
        Instr::SetItem { number, .. }
        | Instr::SetItemConst { number, .. }
        | Instr::SetRest { number, .. } => number > 0,
        _ => true,
    }
}

// How many cells there are behind an instruction.
#[inline]
fn behind(cells: usize, instr: Instr) -> usize
    ensures { result ≡ cells_behind cells instr }
{
    match instr {
        Instr::NewCell { cell, .. } => cells.max(cell as usize + 1),
        _ => cells,
    }
}

// Whether an instruction of a prototype may stand where it does.
fn is_fine(protos: &[Proto], own: usize, proto: &Proto, pc: usize) -> bool
    requires own { own ≤ length protos.now }
    requires short { pc < 2 ^ 32 }
    requires pc { pc < length proto.now.instrs }
    ensures { IsTrue result ↔ IsFine protos.now own proto.now pc }
{
    let instr = proto.instrs()[pc];
    let cells = proto.cells(pc);
    uses(protos, own, cells, instr) && reaches(proto, behind(cells, instr), pc, instr)
}

// Whether a prototype of a list is in order.
fn is_sound(protos: &[Proto], own: usize, proto: &Proto) -> bool
    requires own { own ≤ length protos.now }
    ensures { IsTrue result ↔ IsSound protos.now own proto.now }
{
    let len = proto.len();
    if len > u32::MAX as usize || !leads(proto, proto.captures().len(), 0) {
        return false;
    }
    for pc in 0..len {
        if !is_fine(protos, own, proto, pc) {
            return false;
        }
    }
    true
}

// Whether prototypes are in order, in time linear in them and in the cells that functions hold.
pub(crate) fn are_valid(protos: &[Proto]) -> bool
    ensures { IsTrue result ↔ AreValid protos.now }
{
    let Some(main) = protos.last() else {
        return false;
    };
    if !main.captures().is_empty() {
        return false;
    }
    for own in 0..protos.len() {
        if !is_sound(protos, own, &protos[own]) {
            return false;
        }
    }
    true
}

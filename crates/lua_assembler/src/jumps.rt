//! Jumps, on and back. One back is put down before what it jumps over, and gets its length when that
//! is there.

ghost use Rattle.std.specs.Prelude.{[], ◌∷◌, ◌++◌, ◌<◌, length, OnOk};
ghost use Rattle.lua_code.specs.Instr as i;
ghost use Rattle.lua_code.specs.Code.{skip_over};
ghost use Rattle.lua_code.specs.View.{site_view};
ghost use Rattle.lua_assembler.specs.Writing.{Adds, code_of};
ghost use Rattle.lua_assembler.specs.Jumps.{back_view, Mends, Fronts};

use crate::Writer;
use crate::control::skip;
use love_base::Memory;
use lua_code::{Instr, Site};

/// A jump back to the head of a loop.
#[derive(Clone, Copy)]
pub enum Back {
    /// Where a slot is true.
    If(u32),
    /// Where a slot is false or nil.
    Unless(u32),
    /// Where a numeric loop has another turn: the first slot of the loop (Lua 5.1 manual §2.4.5).
    ForNext(u32),
    /// Where a generic loop has another turn: the first slot of the loop (Lua 5.1 manual §2.4.5).
    EachNext(u32),
}

/// A jump back whose length is to come: [`mend_back`] gives it.
///
/// # Errors
///
/// [`Memory`] where there is no room for it.
#[tactic(auto, using(crate::proofs::Adding::one_put))]
pub fn put_back(w: &mut Writer, site: Site, back: Back) -> Result<(), Memory>
    ensures { OnOk result (Adds (back_view back 0 ∷ []) w.old w.new) }
{
    match back {
        Back::If(from) => w.put(Instr::BackIf { from, count: 0 }, site),
        Back::Unless(from) => w.put(Instr::BackUnless { from, count: 0 }, site),
        Back::ForNext(at) => w.put(Instr::ForNext { at, count: 0 }, site),
        Back::EachNext(at) => w.put(Instr::EachNext { at, count: 0 }, site),
    }
}

/// The jump back at the end of what was put down since `end` instructions were there gets its length:
/// it jumps to the first of them.
///
/// # Errors
///
/// [`Memory`] where that is more than a jump counts.
pub fn mend_back(w: &mut Writer, end: usize, back: Back) -> Result<(), Memory>
    requires { end < length (code_of w.old) }
    ensures { OnOk result (Mends (back_view back) end w.old w.new) }
{
    let count = w.since(end)?.saturating_sub(1);
    match back {
        Back::If(from) => w.replace(end, Instr::BackIf { from, count }),
        Back::Unless(from) => w.replace(end, Instr::BackUnless { from, count }),
        Back::ForNext(at) => w.replace(end, Instr::ForNext { at, count }),
        Back::EachNext(at) => w.replace(end, Instr::EachNext { at, count }),
    }
    Ok(())
}

/// A jump over what was put down since `end` instructions were there, where there is anything.
///
/// # Errors
///
/// [`Memory`] where there is no room for it, or it is longer than a jump counts.
pub fn put_skip_over(w: &mut Writer, site: Site, end: usize) -> Result<(), Memory>
    ensures { OnOk result (Fronts (λ rest. skip_over rest ++ rest) end w.old w.new) }
{
    let count = w.since(end)?;
    if count == 0 {
        Ok(())
    } else {
        skip(w, site, count)
    }
}

/// The numbers of a numeric loop, in three slots from `at` on, are tested; its first turn begins, or
/// `count` instructions are jumped over (Lua 5.1 manual §2.4.5).
///
/// # Errors
///
/// [`Memory`] where there is no room for it.
#[tactic(auto, using(crate::proofs::Adding::one_put))]
pub fn for_begin(w: &mut Writer, site: Site, at: u32, count: u32) -> Result<(), Memory>
    ensures { OnOk result (Adds (i.for_begin (site_view site) at count ∷ []) w.old w.new) }
{
    w.put(Instr::ForBegin { at, count }, site)
}

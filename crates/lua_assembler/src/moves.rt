//! Instructions that bring values to slots and cells: constants, locals, functions, extra arguments.

ghost use Rattle.std.specs.Prelude.{[], ◌∷◌, ◌<◌, length, OnOk};
ghost use Rattle.lua_code.specs.Instr as i;
ghost use Rattle.lua_code.specs.Instr.{slot, constant as known};
ghost use Rattle.lua_code.specs.View.{constant_view, inner_at};
ghost use Rattle.lua_assembler.specs.Writing.{Adds, made_of};

use crate::Writer;
use love_base::Memory;
use lua_code::{Constant, Instr, Site};

/// A slot gets what is in another one.
///
/// # Errors
///
/// [`Memory`] where there is no room for it.
#[tactic(auto, using(crate::proofs::Adding::one_put))]
pub fn load_slot(w: &mut Writer, site: Site, to: u32, from: u32) -> Result<(), Memory>
    ensures { OnOk result (Adds (i.load to (slot from) ∷ []) w.old w.new) }
{
    w.put(Instr::Move { to, from }, site)
}

/// A slot gets a constant, which becomes one of the function's.
///
/// # Errors
///
/// [`Memory`] where there is no room for it, or no number for the constant.
#[tactic(auto, using(crate::proofs::Adding::behind_known, crate::proofs::Adding::last_known))]
pub fn load_constant(w: &mut Writer, site: Site, to: u32, constant: Constant) -> Result<(), Memory>
    ensures { OnOk result (Adds (i.load to (known (constant_view constant)) ∷ []) w.old w.new) }
{
    let constant = w.constant(constant)?;
    w.put(Instr::Const { to, constant }, site)
}

// A slot gets what a cell holds.
#[tactic(auto, using(crate::proofs::Adding::one_put))]
pub(crate) fn get_cell(w: &mut Writer, site: Site, to: u32, cell: u32) -> Result<(), Memory>
    ensures { OnOk result (Adds (i.get_cell to cell ∷ []) w.old w.new) }
{
    w.put(Instr::GetCell { to, cell }, site)
}

/// A cell gets what is in a slot.
///
/// # Errors
///
/// [`Memory`] where there is no room for it.
#[tactic(auto, using(crate::proofs::Adding::one_put))]
pub fn set_cell(w: &mut Writer, site: Site, cell: u32, from: u32) -> Result<(), Memory>
    ensures { OnOk result (Adds (i.set_cell cell (slot from) ∷ []) w.old w.new) }
{
    w.put(Instr::SetCell { cell, from }, site)
}

/// A captured local gets its new cell, with what is in a slot.
///
/// # Errors
///
/// [`Memory`] where there is no room for it.
#[tactic(auto, using(crate::proofs::Adding::one_put))]
pub fn new_cell(w: &mut Writer, site: Site, cell: u32, from: u32) -> Result<(), Memory>
    ensures { OnOk result (Adds (i.new_cell cell from ∷ []) w.old w.new) }
{
    w.put(Instr::NewCell { cell, from }, site)
}

/// A slot gets a new function, of the number that [`Writer::close`] gave.
///
/// # Errors
///
/// [`Memory`] where there is no room for it.
#[tactic(auto, using(crate::proofs::Adding::one_put))]
pub fn close(w: &mut Writer, site: Site, to: u32, proto: u32) -> Result<(), Memory>
    requires { proto < length w.old.protos }
    ensures { OnOk result (Adds (i.close to (inner_at (made_of w.old) proto).code
        (inner_at (made_of w.old) proto).captures ∷ []) w.old w.new) }
{
    w.put(Instr::Close { to, proto }, site)
}

// A slot gets the first extra argument.
#[tactic(auto, using(crate::proofs::Adding::one_put))]
pub(crate) fn first_extra(w: &mut Writer, site: Site, to: u32) -> Result<(), Memory>
    ensures { OnOk result (Adds (i.first_extra to ∷ []) w.old w.new) }
{
    w.put(Instr::FirstExtra { to }, site)
}

// The tail gets the extra arguments.
#[tactic(auto, using(crate::proofs::Adding::one_put))]
pub(crate) fn all_extra(w: &mut Writer, site: Site) -> Result<(), Memory>
    ensures { OnOk result (Adds (i.all_extra ∷ []) w.old w.new) }
{
    w.put(Instr::AllExtra, site)
}

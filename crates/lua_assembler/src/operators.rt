//! The instructions of operators and fields (Lua 5.1 manual §2.3, §2.5), whose operands' code stands
//! before them.

ghost use Rattle.std.specs.Prelude.{◌≡◌, [], ◌∷◌, ◌+◌, ◌-◌, suc, length, OnOk};
ghost use Rattle.lua_tree.specs.View.{expr_view, unary_view, binary_view};
ghost use Rattle.lua_code.specs.Instr as i;
ghost use Rattle.lua_code.specs.Instr.{slot};
ghost use Rattle.lua_code.specs.Code.{name_code, site, settle, ready, ready_slot, place, slot_place};
ghost use Rattle.lua_code.specs.Scope.{seat_of};
ghost use Rattle.lua_code.specs.View.{site_view};
ghost use Rattle.lua_assembler.specs.Writing.{Adds, code_of, constants_of};
ghost use Rattle.lua_assembler.specs.Places.{place_view, IsKnown};

use crate::control::{skip_if, skip_unless};
use crate::fields::{get_field, get_global};
use crate::moves::{get_cell, load_slot};
use crate::operands::{left_slot, next, right_place, site_of};
use crate::place::Place;
use crate::{Scope, Seat, Writer};
use love_base::{Memory, Text};
use lua_code::{Instr, Site};
use lua_tree::{BinOp, Expr, UnOp};

/// What stands in a slot is brought to another one; nothing is put down where both are one.
///
/// # Errors
///
/// [`Memory`] where there is no room for it.
pub fn put_settle(
    w: &mut Writer,
    scope: &Scope,
    line: u32,
    to: u32,
    from: u32,
) -> Result<(), Memory>
    ensures { OnOk result (Adds (settle to from) w.old w.new) }
{
    if to == from {
        Ok(())
    } else {
        load_slot(w, site_of(scope, line, from), to, from)
    }
}

/// The value of a name goes to a slot: a local, or a field of the globals (Lua 5.1 manual §2.3).
/// Nothing is needed from the slot `h` on.
///
/// # Errors
///
/// [`Memory`] where there is no room for it, or no number for a constant.
pub fn put_name(
    w: &mut Writer,
    scope: &Scope,
    line: u32,
    name: &Text,
    h: u32,
    to: u32,
) -> Result<(), Memory>
    ensures { OnOk result (Adds
        (name_code (site line h scope.now) name.now to (seat_of scope.now name.now)) w.old w.new) }
{
    let site = site_of(scope, line, h);
    let alloc = w.alloc();
    match scope.seat(name) {
        None => get_global(w, site, alloc, to, name),
        Some(Seat::Slot(slot)) => load_slot(w, site, to, slot),
        Some(Seat::Cell(cell)) => get_cell(w, site, to, cell),
    }
}

/// A field of a value goes to a slot (Lua 5.1 manual §2.3). Unless they are ready, the value stands in
/// the slot `h` and its key behind it.
///
/// # Errors
///
/// [`Memory`] where there is no room for it, or no number for a slot or a constant.
#[tactic(auto, using(crate::proofs::Adding::behind_nothing))]
pub fn put_index(
    w: &mut Writer,
    scope: &Scope,
    line: u32,
    base: &Expr,
    key: &Expr,
    h: u32,
    to: u32,
) -> Result<(), Memory>
    ensures { OnOk result (Adds (i.get_field (site line (h + 2) scope.now) to
        (slot (slot_place (ready_slot (expr_view base.now) scope.now) h))
        (place (ready (expr_view key.now) scope.now) (suc h)) ∷ []) w.old w.new) }
{
    let second = next(h)?;
    let site = site_of(scope, line, next(second)?);
    let place = right_place(w, scope, key, second)?;
    get_field(w, site, to, left_slot(scope, base, h), place)
}

// A unary operator on what is in a slot.
#[tactic(auto, using(crate::proofs::Adding::one_put))]
fn unary(w: &mut Writer, site: Site, op: UnOp, to: u32, from: u32) -> Result<(), Memory>
    ensures { OnOk result (Adds
        (i.unary (site_view site) (unary_view op) to (slot from) ∷ [])
        w.old w.new) }
{
    w.put(Instr::Unary { op, to, from }, site)
}

/// A unary operator's value goes to a slot (Lua 5.1 manual §2.5). Unless it is ready, its operand
/// stands in the slot `h`.
///
/// # Errors
///
/// [`Memory`] where there is no room for it, or a slot has no number.
pub fn put_unary(
    w: &mut Writer,
    scope: &Scope,
    line: u32,
    op: UnOp,
    operand: &Expr,
    h: u32,
    to: u32,
) -> Result<(), Memory>
    ensures { OnOk result (Adds (i.unary (site line (suc h) scope.now) (unary_view op) to
        (slot (slot_place (ready_slot (expr_view operand.now) scope.now) h)) ∷ []) w.old w.new) }
{
    let site = site_of(scope, line, next(h)?);
    unary(w, site, op, to, left_slot(scope, operand, h))
}

// A binary operator whose left operand is in a slot.
#[tactic(auto, using(crate::proofs::Adding::one_put))]
fn binary(
    w: &mut Writer,
    site: Site,
    op: BinOp,
    to: u32,
    left: u32,
    right: Place,
) -> Result<(), Memory>
    requires { IsKnown (constants_of w.old) right }
    ensures { OnOk result (Adds
        (i.binary (site_view site) (binary_view op) to (slot left) (place_view
        (constants_of w.old) right) ∷ [])
        w.old w.new) }
{
    match right {
        Place::Slot(right) => w.put(
            Instr::Binary {
                op,
                to,
                left,
                right,
            },
            site,
        ),
        Place::Constant(constant) => w.put(
            Instr::BinaryConst {
                op,
                to,
                left,
                constant,
            },
            site,
        ),
    }
}

/// The value of a binary operator that isn't `and` or `or` goes to a slot (Lua 5.1 manual §2.5).
/// Unless they are ready, its operands stand in the slot `h` and behind it.
///
/// # Errors
///
/// [`Memory`] where there is no room for it, or no number for a slot or a constant.
#[tactic(auto, using(crate::proofs::Adding::behind_nothing))]
pub fn put_binary(
    w: &mut Writer,
    scope: &Scope,
    line: u32,
    op: BinOp,
    left: &Expr,
    right: &Expr,
    h: u32,
    to: u32,
) -> Result<(), Memory>
    ensures { OnOk result (Adds (i.binary (site line (h + 2) scope.now) (binary_view op) to
        (slot (slot_place (ready_slot (expr_view left.now) scope.now) h))
        (place (ready (expr_view right.now) scope.now) (suc h)) ∷ []) w.old w.new) }
{
    let second = next(h)?;
    let site = site_of(scope, line, next(second)?);
    let place = right_place(w, scope, right, second)?;
    binary(w, site, op, to, left_slot(scope, left, h), place)
}

/// A jump over the instructions that are there since `before` of them were, where a slot is true.
///
/// # Errors
///
/// [`Memory`] where there is no room for it, or it is longer than a jump counts.
pub fn put_skip_if(
    w: &mut Writer,
    scope: &Scope,
    line: u32,
    from: u32,
    before: usize,
) -> Result<(), Memory>
    ensures { OnOk result
        (Adds (i.skip_if from (length (code_of w.old) - before) ∷ []) w.old w.new) }
{
    let count = w.since(before)?;
    skip_if(w, site_of(scope, line, from), from, count)
}

/// A jump over the instructions that are there since `before` of them were, where a slot is false or
/// nil.
///
/// # Errors
///
/// [`Memory`] where there is no room for it, or it is longer than a jump counts.
pub fn put_skip_unless(
    w: &mut Writer,
    scope: &Scope,
    line: u32,
    from: u32,
    before: usize,
) -> Result<(), Memory>
    ensures { OnOk result
        (Adds (i.skip_unless from (length (code_of w.old) - before) ∷ []) w.old w.new) }
{
    let count = w.since(before)?;
    skip_unless(w, site_of(scope, line, from), from, count)
}

//! Operands: what stands somewhere already, and what is evaluated first.

ghost use Rattle.std.specs.Prelude.{◌≡◌, [], suc, ◌+◌, None, IfOk, IfSome, OnOk};
ghost use Rattle.lua_tree.specs.View.{expr_view};
ghost use Rattle.lua_code.specs.Instr.{constant as known};
ghost use Rattle.lua_code.specs.Code.{ready, ready_seat, ready_slot, seat_slot, place, slot_place, site, is_many};
ghost use Rattle.lua_code.specs.Scope.{Scope as Locals, seat_of};
ghost use Rattle.lua_code.specs.View.{constant_view, site_view};
ghost use Rattle.lua_assembler.specs.Writing.{Adds, constants_of, MoreConstants};
ghost use Rattle.lua_assembler.specs.Places.{place_view, IsKnown, is_there};

use crate::place::Place;
use crate::{Scope, Seat, Writer};
use love_base::{Memory, Text};
use lua_code::{Constant, Site};
use lua_tree::{Expr, ExprKind};

/// What stands where an instruction can call or fail: its line, the slot from which on nothing is
/// needed, and the cells that the scope has.
pub fn site_of(scope: &Scope, line: u32, above: u32) -> Site
    ensures { site_view result ≡ site line above scope.now }
{
    Site {
        line,
        above,
        cells: scope.cells(),
    }
}

/// The slot behind one.
///
/// # Errors
///
/// [`Memory`] where it is past the last number of a slot.
pub fn next(slot: u32) -> Result<u32, Memory>
    ensures { IfOk result (λ n. n ≡ suc slot) }
{
    match slot.checked_add(1) {
        Some(next) => Ok(next),
        None => Err(Memory),
    }
}

/// The slot behind the one behind one.
///
/// # Errors
///
/// [`Memory`] where it is past the last number of a slot.
pub fn second_next(slot: u32) -> Result<u32, Memory>
    ensures { IfOk result (λ n. n ≡ slot + 2) }
{
    next(next(slot)?)
}

// A constant as an operand.
#[tactic(auto, using(crate::proofs::Adding::last_known, crate::proofs::Adding::none_added, crate::proofs::Adding::one_constant))]
fn constant_place(w: &mut Writer, constant: Constant) -> Result<Place, Memory>
    ensures same { OnOk result (Adds [] w.old w.new) }
    ensures known { IfOk result (λ found. IsKnown (constants_of w.new) found) }
    ensures grows { OnOk result (MoreConstants w.old w.new) }
    ensures place { IfOk result (λ found.
        place_view (constants_of w.new) found ≡ known (constant_view constant)) }
{
    Ok(Place::Constant(w.constant(constant)?))
}

// The slot of a local, or another one where it isn't in a slot.
fn slot_or(scope: &Scope, name: &Text, slot: u32) -> u32
    ensures { result ≡ slot_place (seat_slot (seat_of scope.now name.now)) slot }
{
    match scope.seat(name) {
        Some(Seat::Slot(own)) => own,
        _ => slot,
    }
}

// Where a right operand is: where it stands already, or in a slot where its code puts it.
pub(crate) fn right_place(
    w: &mut Writer,
    scope: &Scope,
    expr: &Expr,
    slot: u32,
) -> Result<Place, Memory>
    ensures same { OnOk result (Adds [] w.old w.new) }
    ensures known { IfOk result (λ found. IsKnown (constants_of w.new) found) }
    ensures grows { OnOk result (MoreConstants w.old w.new) }
    ensures place { IfOk result (λ found. place_view (constants_of w.new) found
        ≡ place (ready (expr_view expr.now) scope.now) slot) }
{
    match &expr.what {
        ExprKind::Nil => constant_place(w, Constant::Nil),
        ExprKind::True => constant_place(w, Constant::Bool(true)),
        ExprKind::False => constant_place(w, Constant::Bool(false)),
        ExprKind::Number(number) => constant_place(w, Constant::Num(*number)),
        ExprKind::Str(text) => constant_place(w, Constant::Str(text.copy(w.alloc())?)),
        ExprKind::Name(name) => Ok(Place::Slot(slot_or(scope, name, slot))),
        ExprKind::Dots
        | ExprKind::Function(_)
        | ExprKind::Index(_, _)
        | ExprKind::Call(_, _)
        | ExprKind::Method(_, _, _)
        | ExprKind::Table(_)
        | ExprKind::Unary(_, _)
        | ExprKind::Binary(_, _, _)
        | ExprKind::Paren(_) => Ok(Place::Slot(slot)),
    }
}

/// Whether a right operand stands somewhere already: a constant, or a local in a slot.
pub fn is_ready(scope: &Scope, expr: &Expr) -> bool
    ensures { result ≡ is_there (ready (expr_view expr.now) scope.now) }
{
    match &expr.what {
        ExprKind::Nil | ExprKind::True | ExprKind::False | ExprKind::Number(_) | ExprKind::Str(_) =>
            true,
        ExprKind::Name(name) => is_in_slot(scope, name),
        ExprKind::Dots
        | ExprKind::Function(_)
        | ExprKind::Index(_, _)
        | ExprKind::Call(_, _)
        | ExprKind::Method(_, _, _)
        | ExprKind::Table(_)
        | ExprKind::Unary(_, _)
        | ExprKind::Binary(_, _, _)
        | ExprKind::Paren(_) => false,
    }
}

// Whether a name is that of a local in a slot.
fn is_in_slot(scope: &Scope, name: &Text) -> bool
    ensures slot { result ≡ is_there (seat_slot (seat_of scope.now name.now)) }
    ensures ready { result ≡ is_there (ready_seat (seat_of scope.now name.now)) }
{
    matches!(scope.seat(name), Some(Seat::Slot(_)))
}

// The name that an expression is.
fn name_of(expr: &Expr) -> Option<&Text>
    ensures none { result ≡ None → (scope : Locals) → ready_slot (expr_view expr.now) scope ≡ None }
    ensures some { IfSome result (λ name. (scope : Locals) →
        ready_slot (expr_view expr.now) scope ≡ seat_slot (seat_of scope name.now)) }
{
    match &expr.what {
        ExprKind::Name(name) => Some(name),
        ExprKind::Nil
        | ExprKind::True
        | ExprKind::False
        | ExprKind::Number(_)
        | ExprKind::Str(_)
        | ExprKind::Dots
        | ExprKind::Function(_)
        | ExprKind::Index(_, _)
        | ExprKind::Call(_, _)
        | ExprKind::Method(_, _, _)
        | ExprKind::Table(_)
        | ExprKind::Unary(_, _)
        | ExprKind::Binary(_, _, _)
        | ExprKind::Paren(_) => None,
    }
}

/// The slot of a left operand: the one where it stands already, or `slot`, where its code puts it.
pub fn left_slot(scope: &Scope, expr: &Expr, slot: u32) -> u32
    ensures { result ≡ slot_place (ready_slot (expr_view expr.now) scope.now) slot }
{
    match name_of(expr) {
        Some(name) => slot_or(scope, name, slot),
        None => slot,
    }
}

/// Whether a left operand stands in a slot already.
pub fn is_ready_slot(scope: &Scope, expr: &Expr) -> bool
    ensures { result ≡ is_there (ready_slot (expr_view expr.now) scope.now) }
{
    match name_of(expr) {
        Some(name) => is_in_slot(scope, name),
        None => false,
    }
}

/// Whether an expression may have any number of values (Lua 5.1 manual §2.5).
pub fn is_many(expr: &Expr) -> bool
    ensures { result ≡ is_many (expr_view expr.now) }
{
    match &expr.what {
        ExprKind::Dots | ExprKind::Call(_, _) | ExprKind::Method(_, _, _) => true,
        ExprKind::Nil
        | ExprKind::True
        | ExprKind::False
        | ExprKind::Number(_)
        | ExprKind::Str(_)
        | ExprKind::Name(_)
        | ExprKind::Function(_)
        | ExprKind::Index(_, _)
        | ExprKind::Table(_)
        | ExprKind::Unary(_, _)
        | ExprKind::Binary(_, _, _)
        | ExprKind::Paren(_) => false,
    }
}

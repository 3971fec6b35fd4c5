// Assignments (Lua 5.1 manual §2.4.3).
ghost use Rattle.std.specs.Prelude.{◌≡◌, ℕ, ◌+◌, [], map, length, IfOk, IfSome, OnOk};
ghost use Rattle.lua_tree.specs.Tree as t;
ghost use Rattle.lua_tree.specs.View.{expr_view, exprs_of};
ghost use Rattle.lua_code.specs.Instr.{slot};
ghost use Rattle.lua_code.specs.Scope.{seat_of};
ghost use Rattle.lua_code.specs.View.{site_view};
ghost use Rattle.lua_code.specs.Code.{stat_code, target_code, targets_code, fitted, site, store, store_name, stores, own_slot, width, widths};
ghost use Rattle.lua_assembler.specs.Writing.{Adds};

use crate::expressions::{expr_code, exprs_code};
use love_base::{Memory, Text};
use lua_assembler::control::spread;
use lua_assembler::fields::{set_field, set_global};
use lua_assembler::lists::{count_of, is_tailed, slot_at, slots_of, sum};
use lua_assembler::moves::{load_slot, set_cell};
use lua_assembler::operands::{is_ready_slot, left_slot, next, site_of};
use lua_assembler::{Scope, Seat, Writer};
use lua_code::Site;
use lua_tree::{Expr, ExprKind};

// `a, b = c, d`: all parts of targets and all values are evaluated first, from the left on.
#[cycle(code)]
pub(crate) fn assign_code<'a>(
    w: &mut Writer,
    file: &'a Text,
    scope: &Scope<'a>,
    line: u32,
    targets: &'a [Expr],
    values: &'a [Expr],
) -> Result<(), Memory>
    ensures { OnOk result (Adds (stat_code (t.assign line (exprs_of (map expr_view targets.now))
        (exprs_of (map expr_view values.now))) [] 0 file.now scope.now) w.old w.new) }
{
    let at = scope.slots();
    if let Some(to) = own_slot(scope, targets, values) {
        return expr_code(w, file, scope, &values[0], at, to);
    }
    let from = parts_end(at, targets)?;
    put_stores(w, scope, targets, slot_at(from, targets.len())?, at, from)?;
    let site = site_of(scope, line, from);
    put_fitted(
        w,
        site,
        from,
        slots_of(targets.len())?,
        count_of(values)?,
        is_tailed(values),
    )?;
    exprs_code(w, file, scope, values, from)?;
    targets_code(w, file, scope, targets, from)
}

// Where one value is assigned to one local that stands in a slot, that slot.
fn own_slot(scope: &Scope, targets: &[Expr], values: &[Expr]) -> Option<u32>
    ensures slot { result ≡ own_slot (exprs_of (map expr_view targets.now))
        (exprs_of (map expr_view values.now)) scope.now }
    ensures one { IfSome result (λ to. length values.now ≡ 1) }
{
    if targets.len() != 1 || values.len() != 1 {
        return None;
    }
    let target = &targets[0];
    if is_ready_slot(scope, target) {
        Some(left_slot(scope, target, 0))
    } else {
        None
    }
}

// How many slots the parts of a target have.
fn width(target: &Expr) -> u32
    ensures { result ≡ width (expr_view target.now) }
{
    match &target.what {
        ExprKind::Index(_, _) => 2,
        ExprKind::Nil
        | ExprKind::True
        | ExprKind::False
        | ExprKind::Number(_)
        | ExprKind::Str(_)
        | ExprKind::Dots
        | ExprKind::Function(_)
        | ExprKind::Name(_)
        | ExprKind::Call(_, _)
        | ExprKind::Method(_, _, _)
        | ExprKind::Table(_)
        | ExprKind::Unary(_, _)
        | ExprKind::Binary(_, _, _)
        | ExprKind::Paren(_) => 0,
    }
}

// The slot behind the parts of a target that stand from one on.
pub(crate) fn target_slot(at: u32, target: &Expr) -> Result<u32, Memory>
    ensures { IfOk result (λ end. end ≡ at + width (expr_view target.now)) }
{
    sum(at, width(target))
}

// The slot behind the parts of targets that stand from one on.
fn parts_end(at: u32, targets: &[Expr]) -> Result<u32, Memory>
    ensures { IfOk result (λ end. end ≡ at + widths (exprs_of (map expr_view targets.now))) }
{
    let mut end = at;
    for target in targets {
        end = target_slot(end, target)?;
    }
    Ok(end)
}

// The parts of targets, in slots up to one.
#[cycle(code)]
fn targets_code<'a>(
    w: &mut Writer,
    file: &'a Text,
    scope: &Scope<'a>,
    targets: &'a [Expr],
    end: u32,
) -> Result<(), Memory>
    ensures { OnOk result ((h : ℕ) → end ≡ h + widths (exprs_of (map expr_view targets.now)) →
        Adds (targets_code (exprs_of (map expr_view targets.now)) file.now scope.now h) w.old w.new) }
{
    let mut at = targets.len();
    let mut h = end;
    'targets: while at > 0 {
        at -= 1;
        let target = &targets[at];
        h = h.saturating_sub(width(target));
        target_code(w, file, scope, target, h)?;
    }
    Ok(())
}

// The parts of a target, in slots from one on.
#[cycle(code)]
pub(crate) fn target_code<'a>(
    w: &mut Writer,
    file: &'a Text,
    scope: &Scope<'a>,
    target: &'a Expr,
    h: u32,
) -> Result<(), Memory>
    ensures { OnOk result (Adds
        (target_code (expr_view target.now) file.now scope.now h) w.old w.new) }
{
    match &target.what {
        ExprKind::Index(base, key) => {
            let second = next(h)?;
            expr_code(w, file, scope, key, second, second)?;
            expr_code(w, file, scope, base, h, h)
        }
        ExprKind::Nil
        | ExprKind::True
        | ExprKind::False
        | ExprKind::Number(_)
        | ExprKind::Str(_)
        | ExprKind::Dots
        | ExprKind::Function(_)
        | ExprKind::Name(_)
        | ExprKind::Call(_, _)
        | ExprKind::Method(_, _, _)
        | ExprKind::Table(_)
        | ExprKind::Unary(_, _)
        | ExprKind::Binary(_, _, _)
        | ExprKind::Paren(_) => Ok(()),
    }
}

// Slots get so many values where a list gives others.
pub(crate) fn put_fitted(
    w: &mut Writer,
    site: Site,
    at: u32,
    wanted: u32,
    given: u32,
    tailed: bool,
) -> Result<(), Memory>
    ensures { OnOk result (Adds (fitted at wanted given tailed) w.old w.new) }
{
    if wanted == given {
        return Ok(());
    }
    spread(
        w,
        site,
        sum(at, given)?,
        wanted.saturating_sub(given),
        tailed,
    )
}

// Targets get their values, the last one first. Their parts stand from `at` on, the values from
// `from` on.
fn put_stores(
    w: &mut Writer,
    scope: &Scope,
    targets: &[Expr],
    above: u32,
    mut at: u32,
    mut from: u32,
) -> Result<(), Memory>
    ensures { OnOk result (Adds
        (stores (exprs_of (map expr_view targets.now)) above scope.now at from) w.old w.new) }
{
    for target in targets {
        put_store(w, scope, target, above, at, from)?;
        at = target_slot(at, target)?;
        from = next(from)?;
    }
    Ok(())
}

// A target whose parts stand from `at` on gets the value at `from`.
pub(crate) fn put_store(
    w: &mut Writer,
    scope: &Scope,
    target: &Expr,
    above: u32,
    at: u32,
    from: u32,
) -> Result<(), Memory>
    ensures { OnOk result (Adds (store (expr_view target.now) above scope.now
        (slot at) (slot (at + 1)) (slot from)) w.old w.new) }
{
    let site = site_of(scope, target.line, above);
    match &target.what {
        ExprKind::Name(name) => put_store_name(w, site, scope, name, from),
        ExprKind::Index(_, _) => set_field(w, site, at, next(at)?, from),
        ExprKind::Nil
        | ExprKind::True
        | ExprKind::False
        | ExprKind::Number(_)
        | ExprKind::Str(_)
        | ExprKind::Dots
        | ExprKind::Function(_)
        | ExprKind::Call(_, _)
        | ExprKind::Method(_, _, _)
        | ExprKind::Table(_)
        | ExprKind::Unary(_, _)
        | ExprKind::Binary(_, _, _)
        | ExprKind::Paren(_) => Ok(()),
    }
}

// A variable gets the value at `from`.
fn put_store_name(
    w: &mut Writer,
    site: Site,
    scope: &Scope,
    name: &Text,
    from: u32,
) -> Result<(), Memory>
    ensures { OnOk result (Adds
        (store_name (site_view site) name.now (slot from) (seat_of scope.now name.now)) w.old w.new) }
{
    let alloc = w.alloc();
    match scope.seat(name) {
        None => set_global(w, site, alloc, name, from),
        Some(Seat::Slot(to)) => load_slot(w, site, to, from),
        Some(Seat::Cell(cell)) => set_cell(w, site, cell, from),
    }
}

//! The instructions of calls (Lua 5.1 manual §2.5.8), behind the code of what is called and of its
//! arguments.

ghost use Rattle.std.specs.Prelude.{◌≡◌, [], ◌∷◌, ◌+◌, suc, map, OnOk};
ghost use Rattle.lua_tree.specs.View.{expr_view, exprs_of};
ghost use Rattle.lua_meaning.specs.Value.{str};
ghost use Rattle.lua_code.specs.Instr as i;
ghost use Rattle.lua_code.specs.Instr.{slot, constant};
ghost use Rattle.lua_code.specs.Code.{site, settle, count, tailed};
ghost use Rattle.lua_assembler.specs.Writing.{Adds};

use crate::control::{invoke, invoke_all};
use crate::fields::get_named;
use crate::lists::{count_of, is_tailed};
use crate::operands::{next, site_of};
use crate::operators::put_settle;
use crate::{Scope, Writer};
use love_base::{Memory, Text};
use lua_tree::Expr;

// A call of what is in a slot, with so many arguments behind it; its first result goes to another.
#[tactic(auto, using(crate::proofs::Adding::one_in_front))]
fn put_invoke(
    w: &mut Writer,
    scope: &Scope,
    line: u32,
    count: u32,
    tailed: bool,
    h: u32,
    to: u32,
) -> Result<(), Memory>
    ensures { OnOk result (Adds
        (i.invoke (site line h scope.now) (i.to_slot h) h count tailed ∷ settle to h)
        w.old w.new) }
{
    put_settle(w, scope, line, to, h)?;
    invoke(w, site_of(scope, line, h), h, h, count, tailed)
}

/// A call of the function in the slot `h`, with its arguments behind it; its first result goes to a
/// slot.
///
/// # Errors
///
/// [`Memory`] where there is no room for it, or a slot has no number.
pub fn put_call(
    w: &mut Writer,
    scope: &Scope,
    line: u32,
    args: &[Expr],
    h: u32,
    to: u32,
) -> Result<(), Memory>
    ensures { OnOk result (Adds (i.invoke (site line h scope.now) (i.to_slot h) h
        (count (exprs_of (map expr_view args.now))) (tailed (exprs_of (map expr_view args.now)))
        ∷ settle to h) w.old w.new) }
{
    put_invoke(w, scope, line, count_of(args)?, is_tailed(args), h, to)
}

/// A call of the method in the slot `h`. The object stands behind it, and the arguments behind that; its
/// first result goes to a slot.
///
/// # Errors
///
/// [`Memory`] where there is no room for it, or a slot has no number.
pub fn put_method_call(
    w: &mut Writer,
    scope: &Scope,
    line: u32,
    args: &[Expr],
    h: u32,
    to: u32,
) -> Result<(), Memory>
    ensures { OnOk result (Adds (i.invoke (site line h scope.now) (i.to_slot h) h
        (suc (count (exprs_of (map expr_view args.now))))
        (tailed (exprs_of (map expr_view args.now))) ∷ settle to h) w.old w.new) }
{
    put_invoke(
        w,
        scope,
        line,
        next(count_of(args)?)?,
        is_tailed(args),
        h,
        to,
    )
}

/// A call of the function in the slot `h` whose results all go to the tail.
///
/// # Errors
///
/// [`Memory`] where there is no room for it, or a slot has no number.
pub fn put_tail_call(
    w: &mut Writer,
    scope: &Scope,
    line: u32,
    args: &[Expr],
    h: u32,
) -> Result<(), Memory>
    ensures { OnOk result (Adds (i.invoke (site line h scope.now) i.to_tail h
        (count (exprs_of (map expr_view args.now))) (tailed (exprs_of (map expr_view args.now)))
        ∷ []) w.old w.new) }
{
    invoke_all(
        w,
        site_of(scope, line, h),
        h,
        count_of(args)?,
        is_tailed(args),
    )
}

/// A call of the method in the slot `h` whose results all go to the tail.
///
/// # Errors
///
/// [`Memory`] where there is no room for it, or a slot has no number.
pub fn put_method_tail_call(
    w: &mut Writer,
    scope: &Scope,
    line: u32,
    args: &[Expr],
    h: u32,
) -> Result<(), Memory>
    ensures { OnOk result (Adds (i.invoke (site line h scope.now) i.to_tail h
        (suc (count (exprs_of (map expr_view args.now))))
        (tailed (exprs_of (map expr_view args.now))) ∷ []) w.old w.new) }
{
    let count = next(count_of(args)?)?;
    invoke_all(w, site_of(scope, line, h), h, count, is_tailed(args))
}

/// A method of the object in the slot behind `h` goes to the slot `h`.
///
/// # Errors
///
/// [`Memory`] where there is no room for it, or no number for a slot or a constant.
pub fn put_method(
    w: &mut Writer,
    scope: &Scope,
    line: u32,
    name: &Text,
    h: u32,
) -> Result<(), Memory>
    ensures { OnOk result (Adds (i.get_field (site line (h + 2) scope.now) h (slot (suc h))
        (constant (str name.now)) ∷ []) w.old w.new) }
{
    let second = next(h)?;
    let site = site_of(scope, line, next(second)?);
    let alloc = w.alloc();
    get_named(w, site, alloc, h, second, name)
}

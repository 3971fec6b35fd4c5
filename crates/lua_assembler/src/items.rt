//! The instructions that give a table its fields (Lua 5.1 manual §2.5.7), behind the code of their
//! parts.

ghost use Rattle.std.specs.Prelude.{◌≡◌, [], ◌∷◌, ◌+◌, suc, OnOk};
ghost use Rattle.lua_tree.specs.View.{expr_view};
ghost use Rattle.lua_code.specs.Instr as i;
ghost use Rattle.lua_code.specs.Code.{site, ready, place};
ghost use Rattle.lua_assembler.specs.Writing.{Adds};

use crate::fields::{set_item, set_new, set_rest};
use crate::operands::{next, right_place, second_next, site_of};
use crate::{Scope, Writer};
use love_base::Memory;
use lua_tree::Expr;

/// The table in a slot gets its item of a number, which stands in the slot behind it unless it is
/// ready.
///
/// # Errors
///
/// [`Memory`] where there is no room for it, or no number for a slot or a constant.
#[tactic(auto, using(crate::proofs::Adding::behind_nothing))]
pub fn put_item(
    w: &mut Writer,
    scope: &Scope,
    line: u32,
    value: &Expr,
    number: u32,
    table: u32,
) -> Result<(), Memory>
    ensures { OnOk result (Adds (i.set_item table number
        (place (ready (expr_view value.now) scope.now) (suc table)) ∷ []) w.old w.new) }
{
    let place = right_place(w, scope, value, next(table)?)?;
    set_item(w, site_of(scope, line, table), table, number, place)
}

/// The table in a slot gets the values in the tail, as items from a number on.
///
/// # Errors
///
/// [`Memory`] where there is no room for it.
pub fn put_rest(
    w: &mut Writer,
    scope: &Scope,
    line: u32,
    number: u32,
    table: u32,
) -> Result<(), Memory>
    ensures { OnOk result (Adds (i.set_rest table number ∷ []) w.old w.new) }
{
    set_rest(w, site_of(scope, line, table), table, number)
}

/// The table in a slot gets a field. Unless they are ready, its key and its value stand in the two
/// slots behind it.
///
/// # Errors
///
/// [`Memory`] where there is no room for it, or no number for a slot or a constant.
pub fn put_pair(
    w: &mut Writer,
    scope: &Scope,
    line: u32,
    key: &Expr,
    value: &Expr,
    table: u32,
) -> Result<(), Memory>
    ensures { OnOk result (Adds (i.set_new (site line (table + 3) scope.now) table
        (place (ready (expr_view key.now) scope.now) (suc table))
        (place (ready (expr_view value.now) scope.now) (table + 2)) ∷ []) w.old w.new) }
{
    let third = second_next(table)?;
    let site = site_of(scope, line, next(third)?);
    let key = right_place(w, scope, key, next(table)?)?;
    let value = right_place(w, scope, value, third)?;
    set_new(w, site, table, key, value)
}

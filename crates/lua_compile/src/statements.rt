// Statements (Lua 5.1 manual §2.4).
ghost use Rattle.std.specs.Prelude.{◌≡◌, [], map, OnOk};
ghost use Rattle.lua_tree.specs.Tree as t;
ghost use Rattle.lua_tree.specs.View.{expr_view, func_view, stat_view, exprs_of};
ghost use Rattle.lua_code.specs.Code.{stat_code, local_code};
ghost use Rattle.lua_code.specs.Scope.{seat_of};
ghost use Rattle.lua_assembler.specs.Writing.{Adds};
ghost use Rattle.lua_compile.specs.Locals.{TakesStat};

use crate::assignments::{assign_code, put_fitted, put_store, target_code, target_slot};
use crate::blocks::block_code;
use crate::branches::if_code;
use crate::expressions::{expr_code, exprs_code};
use crate::functions::function_code;
use crate::locals::put_cells;
use crate::loops::{generic_code, numeric_code, repeat_code, while_code};
use love_base::{Memory, Text};
use lua_assembler::control::{leave, skip};
use lua_assembler::lists::{count_of, is_tailed, slots_of};
use lua_assembler::moves::{load_constant, set_cell};
use lua_assembler::operands::{next, site_of};
use lua_assembler::{Scope, Seat, Writer};
use lua_code::Constant;
use lua_tree::{Expr, Func, Stat, StatKind};

// The code of a statement whose locals are the last ones in scope; they go out of it. `exit` is how
// many instructions stand behind it up to the end of the loop around it.
#[cycle(code)]
pub(crate) fn stat_code<'a>(
    w: &mut Writer,
    file: &'a Text,
    scope: &mut Scope<'a>,
    stat: &'a Stat,
    exit: u32,
) -> Result<(), Memory>
    ensures { OnOk result
        (TakesStat (stat_view stat.now) exit file.now scope.old scope.new w.old w.new) }
{
    let line = stat.line;
    match &stat.what {
        StatKind::Assign(targets, values) => {
            assign_code(w, file, scope, line, targets.as_slice(), values.as_slice())
        }
        StatKind::Local(names, values) => {
            local_code(w, file, scope, line, names.as_slice(), values.as_slice())
        }
        StatKind::Call(call) => {
            let h = scope.slots();
            expr_code(w, file, scope, call, h, h)
        }
        StatKind::Do(block) => block_code(w, file, scope, block, exit),
        StatKind::While(test, block) => while_code(w, file, scope, line, test, block),
        StatKind::Repeat(block, test) => repeat_code(w, file, scope, line, block, test),
        StatKind::If(arms, last) => if_code(w, file, scope, arms.as_slice(), last, exit),
        StatKind::NumFor(name, first, limit, step, block) => {
            numeric_code(w, file, scope, line, name, first, limit, step, block)
        }
        StatKind::GenFor(names, values, block) => {
            generic_code(
                w,
                file,
                scope,
                line,
                names.as_slice(),
                values.as_slice(),
                block,
            )
        }
        StatKind::Function(target, func) => {
            function_stat_code(w, file, scope, line, target, func)
        }
        StatKind::LocalFunction(name, func) => {
            local_function_code(w, file, scope, line, name, func)
        }
        StatKind::Return(values) => return_code(w, file, scope, line, values.as_slice()),
        StatKind::Break => {
            let above = scope.slots();
            skip(w, site_of(scope, line, above), exit)
        }
    }
}

// `local a, b = c, d`
#[cycle(code)]
fn local_code<'a>(
    w: &mut Writer,
    file: &'a Text,
    scope: &mut Scope<'a>,
    line: u32,
    names: &'a [Text],
    values: &'a [Expr],
) -> Result<(), Memory>
    ensures { OnOk result (TakesStat (t.local line names.now (exprs_of (map expr_view values.now)))
        0 file.now scope.old scope.new w.old w.new) }
{
    put_cells(w, scope, line, names.len())?;
    let at = scope.slots();
    let site = site_of(scope, line, at);
    put_fitted(
        w,
        site,
        at,
        slots_of(names.len())?,
        count_of(values)?,
        is_tailed(values),
    )?;
    exprs_code(w, file, scope, values, at)
}

// `function a.b:c() end`
#[cycle(code)]
fn function_stat_code<'a>(
    w: &mut Writer,
    file: &'a Text,
    scope: &Scope<'a>,
    line: u32,
    target: &'a Expr,
    func: &'a Func,
) -> Result<(), Memory>
    ensures { OnOk result (Adds
        (stat_code (t.function_stat line (expr_view target.now) (func_view func.now)) [] 0 file.now
        scope.now) w.old w.new) }
{
    let at = scope.slots();
    let from = target_slot(at, target)?;
    put_store(w, scope, target, next(from)?, at, from)?;
    function_code(w, file, scope, line, func, from)?;
    target_code(w, file, scope, target, at)
}

// `local function f() end`
#[cycle(code)]
fn local_function_code<'a>(
    w: &mut Writer,
    file: &'a Text,
    scope: &mut Scope<'a>,
    line: u32,
    name: &'a Text,
    func: &'a Func,
) -> Result<(), Memory>
    ensures { OnOk result (TakesStat (t.local_function line name.now (func_view func.now))
        0 file.now scope.old scope.new w.old w.new) }
{
    let at = scope.slots().saturating_sub(1);
    put_local(w, scope, line, name, at)?;
    function_code(w, file, scope, line, func, at)?;
    put_cells(w, scope, line, 1)?;
    load_constant(w, site_of(scope, line, at), at, Constant::Nil)
}

// A function that stands in its local's slot gets into the local's cell too.
fn put_local(w: &mut Writer, scope: &Scope, line: u32, name: &Text, from: u32) -> Result<(), Memory>
    ensures { OnOk result (Adds (local_code (seat_of scope.now name.now) from) w.old w.new) }
{
    match scope.seat(name) {
        Some(Seat::Cell(cell)) => set_cell(w, site_of(scope, line, from), cell, from),
        _ => Ok(()),
    }
}

// `return a, b`
#[cycle(code)]
fn return_code<'a>(
    w: &mut Writer,
    file: &'a Text,
    scope: &Scope<'a>,
    line: u32,
    values: &'a [Expr],
) -> Result<(), Memory>
    ensures { OnOk result (Adds
        (stat_code (t.return_stat line (exprs_of (map expr_view values.now))) [] 0 file.now
        scope.now) w.old w.new) }
{
    let h = scope.slots();
    leave(
        w,
        site_of(scope, line, h),
        h,
        count_of(values)?,
        is_tailed(values),
    )?;
    exprs_code(w, file, scope, values, h)
}

// Loops (Lua 5.1 manual §2.4.4, §2.4.5).
ghost use Rattle.std.specs.Prelude.{◌≡◌, [], ◌∷◌, ◌++◌, ◌+◌, map, OnOk};
ghost use Rattle.lua_tree.specs.Tree as t;
ghost use Rattle.lua_tree.specs.View.{expr_view, block_view, exprs_of, num_for_of};
ghost use Rattle.lua_meaning.specs.Names.{captured_in};
ghost use Rattle.lua_code.specs.Scope.{slot_count, declared, declare_code};
ghost use Rattle.lua_code.specs.View.{site_view};
ghost use Rattle.lua_code.specs.Code.{stat_code, block_code, numbers_in, count_code, each_code, site};
ghost use Rattle.lua_compile.specs.Loops.{step_code, turn_code};
ghost use Rattle.lua_upvalues.specs.Parts.{expr_option};
ghost use Rattle.lua_assembler.specs.Writing.{Adds};

use crate::assignments::put_fitted;
use crate::blocks::{block_code, stats_code};
use crate::expressions::{expr_code, exprs_code, left_code};
use crate::locals::{enter_repeat, enter_turn, leave_numbers, put_cells};
use love_base::{Memory, Text};
use lua_assembler::control::{invoke_all, skip, spread, tick};
use lua_assembler::jumps::{Back, for_begin, mend_back, put_back};
use lua_assembler::lists::{count_of, is_tailed, slot_at, slots_of};
use lua_assembler::moves::{load_constant, load_slot};
use lua_assembler::operands::{left_slot, next, site_of};
use lua_assembler::{Scope, Writer};
use lua_code::{Constant, Site};
use lua_tree::{Block, Expr};
use lua_value::Num;
use std::slice;

// `while a do end`
#[cycle(code)]
pub(crate) fn while_code<'a>(
    w: &mut Writer,
    file: &'a Text,
    scope: &mut Scope<'a>,
    line: u32,
    test: &'a Expr,
    block: &'a Block,
) -> Result<(), Memory>
    ensures scope { OnOk result (scope.new ≡ scope.old) }
    ensures code { OnOk result (Adds (stat_code
        (t.while_loop line (expr_view test.now) (block_view block.now)) [] 0 file.now scope.old)
        w.old w.new) }
{
    let h = scope.slots();
    let site = site_of(scope, line, h);
    let back = Back::If(left_slot(scope, test, h));
    let end = w.len();
    put_back(w, site, back)?;
    left_code(w, file, scope, test, h)?;
    let head = w.len();
    block_code(w, file, scope, block, w.since(end)?)?;
    mend_back(w, end, back)?;
    skip(w, site, w.since(head)?)
}

// `repeat until a`
#[cycle(code)]
pub(crate) fn repeat_code<'a>(
    w: &mut Writer,
    file: &'a Text,
    scope: &mut Scope<'a>,
    line: u32,
    block: &'a Block,
    test: &'a Expr,
) -> Result<(), Memory>
    ensures scope { OnOk result (scope.new ≡ scope.old) }
    ensures code { OnOk result (Adds (stat_code
        (t.repeat_loop line (block_view block.now) (expr_view test.now)) [] 0 file.now scope.old)
        w.old w.new) }
{
    enter_repeat(w.alloc(), scope, block, test)?;
    let h = scope.slots();
    let back = Back::Unless(left_slot(scope, test, h));
    let end = w.len();
    put_back(w, site_of(scope, test.line, h), back)?;
    left_code(w, file, scope, test, h)?;
    stats_code(w, file, scope, block, w.since(end)?)?;
    mend_back(w, end, back)?;
    let above = scope.slots();
    tick(w, site_of(scope, line, above))
}

// `for x = a, b, c do end`
#[cycle(code)]
pub(crate) fn numeric_code<'a>(
    w: &mut Writer,
    file: &'a Text,
    scope: &mut Scope<'a>,
    line: u32,
    name: &'a Text,
    first: &'a Expr,
    limit: &'a Expr,
    step: &'a Option<Expr>,
    block: &'a Block,
) -> Result<(), Memory>
    ensures scope { OnOk result (scope.new ≡ scope.old) }
    ensures code { OnOk result (Adds (stat_code (num_for_of name.now (expr_view first.now)
        (expr_view limit.now) (expr_option step.now) (block_view block.now) line) [] 0 file.now
        scope.old) w.old w.new) }
{
    let h = scope.slots();
    let second = next(h)?;
    count_code(w, file, scope, line, name, block)?;
    step_code(w, file, scope, line, step, next(second)?)?;
    expr_code(w, file, scope, limit, second, second)?;
    expr_code(w, file, scope, first, h, h)
}

// The step of a numeric loop, which is 1 where there is none.
#[cycle(code)]
fn step_code<'a>(
    w: &mut Writer,
    file: &'a Text,
    scope: &Scope<'a>,
    line: u32,
    step: &'a Option<Expr>,
    to: u32,
) -> Result<(), Memory>
    ensures { OnOk result
        (Adds (step_code (expr_option step.now) file.now scope.now to) w.old w.new) }
{
    match step {
        None => {
            let one = Num::new(1).unwrap();
            load_constant(w, site_of(scope, line, to), to, Constant::Num(one))
        }
        Some(step) => expr_code(w, file, scope, step, to, to),
    }
}

// The turns of a numeric loop, whose numbers stand from the first free slot on.
#[cycle(code)]
fn count_code<'a>(
    w: &mut Writer,
    file: &'a Text,
    scope: &mut Scope<'a>,
    line: u32,
    name: &'a Text,
    block: &'a Block,
) -> Result<(), Memory>
    ensures scope { OnOk result (scope.new ≡ scope.old) }
    ensures code { OnOk result (Adds (count_code (site line (slot_count scope.old + 3) scope.old)
        (slot_count scope.old)
        (turn_code (name.now ∷ []) (block_view block.now) 1 file.now scope.old)) w.old w.new) }
{
    let h = scope.slots();
    let site = site_of(scope, line, slot_at(h, 3)?);
    let end = w.len();
    put_back(w, site, Back::ForNext(h))?;
    turn_code(w, file, scope, line, slice::from_ref(name), block, 1)?;
    mend_back(w, end, Back::ForNext(h))?;
    for_begin(w, site, h, w.since(end)?)
}

// A turn of a `for`, whose locals stand behind the loop's three slots.
#[cycle(code)]
fn turn_code<'a>(
    w: &mut Writer,
    file: &'a Text,
    scope: &mut Scope<'a>,
    line: u32,
    names: &'a [Text],
    block: &'a Block,
    exit: u32,
) -> Result<(), Memory>
    ensures scope { OnOk result (scope.new ≡ scope.old) }
    ensures code { OnOk result (Adds
        (turn_code names.now (block_view block.now) exit file.now scope.old) w.old w.new) }
{
    enter_turn(w.alloc(), scope, names, block)?;
    block_code(w, file, scope, block, exit)?;
    put_cells(w, scope, line, names.len())?;
    leave_numbers(scope);
    Ok(())
}

// `for x, y in a, b do end`
#[cycle(code)]
pub(crate) fn generic_code<'a>(
    w: &mut Writer,
    file: &'a Text,
    scope: &mut Scope<'a>,
    line: u32,
    names: &'a [Text],
    values: &'a [Expr],
    block: &'a Block,
) -> Result<(), Memory>
    ensures scope { OnOk result (scope.new ≡ scope.old) }
    ensures code { OnOk result (Adds (stat_code (t.gen_for line names.now
        (exprs_of (map expr_view values.now)) (block_view block.now)) [] 0 file.now scope.old)
        w.old w.new) }
{
    let h = scope.slots();
    let site = site_of(scope, line, slot_at(h, 3)?);
    let end = w.len();
    put_back(w, site, Back::EachNext(h))?;
    put_each(w, site, h, slots_of(names.len())?)?;
    let head = w.len();
    turn_code(w, file, scope, line, names, block, w.since(end)?)?;
    mend_back(w, end, Back::EachNext(h))?;
    skip(w, site, w.since(head)?)?;
    put_fitted(w, site, h, 3, count_of(values)?, is_tailed(values))?;
    exprs_code(w, file, scope, values, h)
}

// The control of a generic loop: a call of its function with its state and its variable, whose
// results the locals of the turn get.
#[tactic(auto, using(lua_assembler::proofs::Adding::both_added))]
fn put_each(w: &mut Writer, site: Site, at: u32, names: u32) -> Result<(), Memory>
    ensures { OnOk result (Adds (each_code (site_view site) at names) w.old w.new) }
{
    let state = next(at)?;
    let variable = next(state)?;
    let call = next(variable)?;
    let first = next(call)?;
    spread(w, site, call, names.max(1), true)?;
    invoke_all(w, site, call, 2, false)?;
    load_slot(w, site, next(first)?, variable)?;
    load_slot(w, site, first, state)?;
    load_slot(w, site, call, at)
}

//! The names that statements use from outside themselves (Lua 5.1 manual §2.6).

ghost use Rattle.std.specs.Prelude.{◌≡◌, [], ◌++◌, map, OnOk};
ghost use Rattle.lua_tree.specs.View.{arm_view, stat_view, arms_of, else_of};
ghost use Rattle.lua_meaning.specs.Names.{stat_names, arms_names};
ghost use Rattle.lua_upvalues.specs.Parts.{block_option, expr_option, option_names, ArmsNames};

use crate::blocks::{block_apart, block_names, inner_names};
use crate::expressions::{expr_names, exprs_names, func_names};
use crate::name_list::Names;
use love_base::Memory;
use lua_tree::{Arm, Block, Expr, Stat, StatKind};
use std::slice;

/// Makes the names of what follows a statement in its block those of both, with `here` as in
/// [`expr_names`](crate::expr_names): a local that it declares leaves its name out of those behind
/// it.
///
/// # Errors
///
/// [`Memory`] where there is no room for them.
#[cycle(names)]
pub fn stat_names<'a>(names: &mut Names<'a>, here: bool, stat: &'a Stat) -> Result<(), Memory>
    ensures { OnOk result (names.new ≡ stat_names here (stat_view stat.now) names.old) }
{
    match &stat.what {
        StatKind::Assign(targets, values) => {
            exprs_names(names, here, values.as_slice())?;
            exprs_names(names, here, targets.as_slice())
        }
        StatKind::Local(declared, values) => {
            names.leave_out(declared.as_slice())?;
            exprs_names(names, here, values.as_slice())
        }
        StatKind::Call(call) => expr_names(names, here, call),
        StatKind::Do(block) => block_apart(names, here, block),
        StatKind::While(test, block) => {
            block_apart(names, here, block)?;
            expr_names(names, here, test)
        }
        StatKind::Repeat(block, test) => {
            let mut inside = names.apart();
            expr_names(&mut inside, here, test)?;
            block_names(&mut inside, here, block)?;
            names.put_all(inside)
        }
        StatKind::If(arms, last) => {
            else_names(names, here, last)?;
            arms_names(names, here, arms.as_slice())
        }
        StatKind::NumFor(name, first, limit, step, block) => {
            inner_names(names, here, slice::from_ref(name), block)?;
            step_names(names, here, step)?;
            expr_names(names, here, limit)?;
            expr_names(names, here, first)
        }
        StatKind::GenFor(declared, values, block) => {
            inner_names(names, here, declared.as_slice(), block)?;
            exprs_names(names, here, values.as_slice())
        }
        StatKind::Function(target, func) => {
            func_names(names, func)?;
            expr_names(names, here, target)
        }
        StatKind::LocalFunction(name, func) => {
            func_names(names, func)?;
            names.leave_out(slice::from_ref(name))
        }
        StatKind::Return(values) => exprs_names(names, here, values.as_slice()),
        StatKind::Break => Ok(()),
    }
}

// Those of a numeric loop's step.
#[cycle(names)]
fn step_names<'a>(names: &mut Names<'a>, here: bool, step: &'a Option<Expr>) -> Result<(), Memory>
    ensures { OnOk result (names.new ≡ option_names here (expr_option step.now) ++ names.old) }
{
    match step {
        None => Ok(()),
        Some(step) => expr_names(names, here, step),
    }
}

// Those of what an `if` has behind `else`.
#[cycle(names)]
fn else_names<'a>(names: &mut Names<'a>, here: bool, last: &'a Option<Block>) -> Result<(), Memory>
    ensures { OnOk result
        (names.new ≡ arms_names here (else_of (block_option last.now)) ++ names.old) }
{
    match last {
        None => Ok(()),
        Some(block) => block_apart(names, here, block),
    }
}

// Those of the arms of an `if`, where those of what is behind `else` are there.
#[cycle(names)]
fn arms_names<'a>(names: &mut Names<'a>, here: bool, arms: &'a [Arm]) -> Result<(), Memory>
    ensures { OnOk result (ArmsNames here (arms_of (map arm_view arms.now)) names.old names.new) }
{
    let mut at = arms.len();
    'arms: while at > 0 {
        at -= 1;
        arm_names(names, here, &arms[at])?;
    }
    Ok(())
}

// Those of an arm.
#[cycle(names)]
fn arm_names<'a>(names: &mut Names<'a>, here: bool, arm: &'a Arm) -> Result<(), Memory>
    ensures { OnOk result (ArmsNames here (arm_view arm.now) names.old names.new) }
{
    block_apart(names, here, &arm.block)?;
    expr_names(names, here, &arm.test)
}

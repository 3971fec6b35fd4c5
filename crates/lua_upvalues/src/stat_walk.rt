//! Whether a function inside a statement uses too many locals of the functions around it.

ghost use Rattle.std.specs.Prelude.{◌≡◌, ◌++◌, None, map, MatchResult, OnOk};
ghost use Rattle.lua_tree.specs.Tree.{Arms};
ghost use Rattle.lua_tree.specs.View.{arm_view, stat_view, block_view, arms_of, else_of};
ghost use Rattle.lua_upvalues.specs.Parts.{block_option, expr_option};
ghost use Rattle.lua_upvalues.specs.Upvalues.{stat_fault, arms_fault, block_fault, option_fault, locals_behind, IsFault};

use crate::fault::UpvalueFault;
use crate::locals::Locals;
use crate::walk::{check_block, check_expr, check_exprs, check_func, check_stats};
use love_base::Text;
use lua_tree::{Arm, Block, Expr, Stat, StatKind};
use std::slice;

// The functions inside a statement, whose locals come into scope.
#[cycle(upvalues)]
#[tactic(auto, using(crate::proofs::UpvalueSteps::cut_block, crate::proofs::UpvalueSteps::cut_declared))]
pub(crate) fn check_stat<'a>(locals: &mut Locals<'a>, stat: &'a Stat) -> Result<(), UpvalueFault>
    ensures found { MatchResult result
        (λ _. stat_fault (stat_view stat.now) locals.old ≡ None)
        (λ fault. IsFault (stat_fault (stat_view stat.now) locals.old) fault) }
    ensures locals { OnOk result (locals.new ≡ locals_behind (stat_view stat.now) locals.old) }
{
    match &stat.what {
        StatKind::Assign(targets, values) => {
            check_exprs(locals, targets.as_slice())?;
            check_exprs(locals, values.as_slice())
        }
        StatKind::Local(names, values) => {
            check_exprs(locals, values.as_slice())?;
            locals.declare(names.as_slice())?;
            Ok(())
        }
        StatKind::Call(call) => check_expr(locals, call),
        StatKind::Do(block) => check_block(locals, block),
        StatKind::While(test, block) => {
            check_expr(locals, test)?;
            check_block(locals, block)
        }
        StatKind::Repeat(block, test) => {
            let outer = locals.len();
            check_stats(locals, block)?;
            check_expr(locals, test)?;
            locals.cut(outer);
            Ok(())
        }
        StatKind::If(arms, last) => {
            check_arms(locals, arms.as_slice())?;
            check_else(locals, last)
        }
        StatKind::NumFor(name, first, limit, step, block) => {
            check_expr(locals, first)?;
            check_expr(locals, limit)?;
            check_step(locals, step)?;
            check_turn(locals, slice::from_ref(name), block)
        }
        StatKind::GenFor(names, values, block) => {
            check_exprs(locals, values.as_slice())?;
            check_turn(locals, names.as_slice(), block)
        }
        StatKind::Function(target, func) => {
            check_expr(locals, target)?;
            check_func(locals, func)
        }
        StatKind::LocalFunction(name, func) => {
            locals.declare(slice::from_ref(name))?;
            check_func(locals, func)
        }
        StatKind::Return(values) => check_exprs(locals, values.as_slice()),
        StatKind::Break => Ok(()),
    }
}

// Those inside a loop's block, with the loop's variables in scope.
#[cycle(upvalues)]
#[tactic(auto, using(crate::proofs::UpvalueSteps::cut_block, crate::proofs::UpvalueSteps::cut_declared))]
fn check_turn<'a>(
    locals: &mut Locals<'a>,
    names: &'a [Text],
    block: &'a Block,
) -> Result<(), UpvalueFault>
    ensures found { MatchResult result
        (λ _. block_fault (block_view block.now) (locals.old ++ names.now) ≡ None)
        (λ fault. IsFault (block_fault (block_view block.now) (locals.old ++ names.now)) fault) }
    ensures same { OnOk result (locals.new ≡ locals.old) }
{
    let outer = locals.len();
    locals.declare(names)?;
    check_stats(locals, block)?;
    locals.cut(outer);
    Ok(())
}

// Those inside a numeric loop's step.
#[cycle(upvalues)]
fn check_step<'a>(locals: &mut Locals<'a>, step: &'a Option<Expr>) -> Result<(), UpvalueFault>
    ensures found { MatchResult result
        (λ _. option_fault (expr_option step.now) locals.old ≡ None)
        (λ fault. IsFault (option_fault (expr_option step.now) locals.old) fault) }
    ensures same { OnOk result (locals.new ≡ locals.old) }
{
    match step {
        None => Ok(()),
        Some(step) => check_expr(locals, step),
    }
}

// Those inside what an `if` has behind `else`.
#[cycle(upvalues)]
fn check_else<'a>(locals: &mut Locals<'a>, last: &'a Option<Block>) -> Result<(), UpvalueFault>
    ensures found { MatchResult result
        (λ _. arms_fault (else_of (block_option last.now)) locals.old ≡ None)
        (λ fault. IsFault (arms_fault (else_of (block_option last.now)) locals.old) fault) }
    ensures same { OnOk result (locals.new ≡ locals.old) }
{
    match last {
        None => Ok(()),
        Some(block) => check_block(locals, block),
    }
}

// Those inside the arms of an `if`, in front of those behind them.
#[cycle(upvalues)]
fn check_arms<'a>(locals: &mut Locals<'a>, arms: &'a [Arm]) -> Result<(), UpvalueFault>
    ensures found { MatchResult result
        (λ _. (last : Arms) → arms_fault (arms_of (map arm_view arms.now) last) locals.old
        ≡ arms_fault last locals.old)
        (λ fault. (last : Arms) → IsFault
        (arms_fault (arms_of (map arm_view arms.now) last) locals.old) fault) }
    ensures same { OnOk result (locals.new ≡ locals.old) }
{
    for arm in arms {
        check_arm(locals, arm)?;
    }
    Ok(())
}

// Those inside an arm, in front of those behind it.
#[cycle(upvalues)]
fn check_arm<'a>(locals: &mut Locals<'a>, arm: &'a Arm) -> Result<(), UpvalueFault>
    ensures found { MatchResult result
        (λ _. (rest : Arms) → arms_fault (arm_view arm.now rest) locals.old
        ≡ arms_fault rest locals.old)
        (λ fault. (rest : Arms) → IsFault (arms_fault (arm_view arm.now rest) locals.old)
        fault) }
    ensures same { OnOk result (locals.new ≡ locals.old) }
{
    check_expr(locals, &arm.test)?;
    check_block(locals, &arm.block)
}

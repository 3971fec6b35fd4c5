//! Whether a function uses too many locals of the functions around it (Lua 5.1 manual §2.6).

ghost use Rattle.std.specs.Prelude.{◌≡◌, [], None, map, MatchResult, OnOk};
ghost use Rattle.lua_tree.specs.Tree.{Fields};
ghost use Rattle.lua_tree.specs.View.{expr_view, field_view, func_view, block_view, exprs_of, fields_of};
ghost use Rattle.lua_upvalues.specs.Upvalues.{expr_fault, exprs_fault, fields_fault, func_fault, block_fault, locals_at_end, IsFault};

use crate::fault::UpvalueFault;
use crate::locals::Locals;
use crate::stat_walk::check_stat;
use lua_tree::{Block, Expr, ExprKind, Field, Func};
use std::alloc::Global;

/// Whether each function inside a block, with none around it, uses at most 255 locals of the
/// functions around it. The block is walked once, in the order of the source, but the names of a
/// function are gathered once more for each function around it.
///
/// # Errors
///
/// [`UpvalueFault::TooMany`] exactly where a function uses more, unless memory runs out first, with
/// the line of the first such function; [`UpvalueFault::Memory`] where there is no room for the
/// names of a function or of the locals in scope.
pub fn check_upvalues(alloc: Global, block: &Block) -> Result<(), UpvalueFault>
    ensures { MatchResult result
        (λ _. block_fault (block_view block.now) [] ≡ None)
        (λ fault. IsFault (block_fault (block_view block.now) []) fault) }
{
    check_stats(&mut Locals::new(alloc), block)
}

// The functions inside an expression.
#[cycle(upvalues)]
pub(crate) fn check_expr<'a>(locals: &mut Locals<'a>, expr: &'a Expr) -> Result<(), UpvalueFault>
    ensures found { MatchResult result
        (λ _. expr_fault (expr_view expr.now) locals.old ≡ None)
        (λ fault. IsFault (expr_fault (expr_view expr.now) locals.old) fault) }
    ensures same { OnOk result (locals.new ≡ locals.old) }
{
    match &expr.what {
        ExprKind::Nil
        | ExprKind::True
        | ExprKind::False
        | ExprKind::Number(_)
        | ExprKind::Str(_)
        | ExprKind::Dots
        | ExprKind::Name(_) => Ok(()),
        ExprKind::Function(func) => check_func(locals, func),
        ExprKind::Index(base, key) => {
            check_expr(locals, base)?;
            check_expr(locals, key)
        }
        ExprKind::Call(callee, args) => {
            check_expr(locals, callee)?;
            check_exprs(locals, args.as_slice())
        }
        ExprKind::Method(object, _, args) => {
            check_expr(locals, object)?;
            check_exprs(locals, args.as_slice())
        }
        ExprKind::Table(fields) => check_fields(locals, fields.as_slice()),
        ExprKind::Unary(_, operand) => check_expr(locals, operand),
        ExprKind::Binary(_, left, right) => {
            check_expr(locals, left)?;
            check_expr(locals, right)
        }
        ExprKind::Paren(inner) => check_expr(locals, inner),
    }
}

// Those inside a list of expressions.
#[cycle(upvalues)]
pub(crate) fn check_exprs<'a>(
    locals: &mut Locals<'a>,
    exprs: &'a [Expr],
) -> Result<(), UpvalueFault>
    ensures found { MatchResult result
        (λ _. exprs_fault (exprs_of (map expr_view exprs.now)) locals.old ≡ None)
        (λ fault. IsFault (exprs_fault (exprs_of (map expr_view exprs.now)) locals.old) fault) }
    ensures same { OnOk result (locals.new ≡ locals.old) }
{
    for expr in exprs {
        check_expr(locals, expr)?;
    }
    Ok(())
}

// Those inside a table's fields.
#[cycle(upvalues)]
fn check_fields<'a>(locals: &mut Locals<'a>, fields: &'a [Field]) -> Result<(), UpvalueFault>
    ensures found { MatchResult result
        (λ _. fields_fault (fields_of (map field_view fields.now)) locals.old ≡ None)
        (λ fault. IsFault (fields_fault (fields_of (map field_view fields.now)) locals.old) fault) }
    ensures same { OnOk result (locals.new ≡ locals.old) }
{
    for field in fields {
        check_field(locals, field)?;
    }
    Ok(())
}

// Those inside a field, in front of those behind it.
#[cycle(upvalues)]
fn check_field<'a>(locals: &mut Locals<'a>, field: &'a Field) -> Result<(), UpvalueFault>
    ensures found { MatchResult result
        (λ _. (fs : Fields) → fields_fault (field_view field.now fs) locals.old
        ≡ fields_fault fs locals.old)
        (λ fault. (fs : Fields) → IsFault (fields_fault (field_view field.now fs) locals.old)
        fault) }
    ensures same { OnOk result (locals.new ≡ locals.old) }
{
    match field {
        Field::Item(value) => check_expr(locals, value),
        Field::Keyed(key, value) => {
            check_expr(locals, key)?;
            check_expr(locals, value)
        }
    }
}

// A function, and those inside it.
#[cycle(upvalues)]
#[tactic(auto, using(crate::proofs::UpvalueSteps::cut_block, crate::proofs::UpvalueSteps::cut_declared))]
pub(crate) fn check_func<'a>(locals: &mut Locals<'a>, func: &'a Func) -> Result<(), UpvalueFault>
    ensures found { MatchResult result
        (λ _. func_fault (func_view func.now) locals.old ≡ None)
        (λ fault. IsFault (func_fault (func_view func.now) locals.old) fault) }
    ensures same { OnOk result (locals.new ≡ locals.old) }
{
    if locals.are_too_many(func)? {
        return Err(UpvalueFault::TooMany { line: func.line });
    }
    let outer = locals.len();
    locals.declare(func.params.as_slice())?;
    check_stats(locals, &func.body)?;
    locals.cut(outer);
    Ok(())
}

// Those inside a block with a scope of its own.
#[cycle(upvalues)]
#[tactic(auto, using(crate::proofs::UpvalueSteps::cut_block, crate::proofs::UpvalueSteps::cut_declared))]
pub(crate) fn check_block<'a>(locals: &mut Locals<'a>, block: &'a Block) -> Result<(), UpvalueFault>
    ensures found { MatchResult result
        (λ _. block_fault (block_view block.now) locals.old ≡ None)
        (λ fault. IsFault (block_fault (block_view block.now) locals.old) fault) }
    ensures same { OnOk result (locals.new ≡ locals.old) }
{
    let outer = locals.len();
    check_stats(locals, block)?;
    locals.cut(outer);
    Ok(())
}

// Those inside a block's statements, whose locals stay in scope.
#[cycle(upvalues)]
pub(crate) fn check_stats<'a>(locals: &mut Locals<'a>, block: &'a Block) -> Result<(), UpvalueFault>
    ensures found { MatchResult result
        (λ _. block_fault (block_view block.now) locals.old ≡ None)
        (λ fault. IsFault (block_fault (block_view block.now) locals.old) fault) }
    ensures locals { OnOk result
        (locals.new ≡ locals_at_end (block_view block.now) locals.old) }
{
    for stat in block.stats.as_slice() {
        check_stat(locals, stat)?;
    }
    Ok(())
}

// The code of expressions (Lua 5.1 manual §2.5), put down from its end on.
ghost use Rattle.std.specs.Prelude.{◌≡◌, suc, map, OnOk};
ghost use Rattle.lua_tree.specs.View.{expr_view, exprs_of};
ghost use Rattle.lua_code.specs.Code.{expr_code, tail_code, exprs_code, ready, ready_slot, unless_ready};
ghost use Rattle.lua_assembler.specs.Writing.{Adds};
ghost use Rattle.lua_compile.specs.Lists.{one_or_all};

use crate::functions::function_code;
use crate::tables::fields_code;
use love_base::{Memory, Text};
use lua_assembler::calls::{
    put_call, put_method, put_method_call, put_method_tail_call, put_tail_call,
};
use lua_assembler::lists::slot_at;
use lua_assembler::operands::{is_many, is_ready, is_ready_slot, next};
use lua_assembler::operators::{
    put_binary, put_index, put_name, put_settle, put_skip_if, put_skip_unless, put_unary,
};
use lua_assembler::values::{put_all_dots, put_constant, put_dots, put_table, put_text};
use lua_assembler::{Scope, Writer};
use lua_code::Constant;
use lua_tree::{BinOp, Expr, ExprKind};

// The first value of an expression, in the slot `to`; slots from `h` on are free.
#[cycle(code)]
pub(crate) fn expr_code<'a>(
    w: &mut Writer,
    file: &'a Text,
    scope: &Scope<'a>,
    expr: &'a Expr,
    h: u32,
    to: u32,
) -> Result<(), Memory>
    ensures { OnOk result (Adds
        (expr_code (expr_view expr.now) file.now scope.now h to) w.old w.new) }
{
    let line = expr.line;
    match &expr.what {
        ExprKind::Nil => put_constant(w, scope, line, h, to, Constant::Nil),
        ExprKind::True => put_constant(w, scope, line, h, to, Constant::Bool(true)),
        ExprKind::False => put_constant(w, scope, line, h, to, Constant::Bool(false)),
        ExprKind::Number(number) => put_constant(w, scope, line, h, to, Constant::Num(*number)),
        ExprKind::Str(text) => put_text(w, scope, line, h, to, text),
        ExprKind::Dots => put_dots(w, scope, line, h, to),
        ExprKind::Function(func) => function_code(w, file, scope, line, func, to),
        ExprKind::Name(name) => put_name(w, scope, line, name, h, to),
        ExprKind::Index(base, key) => {
            put_index(w, scope, line, base, key, h, to)?;
            right_code(w, file, scope, key, next(h)?)?;
            left_code(w, file, scope, base, h)
        }
        ExprKind::Call(callee, args) => {
            let args = args.as_slice();
            put_call(w, scope, line, args, h, to)?;
            exprs_code(w, file, scope, args, next(h)?)?;
            expr_code(w, file, scope, callee, h, h)
        }
        ExprKind::Method(object, name, args) => {
            let args = args.as_slice();
            let second = next(h)?;
            put_method_call(w, scope, line, args, h, to)?;
            exprs_code(w, file, scope, args, next(second)?)?;
            put_method(w, scope, line, name, h)?;
            expr_code(w, file, scope, object, second, second)
        }
        ExprKind::Table(fields) => {
            let fields = fields.as_slice();
            put_settle(w, scope, line, to, h)?;
            fields_code(w, file, scope, fields, line, h)?;
            put_table(w, scope, line, h)
        }
        ExprKind::Unary(op, operand) => {
            put_unary(w, scope, line, *op, operand, h, to)?;
            left_code(w, file, scope, operand, h)
        }
        ExprKind::Binary(op, left, right) => match op {
            BinOp::And => {
                put_settle(w, scope, line, to, h)?;
                let end = w.len();
                expr_code(w, file, scope, right, h, h)?;
                put_skip_unless(w, scope, line, h, end)?;
                expr_code(w, file, scope, left, h, h)
            }
            BinOp::Or => {
                put_settle(w, scope, line, to, h)?;
                let end = w.len();
                expr_code(w, file, scope, right, h, h)?;
                put_skip_if(w, scope, line, h, end)?;
                expr_code(w, file, scope, left, h, h)
            }
            _ => {
                put_binary(w, scope, line, *op, left, right, h, to)?;
                right_code(w, file, scope, right, next(h)?)?;
                left_code(w, file, scope, left, h)
            }
        },
        ExprKind::Paren(inner) => expr_code(w, file, scope, inner, h, to),
    }
}

// A right operand, unless it stands somewhere already.
#[cycle(code)]
pub(crate) fn right_code<'a>(
    w: &mut Writer,
    file: &'a Text,
    scope: &Scope<'a>,
    expr: &'a Expr,
    h: u32,
) -> Result<(), Memory>
    ensures { OnOk result (Adds (unless_ready (ready (expr_view expr.now) scope.now)
        (expr_code (expr_view expr.now) file.now scope.now h h)) w.old w.new) }
{
    if is_ready(scope, expr) {
        Ok(())
    } else {
        expr_code(w, file, scope, expr, h, h)
    }
}

// A left operand, unless it stands in a slot already.
#[cycle(code)]
pub(crate) fn left_code<'a>(
    w: &mut Writer,
    file: &'a Text,
    scope: &Scope<'a>,
    expr: &'a Expr,
    h: u32,
) -> Result<(), Memory>
    ensures { OnOk result (Adds (unless_ready (ready_slot (expr_view expr.now) scope.now)
        (expr_code (expr_view expr.now) file.now scope.now h h)) w.old w.new) }
{
    if is_ready_slot(scope, expr) {
        Ok(())
    } else {
        expr_code(w, file, scope, expr, h, h)
    }
}

// All values of a call or of `...`, in the tail.
#[cycle(code)]
pub(crate) fn tail_code<'a>(
    w: &mut Writer,
    file: &'a Text,
    scope: &Scope<'a>,
    expr: &'a Expr,
    h: u32,
) -> Result<(), Memory>
    ensures { OnOk result (Adds
        (tail_code (expr_view expr.now) file.now scope.now h) w.old w.new) }
{
    let line = expr.line;
    match &expr.what {
        ExprKind::Dots => put_all_dots(w, scope, line, h),
        ExprKind::Call(callee, args) => {
            let args = args.as_slice();
            put_tail_call(w, scope, line, args, h)?;
            exprs_code(w, file, scope, args, next(h)?)?;
            expr_code(w, file, scope, callee, h, h)
        }
        ExprKind::Method(object, name, args) => {
            let args = args.as_slice();
            let second = next(h)?;
            put_method_tail_call(w, scope, line, args, h)?;
            exprs_code(w, file, scope, args, next(second)?)?;
            put_method(w, scope, line, name, h)?;
            expr_code(w, file, scope, object, second, second)
        }
        ExprKind::Nil
        | ExprKind::True
        | ExprKind::False
        | ExprKind::Number(_)
        | ExprKind::Str(_)
        | ExprKind::Name(_)
        | ExprKind::Function(_)
        | ExprKind::Index(_, _)
        | ExprKind::Table(_)
        | ExprKind::Unary(_, _)
        | ExprKind::Binary(_, _, _)
        | ExprKind::Paren(_) => Ok(()),
    }
}

// An expression of a list: its first value where others stand behind it, and else all of them.
#[cycle(code)]
pub(crate) fn listed_code<'a>(
    w: &mut Writer,
    file: &'a Text,
    scope: &Scope<'a>,
    expr: &'a Expr,
    last: bool,
    h: u32,
) -> Result<(), Memory>
    ensures { OnOk result (Adds (one_or_all last (expr_view expr.now)
        (expr_code (expr_view expr.now) file.now scope.now h h)
        (tail_code (expr_view expr.now) file.now scope.now h)) w.old w.new) }
{
    if last && is_many(expr) {
        tail_code(w, file, scope, expr, h)
    } else {
        expr_code(w, file, scope, expr, h, h)
    }
}

// The values of a list from a slot on, those of its last expression in the tail where it has any
// number.
#[cycle(code)]
pub(crate) fn exprs_code<'a>(
    w: &mut Writer,
    file: &'a Text,
    scope: &Scope<'a>,
    exprs: &'a [Expr],
    h: u32,
) -> Result<(), Memory>
    ensures { OnOk result (Adds
        (exprs_code (exprs_of (map expr_view exprs.now)) file.now scope.now h) w.old w.new) }
{
    let mut at = exprs.len();
    'exprs: while at > 0 {
        let last = at == exprs.len();
        at -= 1;
        listed_code(w, file, scope, &exprs[at], last, slot_at(h, at)?)?;
    }
    Ok(())
}

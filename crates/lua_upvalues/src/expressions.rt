//! The names that parts of a program use from outside themselves (Lua 5.1 manual §2.6).

ghost use Rattle.std.specs.Prelude.{◌≡◌, ◌++◌, map, OnOk};
ghost use Rattle.lua_tree.specs.View.{expr_view, field_view, func_view, exprs_of, fields_of};
ghost use Rattle.lua_meaning.specs.Names.{expr_names, exprs_names, fields_names, func_names};
ghost use Rattle.lua_upvalues.specs.Parts.{FieldNames};

use crate::blocks::block_names;
use crate::name_list::{Names, distinct};
use love_base::Memory;
use lua_tree::{Expr, ExprKind, Field, Func};

/// Puts the names of an expression in front of those that are there: where `here` is true all that
/// it uses, and else those that functions inside it use.
///
/// # Errors
///
/// [`Memory`] where there is no room for them.
#[cycle(names)]
pub fn expr_names<'a>(names: &mut Names<'a>, here: bool, expr: &'a Expr) -> Result<(), Memory>
    ensures { OnOk result (names.new ≡ expr_names here (expr_view expr.now) ++ names.old) }
{
    match &expr.what {
        ExprKind::Nil
        | ExprKind::True
        | ExprKind::False
        | ExprKind::Number(_)
        | ExprKind::Str(_)
        | ExprKind::Dots => Ok(()),
        ExprKind::Function(func) => func_names(names, func),
        ExprKind::Name(name) => { if here { names.put(name) } else { Ok(()) } }
        ExprKind::Index(base, key) => {
            expr_names(names, here, key)?;
            expr_names(names, here, base)
        }
        ExprKind::Call(callee, args) => {
            exprs_names(names, here, args.as_slice())?;
            expr_names(names, here, callee)
        }
        ExprKind::Method(object, _, args) => {
            exprs_names(names, here, args.as_slice())?;
            expr_names(names, here, object)
        }
        ExprKind::Table(fields) => fields_names(names, here, fields.as_slice()),
        ExprKind::Unary(_, operand) => expr_names(names, here, operand),
        ExprKind::Binary(_, left, right) => {
            expr_names(names, here, right)?;
            expr_names(names, here, left)
        }
        ExprKind::Paren(inner) => expr_names(names, here, inner),
    }
}

// Those of a list of expressions.
#[cycle(names)]
pub(crate) fn exprs_names<'a>(
    names: &mut Names<'a>,
    here: bool,
    exprs: &'a [Expr],
) -> Result<(), Memory>
    ensures { OnOk result
        (names.new ≡ exprs_names here (exprs_of (map expr_view exprs.now)) ++ names.old) }
{
    let mut at = exprs.len();
    'exprs: while at > 0 {
        at -= 1;
        expr_names(names, here, &exprs[at])?;
    }
    Ok(())
}

// Those of a table's fields.
#[cycle(names)]
fn fields_names<'a>(names: &mut Names<'a>, here: bool, fields: &'a [Field]) -> Result<(), Memory>
    ensures { OnOk result
        (names.new ≡ fields_names here (fields_of (map field_view fields.now)) ++ names.old) }
{
    let mut at = fields.len();
    'fields: while at > 0 {
        at -= 1;
        field_names(names, here, &fields[at])?;
    }
    Ok(())
}

// Those of a field.
#[cycle(names)]
fn field_names<'a>(names: &mut Names<'a>, here: bool, field: &'a Field) -> Result<(), Memory>
    ensures { OnOk result (FieldNames here (field_view field.now) names.old names.new) }
{
    match field {
        Field::Item(value) => expr_names(names, here, value),
        Field::Keyed(key, value) => {
            expr_names(names, here, value)?;
            expr_names(names, here, key)
        }
    }
}

/// Puts the names that a function uses from outside, each once, in front of those that are there.
/// A parameter, and a local of its body, isn't one; a local of the functions around it is, and so
/// is a global.
///
/// # Errors
///
/// [`Memory`] where there is no room for them.
#[cycle(names)]
pub fn func_names<'a>(names: &mut Names<'a>, func: &'a Func) -> Result<(), Memory>
    ensures { OnOk result (names.new ≡ func_names (func_view func.now) ++ names.old) }
{
    let mut inside = names.apart();
    block_names(&mut inside, true, &func.body)?;
    inside.leave_out(func.params.as_slice())?;
    names.put_all(distinct(inside)?)
}

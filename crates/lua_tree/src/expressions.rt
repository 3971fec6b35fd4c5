// Expressions and their operators (Lua 5.1 manual §2.5).
ghost use Rattle.std.specs.Prelude.{◌≡◌, ◌+◌, ◌<◌, ◌≤◌, ℕ, Some, None, IfOk, IfSome, length, slice_get, true};
ghost use Rattle.lua_tree.specs.Reading.{expr, exprs, first as first_rule, more, program};
ghost use Rattle.lua_tree.specs.Spelled.{kind_at};
ghost use Rattle.lua_tree.specs.View.{expr_kind_view, expr_view, exprs_view};
ghost use Rattle.lua_tree.specs.Begins.{ConstantAt, is_number, NoOperatorAt, OperatorAt, UnaryAt, level_of};
ghost use Rattle.lua_tree.specs.Answer.{Answers, Behind, Fits, IsCut, Moves, OfWords, Parts, Passes, counts, expr_tall, exprs_tall, line_of};

use crate::functions::function_expression;
use crate::operators::{UNARY, binary_operator, priority_of};
use crate::scope::Scope;
use crate::source::{Read, Source, may_nest};
use crate::stop::{Fault, Stop};
use crate::suffixes::{Position, prefix_expression};
use crate::tables::table;
use crate::{BinOp, Expr, ExprKind, UnOp};
use love_base::List;
use lua_token::Kind;

// explist ::= exp {',' exp}
#[cycle(grammar)]
pub(crate) fn expressions(
    source: &Source,
    at: usize,
    scope: Scope,
) -> Result<Read<List<Expr>>, Stop>
    requires cut { IsCut source.now }
    requires fits { Fits scope }
    ensures moves { IfOk result (Moves source.now.tokens.now at scope.depth exprs_tall) }
    ensures answer { OfWords source.now
        (Answers exprs_view (program (exprs (counts scope))) at result) }
{
    let first = expression(source, at, scope, 0)?;
    let mut items = Vec::new(source.alloc);
    items.push(first.node)?;
    let mut height = first.height;
    let mut end = first.at;
    'items: while source.is(end, Kind::Comma) {
        let next = expression(source, end + 1, scope, 0)?;
        items.push(next.node)?;
        height = height.max(next.height);
        end = next.at;
    }
    Ok(Read {
        node: List::from_vec(items),
        height,
        at: end,
    })
}

// exp ::= operand {binop exp}, where the operators have at least this level
#[cycle(grammar)]
pub(crate) fn expression(
    source: &Source,
    at: usize,
    scope: Scope,
    level: u32,
) -> Result<Read<Expr>, Stop>
    requires cut { IsCut source.now }
    requires fits { Fits scope }
    ensures moves { IfOk result (Moves source.now.tokens.now at scope.depth expr_tall) }
    ensures answer { OfWords source.now
        (Answers expr_view (program (expr level (counts scope))) at result) }
{
    let left = operand(source, at, scope)?;
    operations(source, left, scope, level)
}

// {binop exp}, behind the left operand
#[cycle(grammar)]
pub(crate) fn operations(
    source: &Source,
    first: Read<Expr>,
    scope: Scope,
    level: u32,
) -> Result<Read<Expr>, Stop>
    requires cut { IsCut source.now }
    requires fits { Fits scope }
    requires behind { Behind source.now.tokens.now scope.depth first }
    ensures moves { IfOk result (Passes source.now.tokens.now first.at scope.depth expr_tall) }
    ensures answer { OfWords source.now
        (Answers expr_view (program (more level (counts scope) (expr_view first.node))) first.at
        result) }
{
    let mut left = first;
    'operators: while let Some(op) = operator_at(source, left.at, level) {
        left = operation(source, left, scope, op)?;
    }
    Ok(left)
}

// The binary operator that stands there, if it is of this level or a tighter one.
fn operator_at(source: &Source, at: usize, level: u32) -> Option<BinOp>
    ensures within { IfSome result (λ op. at < length source.now.tokens.now) }
    ensures some { IfSome result (λ op. OperatorAt source.now at op × level ≤ level_of op) }
    ensures none { result ≡ None → NoOperatorAt source.now at level }
{
    let op = binary_operator(source.kind_at(at)?)?;
    if level <= priority_of(op).level {
        Some(op)
    } else {
        None
    }
}

// binop exp, behind the left operand
#[cycle(grammar)]
fn operation(source: &Source, left: Read<Expr>, scope: Scope, op: BinOp) -> Result<Read<Expr>, Stop>
    requires cut { IsCut source.now }
    requires fits { Fits scope }
    requires behind { Behind source.now.tokens.now scope.depth left }
    requires some { left.at < length source.now.tokens.now }
    requires here { OperatorAt source.now left.at op }
    ensures moves { IfOk result (Moves source.now.tokens.now left.at scope.depth expr_tall) }
    ensures answer { (p : ℕ) → p ≤ level_of op → OfWords source.now
        (Parts (λ e. program (more p (counts scope) (expr_view e))) (λ e whole. whole)
        (program (more p (counts scope) (expr_view left.node))) left.at result) }
{
    may_nest(scope.depth + 1 + left.height, left.at)?;
    let line = source.line_at(left.at);
    let right = expression(source, left.at + 1, scope.deeper(), priority_of(op).right)?;
    let height = 1 + left.height.max(right.height);
    let left = Box::new(source.alloc, left.node)?;
    let at = right.at;
    let right = Box::new(source.alloc, right.node)?;
    Ok(Read {
        node: Expr {
            line,
            what: ExprKind::Binary(op, left, right),
        },
        height,
        at,
    })
}

// exp ::= nil | false | true | Number | String | '...' | function | prefixexp | table | unop exp
#[cycle(grammar)]
fn operand(source: &Source, at: usize, scope: Scope) -> Result<Read<Expr>, Stop>
    requires cut { IsCut source.now }
    requires fits { Fits scope }
    ensures moves { IfOk result (Moves source.now.tokens.now at scope.depth expr_tall) }
    ensures answer { OfWords source.now
        (Answers expr_view (program (first_rule (counts scope))) at result) }
{
    let Some(kind) = source.kind_at(at) else {
        return Err(Stop::At(Fault::Unexpected, at));
    };
    match kind {
        Kind::Function => function_expression(source, at, scope),
        Kind::OpenBrace => table(source, at, scope),
        Kind::Not => unary(source, at, scope, UnOp::Not),
        Kind::Hash => unary(source, at, scope, UnOp::Length),
        Kind::Minus => unary(source, at, scope, UnOp::Minus),
        Kind::Dots => dots(source, at, scope),
        Kind::Str => string(source, at, scope),
        Kind::Nil => constant(source, at, scope, ExprKind::Nil),
        Kind::True => constant(source, at, scope, ExprKind::True),
        Kind::False => constant(source, at, scope, ExprKind::False),
        Kind::Number(_) => number(source, at, scope),
        _ => prefix_expression(source, at, scope, Position::Operand),
    }
}

// unop exp
#[cycle(grammar)]
fn unary(source: &Source, at: usize, scope: Scope, op: UnOp) -> Result<Read<Expr>, Stop>
    requires cut { IsCut source.now }
    requires fits { Fits scope }
    requires some { at < length source.now.tokens.now }
    requires here { UnaryAt source.now at op }
    ensures moves { IfOk result (Moves source.now.tokens.now at scope.depth expr_tall) }
    ensures answer { OfWords source.now
        (Answers expr_view (program (first_rule (counts scope))) at result) }
{
    may_nest(scope.depth + 2, at)?;
    let line = source.line_at(at);
    let operand = expression(source, at + 1, scope.deeper(), UNARY)?;
    let height = 1 + operand.height;
    let at = operand.at;
    let operand = Box::new(source.alloc, operand.node)?;
    Ok(Read {
        node: Expr {
            line,
            what: ExprKind::Unary(op, operand),
        },
        height,
        at,
    })
}

// '...'
fn dots(source: &Source, at: usize, scope: Scope) -> Result<Read<Expr>, Stop>
    requires cut { IsCut source.now }
    requires fits { Fits scope }
    requires some { at < length source.now.tokens.now }
    requires here { kind_at source.now.tokens.now at ≡ Some Kind.Dots }
    ensures moves { IfOk result (Moves source.now.tokens.now at scope.depth expr_tall) }
    ensures answer { OfWords source.now
        (Answers expr_view (program (first_rule (counts scope))) at result) }
{
    if !scope.dots {
        return Err(Stop::At(Fault::VarargOutside, at));
    }
    may_nest(scope.depth + 1, at)?;
    Ok(leaf(source, at, ExprKind::Dots))
}

// String
fn string(source: &Source, at: usize, scope: Scope) -> Result<Read<Expr>, Stop>
    requires cut { IsCut source.now }
    requires fits { Fits scope }
    requires here { kind_at source.now.tokens.now at ≡ Some Kind.Str }
    ensures moves { IfOk result (Moves source.now.tokens.now at scope.depth expr_tall) }
    ensures answer { OfWords source.now
        (Answers expr_view (program (first_rule (counts scope))) at result) }
{
    may_nest(scope.depth + 1, at)?;
    Ok(leaf(source, at, ExprKind::Str(source.string_at(at)?)))
}

// Number
fn number(source: &Source, at: usize, scope: Scope) -> Result<Read<Expr>, Stop>
    requires cut { IsCut source.now }
    requires fits { Fits scope }
    requires some { at < length source.now.tokens.now }
    requires here { is_number (kind_at source.now.tokens.now at) ≡ true }
    ensures moves { IfOk result (Moves source.now.tokens.now at scope.depth expr_tall) }
    ensures answer { OfWords source.now
        (Answers expr_view (program (first_rule (counts scope))) at result) }
{
    may_nest(scope.depth + 1, at)?;
    match source.number_at(at) {
        Some(value) => Ok(leaf(source, at, ExprKind::Number(value))),
        None => Err(Stop::At(Fault::Unexpected, at)),
    }
}

// nil | false | true
fn constant(source: &Source, at: usize, scope: Scope, what: ExprKind) -> Result<Read<Expr>, Stop>
    requires cut { IsCut source.now }
    requires fits { Fits scope }
    requires some { at < length source.now.tokens.now }
    requires here { ConstantAt source.now at what }
    ensures moves { IfOk result (Moves source.now.tokens.now at scope.depth expr_tall) }
    ensures answer { OfWords source.now
        (Answers expr_view (program (first_rule (counts scope))) at result) }
{
    may_nest(scope.depth + 1, at)?;
    Ok(leaf(source, at, what))
}

// An expression of the token there alone.
pub(crate) fn leaf(source: &Source, at: usize, what: ExprKind) -> Read<Expr>
    requires some { at < length source.now.tokens.now }
    ensures view { expr_view result.node
        ≡ expr_kind_view what (line_of (slice_get source.now.tokens.now at)) }
    ensures height { result.height ≡ 1 }
    ensures at { result.at ≡ at + 1 }
{
    Read {
        node: Expr {
            line: source.line_at(at),
            what,
        },
        height: 1,
        at: at + 1,
    }
}

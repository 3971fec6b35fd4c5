// Calls, assignments and declarations (Lua 5.1 manual §2.4.3, §2.4.6, §2.4.7).
ghost use Rattle.std.specs.Prelude.{◌≡◌, ◌∷◌, ◌+◌, ◌<◌, ◌≤◌, Some, IfOk, length, drop, true};
ghost use Rattle.lua_tree.specs.Tree.{expr_and};
ghost use Rattle.lua_tree.specs.Reading.{expr, init, more_names as more_names_rule, more_targets, prefix, prefix_stat, program, shape, stat as stat_rule, target_of, targeted, then};
ghost use Rattle.lua_tree.specs.Spelled.{kind_at};
ghost use Rattle.lua_tree.specs.View.{expr_view, exprs_view, stat_view};
ghost use Rattle.lua_tree.specs.Begins.{IsVariable, shape_view, begins_prefix};
ghost use Rattle.lua_tree.specs.Answer.{Answers, Behind, Fits, IsCut, Moves, OfWords, Parts, Passes, counts, declares, expr_tall, exprs_tall, stat_tall};

use crate::expressions::expressions;
use crate::scope::Scope;
use crate::source::{Read, Source, may_nest};
use crate::stop::{Fault, Stop};
use crate::suffixes::{Position, prefix_expression};
use crate::{Expr, ExprKind, Stat, StatKind};
use love_base::{List, Text};
use lua_token::Kind;

// {',' Name}, behind a first name, where so many locals are in scope before that
pub(crate) fn more_names(
    source: &Source,
    at: usize,
    locals: u32,
    first: Text,
) -> Result<Read<List<Text>>, Stop>
    requires cut { IsCut source.now }
    requires within { at ≤ length source.now.tokens.now }
    requires room { locals + 1 ≤ 200 }
    ensures forth { IfOk result (λ read. at ≤ read.at) }
    ensures within { IfOk result (λ read. read.at ≤ length source.now.tokens.now) }
    ensures few { IfOk result (λ read. locals + length read.node ≤ 200) }
    ensures answer { OfWords source.now
        (Answers (λ names. drop 1 names) (program (more_names_rule (locals + 1))) at result) }
    ensures first { IfOk result (λ read. read.node ≡ first ∷ drop 1 read.node) }
{
    let mut names = Vec::new(source.alloc);
    names.push(first)?;
    let mut end = at;
    'names: while source.is(end, Kind::Comma) {
        names.push(source.local_at(end + 1, locals + names.len() as u32)?)?;
        end += 2;
    }
    Ok(Read {
        node: List::from_vec(names),
        height: 0,
        at: end,
    })
}

// stat ::= local namelist ['=' explist]
#[cycle(grammar)]
pub(crate) fn local_variables(source: &Source, at: usize, scope: Scope) -> Result<Read<Stat>, Stop>
    requires cut { IsCut source.now }
    requires fits { Fits scope }
    requires some { at < length source.now.tokens.now }
    requires here { kind_at source.now.tokens.now at ≡ Some Kind.Local }
    requires plain { (kind_at source.now.tokens.now (at + 1) ≡ Some Kind.Function) → ⊥ }
    ensures moves { IfOk result (Moves source.now.tokens.now at scope.depth stat_tall) }
    ensures room { IfOk result (λ read. scope.locals + declares read.node ≤ 200) }
    ensures answer { OfWords source.now
        (Answers stat_view (program (stat_rule (counts scope))) at result) }
{
    let name = source.local_at(at + 1, scope.locals)?;
    let names = more_names(source, at + 2, scope.locals, name)?;
    let values = initial_values(source, names.at, scope)?;
    Ok(Read {
        node: Stat {
            line: source.line_at(at),
            what: StatKind::Local(names.node, values.node),
        },
        height: values.height,
        at: values.at,
    })
}

// ['=' explist]
#[cycle(grammar)]
fn initial_values(source: &Source, at: usize, scope: Scope) -> Result<Read<List<Expr>>, Stop>
    requires cut { IsCut source.now }
    requires fits { Fits scope }
    requires within { at ≤ length source.now.tokens.now }
    ensures moves { IfOk result (Passes source.now.tokens.now at scope.depth exprs_tall) }
    ensures answer { OfWords source.now
        (Answers exprs_view (program (init (counts scope))) at result) }
{
    if source.is(at, Kind::Assign) {
        may_nest(scope.depth + 1, at)?;
        expressions(source, at + 1, scope)
    } else {
        Ok(Read {
            node: List::new(source.alloc),
            height: 0,
            at,
        })
    }
}

// stat ::= varlist '=' explist | functioncall
#[cycle(grammar)]
pub(crate) fn call_or_assignment(
    source: &Source,
    at: usize,
    scope: Scope,
) -> Result<Read<Stat>, Stop>
    requires cut { IsCut source.now }
    requires fits { Fits scope }
    requires here { begins_prefix (kind_at source.now.tokens.now at) ≡ true }
    ensures moves { IfOk result (Moves source.now.tokens.now at scope.depth stat_tall) }
    ensures room { IfOk result (λ read. scope.locals + declares read.node ≤ 200) }
    ensures answer { OfWords source.now
        (Answers stat_view (program (stat_rule (counts scope))) at result) }
{
    let line = source.line_at(at);
    let first = prefix_expression(source, at, scope, Position::Leading)?;
    match shape_of(&first.node) {
        Shape::Variable => assignment(source, line, first, scope),
        Shape::Call => Ok(Read {
            node: Stat {
                line,
                what: StatKind::Call(first.node),
            },
            height: first.height,
            at: first.at,
        }),
        Shape::Other => Err(Stop::At(Fault::Unexpected, first.at)),
    }
}

// {',' var} '=' explist, behind the first target
#[cycle(grammar)]
fn assignment(
    source: &Source,
    line: u32,
    first: Read<Expr>,
    scope: Scope,
) -> Result<Read<Stat>, Stop>
    requires cut { IsCut source.now }
    requires fits { Fits scope }
    requires behind { Behind source.now.tokens.now scope.depth first }
    requires here { IsVariable first.node }
    ensures moves { IfOk result (Moves source.now.tokens.now first.at scope.depth stat_tall) }
    ensures room { IfOk result (λ read. scope.locals + declares read.node ≤ 200) }
    ensures answer { OfWords source.now
        (Answers stat_view (program (prefix_stat line (counts scope) (expr_view first.node)))
        first.at result) }
{
    let mut targets = Vec::new(source.alloc);
    targets.push(first.node)?;
    let mut height = first.height;
    let mut end = first.at;
    'targets: while source.is(end, Kind::Comma) {
        let next = target(source, end + 1, scope)?;
        targets.push(next.node)?;
        height = height.max(next.height);
        end = next.at;
    }
    let at = source.expect(end, Kind::Assign)?;
    let values = expressions(source, at, scope)?;
    Ok(Read {
        node: Stat {
            line,
            what: StatKind::Assign(List::from_vec(targets), values.node),
        },
        height: height.max(values.height),
        at: values.at,
    })
}

// var ::= Name | prefixexp '[' exp ']' | prefixexp '.' Name
#[cycle(grammar)]
fn target(source: &Source, at: usize, scope: Scope) -> Result<Read<Expr>, Stop>
    requires cut { IsCut source.now }
    requires fits { Fits scope }
    ensures moves { IfOk result (Moves source.now.tokens.now at scope.depth expr_tall) }
    ensures answer { OfWords source.now
        (Parts (λ e. program (more_targets (counts scope))) (λ e rest. expr_and (expr_view e) rest)
        (then (prefix targeted (counts scope)) (λ e. target_of (counts scope) e (shape e)))
        at result) }
{
    let read = prefix_expression(source, at, scope, Position::Target)?;
    match shape_of(&read.node) {
        Shape::Variable => Ok(read),
        _ => Err(Stop::At(Fault::Unexpected, read.at)),
    }
}

// What a prefix expression may be: a target of an assignment, a statement, or neither.
#[derive(Clone, Copy)]
enum Shape {
    Variable,
    Call,
    Other,
}

fn shape_of(expr: &Expr) -> Shape
    ensures { shape_view result ≡ shape (expr_view expr.now) }
{
    match expr.what {
        ExprKind::Name(_) | ExprKind::Index(_, _) => Shape::Variable,
        ExprKind::Call(_, _) | ExprKind::Method(_, _, _) => Shape::Call,
        _ => Shape::Other,
    }
}

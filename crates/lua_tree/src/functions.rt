// Functions: their names, parameters and bodies (Lua 5.1 manual §2.5.9).
ghost use Rattle.std.specs.Prelude.{◌≡◌, ◌+◌, ◌<◌, ◌≤◌, Some, IfErr, IfOk, length, vec_len};
ghost use Rattle.lua_tree.specs.Reading.{first as first_rule, func_body, program, stat as stat_rule};
ghost use Rattle.lua_tree.specs.Spelled.{kind_at};
ghost use Rattle.lua_tree.specs.View.{expr_view, func_view, stat_view};
ghost use Rattle.lua_tree.specs.Begins.{hidden_of};
ghost use Rattle.lua_tree.specs.Heads.{FunctionNameAt, ParametersAt};
ghost use Rattle.lua_tree.specs.Answer.{Answers, Fits, IsCut, Moves, OfWords, counts, declares, expr_tall, func_tall, stat_tall};

use crate::scope::Scope;
use crate::source::{Read, Source, may_nest};
use crate::statements::block;
use crate::stop::Stop;
use crate::suffixes::{member, name};
use crate::{Expr, ExprKind, Func, Stat, StatKind};
use love_base::{List, Text};
use lua_token::Kind;

// What stands between the parentheses of a function.
#[derive(Drop)]
struct Parameters {
    names: Vec<Text>,
    dots: bool,
    // The place behind the ')'.
    at: usize,
}

// The name of a function statement.
#[derive(Drop)]
struct FunctionName {
    target: Read<Expr>,
    // Whether its last part stands behind ':'.
    method: bool,
}

// function ::= function funcbody
#[cycle(grammar)]
pub(crate) fn function_expression(
    source: &Source,
    at: usize,
    scope: Scope,
) -> Result<Read<Expr>, Stop>
    requires cut { IsCut source.now }
    requires fits { Fits scope }
    requires some { at < length source.now.tokens.now }
    requires here { kind_at source.now.tokens.now at ≡ Some Kind.Function }
    ensures moves { IfOk result (Moves source.now.tokens.now at scope.depth expr_tall) }
    ensures answer { OfWords source.now
        (Answers expr_view (program (first_rule (counts scope))) at result) }
{
    may_nest(scope.depth + 2, at)?;
    let line = source.line_at(at);
    let read = body(source, at + 1, scope.deeper(), line, false)?;
    Ok(Read {
        node: Expr {
            line,
            what: ExprKind::Function(read.node),
        },
        height: 1 + read.height,
        at: read.at,
    })
}

// stat ::= function funcname funcbody
#[cycle(grammar)]
pub(crate) fn function_statement(
    source: &Source,
    at: usize,
    scope: Scope,
) -> Result<Read<Stat>, Stop>
    requires cut { IsCut source.now }
    requires fits { Fits scope }
    requires some { at < length source.now.tokens.now }
    requires here { kind_at source.now.tokens.now at ≡ Some Kind.Function }
    ensures moves { IfOk result (Moves source.now.tokens.now at scope.depth stat_tall) }
    ensures room { IfOk result (λ read. scope.locals + declares read.node ≤ 200) }
    ensures answer { OfWords source.now
        (Answers stat_view (program (stat_rule (counts scope))) at result) }
{
    may_nest(scope.depth + 1, at)?;
    let line = source.line_at(at);
    let name = function_name(source, at + 1, scope)?;
    let target = name.target;
    let read = body(source, target.at, scope, line, name.method)?;
    Ok(Read {
        node: Stat {
            line,
            what: StatKind::Function(target.node, read.node),
        },
        height: target.height.max(read.height),
        at: read.at,
    })
}

// stat ::= local function Name funcbody
#[cycle(grammar)]
pub(crate) fn local_function(source: &Source, at: usize, scope: Scope) -> Result<Read<Stat>, Stop>
    requires cut { IsCut source.now }
    requires fits { Fits scope }
    requires some { at < length source.now.tokens.now }
    requires next { at + 1 < length source.now.tokens.now }
    requires function { kind_at source.now.tokens.now (at + 1) ≡ Some Kind.Function }
    requires here { kind_at source.now.tokens.now at ≡ Some Kind.Local }
    ensures moves { IfOk result (Moves source.now.tokens.now at scope.depth stat_tall) }
    ensures room { IfOk result (λ read. scope.locals + declares read.node ≤ 200) }
    ensures answer { OfWords source.now
        (Answers stat_view (program (stat_rule (counts scope))) at result) }
{
    may_nest(scope.depth + 1, at + 1)?;
    let name = source.local_at(at + 2, scope.locals)?;
    let line = source.line_at(at + 1);
    let read = body(source, at + 3, scope, line, false)?;
    Ok(Read {
        node: Stat {
            line: source.line_at(at),
            what: StatKind::LocalFunction(name, read.node),
        },
        height: read.height,
        at: read.at,
    })
}

// funcname ::= Name {'.' Name} [':' Name]
fn function_name(source: &Source, at: usize, scope: Scope) -> Result<FunctionName, Stop>
    requires cut { IsCut source.now }
    requires fits { Fits scope }
    requires deep { scope.depth + 1 ≤ 200 }
    ensures moves { IfOk result
        (λ name. Moves source.now.tokens.now at scope.depth expr_tall name.target) }
    ensures answer { OfWords source.now (FunctionNameAt (counts scope) at result) }
{
    let mut target = name(source, at, scope)?;
    'names: while source.is(target.at, Kind::Dot) {
        target = member(source, target, scope)?;
    }
    if !source.is(target.at, Kind::Colon) {
        return Ok(FunctionName {
            target,
            method: false,
        });
    }
    Ok(FunctionName {
        target: member(source, target, scope)?,
        method: true,
    })
}

// funcbody ::= '(' parameters ')' block end, of a function of this line
#[cycle(grammar)]
fn body(
    source: &Source,
    at: usize,
    scope: Scope,
    line: u32,
    method: bool,
) -> Result<Read<Func>, Stop>
    requires cut { IsCut source.now }
    requires fits { Fits scope }
    requires deep { scope.depth + 1 ≤ 200 }
    ensures moves { IfOk result (Moves source.now.tokens.now at scope.depth func_tall) }
    ensures answer { OfWords source.now
        (Answers func_view (program (func_body line (hidden_of method) (counts scope))) at result) }
{
    let at = source.expect(at, Kind::OpenParen)?;
    let parameters = parameter_list(source, at, method)?;
    let names = parameters.names;
    let dots = parameters.dots;
    let inner = scope.function(dots, names.len() as u32);
    let read = block(source, parameters.at, inner)?;
    let at = source.expect(read.at, Kind::End)?;
    Ok(Read {
        node: Func {
            line,
            params: List::from_vec(names),
            dots,
            body: read.node,
        },
        height: 1 + read.height,
        at,
    })
}

// `self`, in a method.
fn hidden_parameters(source: &Source, method: bool) -> Result<Vec<Text>, Stop>
    ensures few { IfOk result (λ names. vec_len names ≤ 1) }
    ensures ok { IfOk result (λ names. names.items ≡ hidden_of method) }
    ensures err { IfErr result (λ stop. stop ≡ Stop.Memory) }
{
    let mut names = Vec::new(source.alloc);
    if !method {
        return Ok(names);
    }
    names.push(Text::of(source.alloc, b"self")?)?;
    Ok(names)
}

// parameters ::= [namelist [',' '...'] | '...'] ')', behind `self` in a method
fn parameter_list(source: &Source, at: usize, method: bool) -> Result<Parameters, Stop>
    requires cut { IsCut source.now }
    ensures forth { IfOk result (λ read. at < read.at) }
    ensures within { IfOk result (λ read. read.at ≤ length source.now.tokens.now) }
    ensures room { IfOk result (λ read. vec_len read.names ≤ 200) }
    ensures answer { OfWords source.now (ParametersAt method at result) }
{
    let mut names = hidden_parameters(source, method)?;
    if source.is(at, Kind::CloseParen) {
        return Ok(Parameters {
            names,
            dots: false,
            at: at + 1,
        });
    }
    let mut end = at;
    'names: while !source.is(end, Kind::Dots) {
        names.push(source.local_at(end, names.len() as u32)?)?;
        end += 1;
        if source.is(end, Kind::CloseParen) {
            return Ok(Parameters {
                names,
                dots: false,
                at: end + 1,
            });
        }
        end = source.expect(end, Kind::Comma)?;
    }
    Ok(Parameters {
        names,
        dots: true,
        at: source.expect(end + 1, Kind::CloseParen)?,
    })
}

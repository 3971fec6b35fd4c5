// `while`, `repeat` and `for` (Lua 5.1 manual §2.4.4, §2.4.5).
ghost use Rattle.std.specs.Prelude.{◌≡◌, ◌+◌, ◌<◌, ◌≤◌, ℕ, Some, IfOk, length, option_map};
ghost use Rattle.lua_tree.specs.Tree.{Bytes, Expr as Operand};
ghost use Rattle.lua_tree.specs.Reading.{for_rest, loop_block, num_for_rest, program, stat as stat_rule};
ghost use Rattle.lua_tree.specs.Spelled.{kind_at};
ghost use Rattle.lua_tree.specs.View.{block_view, expr_view, num_for_of, stat_view};
ghost use Rattle.lua_tree.specs.Answer.{Answers, Fits, IsCut, Moves, OfWords, Parts, Passes, block_tall, counts, declares, stat_tall, step_tall};

use crate::assignments::more_names;
use crate::expressions::{expression, expressions};
use crate::scope::Scope;
use crate::source::{Read, Source, may_nest};
use crate::statements::block;
use crate::stop::Stop;
use crate::{Block, Expr, Stat, StatKind};
use love_base::Text;
use lua_token::Kind;

// stat ::= while exp do block end
#[cycle(grammar)]
pub(crate) fn while_statement(source: &Source, at: usize, scope: Scope) -> Result<Read<Stat>, Stop>
    requires cut { IsCut source.now }
    requires fits { Fits scope }
    requires some { at < length source.now.tokens.now }
    requires here { kind_at source.now.tokens.now at ≡ Some Kind.While }
    ensures moves { IfOk result (Moves source.now.tokens.now at scope.depth stat_tall) }
    ensures room { IfOk result (λ read. scope.locals + declares read.node ≤ 200) }
    ensures answer { OfWords source.now
        (Answers stat_view (program (stat_rule (counts scope))) at result) }
{
    may_nest(scope.depth + 1, at)?;
    let line = source.line_at(at);
    let test = expression(source, at + 1, scope, 0)?;
    let body = do_block(source, test.at, scope, 0)?;
    Ok(Read {
        node: Stat {
            line,
            what: StatKind::While(test.node, body.node),
        },
        height: test.height.max(1 + body.height),
        at: body.at,
    })
}

// do block end, of a loop that has so many locals
#[cycle(grammar)]
fn do_block(source: &Source, at: usize, scope: Scope, locals: u32) -> Result<Read<Block>, Stop>
    requires cut { IsCut source.now }
    requires fits { Fits scope }
    requires deep { scope.depth + 1 ≤ 200 }
    requires locals { scope.locals + locals ≤ 200 }
    ensures moves { IfOk result (Moves source.now.tokens.now at (scope.depth + 1) block_tall) }
    ensures answer { OfWords source.now
        (Answers block_view (program (loop_block locals (counts scope))) at result) }
{
    let at = source.expect(at, Kind::Do)?;
    let body = block(source, at, scope.in_loop(locals))?;
    Ok(Read {
        node: body.node,
        height: body.height,
        at: source.expect(body.at, Kind::End)?,
    })
}

// stat ::= repeat block until exp
#[cycle(grammar)]
pub(crate) fn repeat_statement(source: &Source, at: usize, scope: Scope) -> Result<Read<Stat>, Stop>
    requires cut { IsCut source.now }
    requires fits { Fits scope }
    requires some { at < length source.now.tokens.now }
    requires here { kind_at source.now.tokens.now at ≡ Some Kind.Repeat }
    ensures moves { IfOk result (Moves source.now.tokens.now at scope.depth stat_tall) }
    ensures room { IfOk result (λ read. scope.locals + declares read.node ≤ 200) }
    ensures answer { OfWords source.now
        (Answers stat_view (program (stat_rule (counts scope))) at result) }
{
    may_nest(scope.depth + 1, at)?;
    let line = source.line_at(at);
    let body = block(source, at + 1, scope.in_loop(0))?;
    let at = source.expect(body.at, Kind::Until)?;
    let test = expression(source, at, scope, 0)?;
    Ok(Read {
        node: Stat {
            line,
            what: StatKind::Repeat(body.node, test.node),
        },
        height: test.height.max(1 + body.height),
        at: test.at,
    })
}

// stat ::= for Name '=' .. | for namelist in ..
#[cycle(grammar)]
pub(crate) fn for_statement(source: &Source, at: usize, scope: Scope) -> Result<Read<Stat>, Stop>
    requires cut { IsCut source.now }
    requires fits { Fits scope }
    requires some { at < length source.now.tokens.now }
    requires here { kind_at source.now.tokens.now at ≡ Some Kind.For }
    ensures moves { IfOk result (Moves source.now.tokens.now at scope.depth stat_tall) }
    ensures room { IfOk result (λ read. scope.locals + declares read.node ≤ 200) }
    ensures answer { OfWords source.now
        (Answers stat_view (program (stat_rule (counts scope))) at result) }
{
    may_nest(scope.depth + 1, at)?;
    let line = source.line_at(at);
    let name = source.local_at(at + 1, scope.locals)?;
    if source.is(at + 2, Kind::Assign) {
        numeric_for(source, at + 2, scope, line, name)
    } else {
        generic_for(source, at + 2, scope, line, name)
    }
}

// '=' exp ',' exp [',' exp] do block end, behind `for` and a name
#[cycle(grammar)]
fn numeric_for(
    source: &Source,
    at: usize,
    scope: Scope,
    line: u32,
    name: Text,
) -> Result<Read<Stat>, Stop>
    requires cut { IsCut source.now }
    requires fits { Fits scope }
    requires deep { scope.depth + 1 ≤ 200 }
    requires some { at < length source.now.tokens.now }
    requires room { scope.locals + 1 ≤ 200 }
    requires here { kind_at source.now.tokens.now at ≡ Some Kind.Assign }
    ensures moves { IfOk result (Moves source.now.tokens.now at scope.depth stat_tall) }
    ensures room { IfOk result (λ read. scope.locals + declares read.node ≤ 200) }
    ensures answer { OfWords source.now
        (Answers stat_view (program (for_rest line name (counts scope))) at result) }
{
    let first = expression(source, at + 1, scope, 0)?;
    let at = source.expect(first.at, Kind::Comma)?;
    let limit = expression(source, at, scope, 0)?;
    let step = step(source, limit.at, scope)?;
    let body = do_block(source, step.at, scope, 1)?;
    let values = first.height.max(limit.height).max(step.height);
    Ok(Read {
        node: Stat {
            line,
            what: StatKind::NumFor(name, first.node, limit.node, step.node, body.node),
        },
        height: values.max(1 + body.height),
        at: body.at,
    })
}

// [',' exp]
#[cycle(grammar)]
fn step(source: &Source, at: usize, scope: Scope) -> Result<Read<Option<Expr>>, Stop>
    requires cut { IsCut source.now }
    requires fits { Fits scope }
    requires within { at ≤ length source.now.tokens.now }
    ensures moves { IfOk result (Passes source.now.tokens.now at scope.depth step_tall) }
    ensures answer { (line : ℕ) (x : Bytes) (a b : Operand) → OfWords source.now
        (Parts (λ o. program (loop_block 1 (counts scope)))
        (λ o body. num_for_of x a b (option_map expr_view o) body line)
        (program (num_for_rest line x a b (counts scope))) at result) }
{
    if !source.is(at, Kind::Comma) {
        return Ok(Read {
            node: None,
            height: 0,
            at,
        });
    }
    let value = expression(source, at + 1, scope, 0)?;
    Ok(Read {
        node: Some(value.node),
        height: value.height,
        at: value.at,
    })
}

// {',' Name} in explist do block end, behind `for` and a name
#[cycle(grammar)]
fn generic_for(
    source: &Source,
    at: usize,
    scope: Scope,
    line: u32,
    name: Text,
) -> Result<Read<Stat>, Stop>
    requires cut { IsCut source.now }
    requires fits { Fits scope }
    requires deep { scope.depth + 1 ≤ 200 }
    requires within { at ≤ length source.now.tokens.now }
    requires room { scope.locals + 1 ≤ 200 }
    requires here { (kind_at source.now.tokens.now at ≡ Some Kind.Assign) → ⊥ }
    ensures moves { IfOk result (Moves source.now.tokens.now at scope.depth stat_tall) }
    ensures room { IfOk result (λ read. scope.locals + declares read.node ≤ 200) }
    ensures answer { OfWords source.now
        (Answers stat_view (program (for_rest line name (counts scope))) at result) }
{
    let names = more_names(source, at, scope.locals, name)?;
    let count = names.node.len() as u32;
    let at = source.expect(names.at, Kind::In)?;
    let values = expressions(source, at, scope)?;
    let body = do_block(source, values.at, scope, count)?;
    Ok(Read {
        node: Stat {
            line,
            what: StatKind::GenFor(names.node, values.node, body.node),
        },
        height: values.height.max(1 + body.height),
        at: body.at,
    })
}

// Blocks and statements (Lua 5.1 manual §2.4).
ghost use Rattle.std.specs.Prelude.{◌≡◌, ◌+◌, ◌<◌, ◌≤◌, Some, IfOk, IsTrue, length, drop, true};
ghost use Rattle.lua_tree.specs.Reading.{Reads, a_semi, got, semi, block as block_rule, last, program, stat as stat_rule};
ghost use Rattle.lua_tree.specs.Spelled.{kind_at};
ghost use Rattle.lua_tree.specs.View.{block_view, stat_view};
ghost use Rattle.lua_tree.specs.Begins.{ends_return_at, begins_last, begins_stat};
ghost use Rattle.lua_tree.specs.Answer.{Answers, Fits, IsCut, Moves, OfWords, Passes, block_tall, counts, declares, limits, stat_tall};

use crate::assignments::{call_or_assignment, local_variables};
use crate::conditions::if_statement;
use crate::expressions::{expression, expressions};
use crate::functions::{function_statement, local_function};
use crate::loops::{for_statement, repeat_statement, while_statement};
use crate::scope::Scope;
use crate::source::{Read, Source, may_nest};
use crate::stop::{Fault, Stop};
use crate::{Block, Stat, StatKind};
use love_base::List;
use lua_token::Kind;

// block ::= {stat [';']} [laststat [';']]
#[cycle(grammar)]
pub(crate) fn block(source: &Source, at: usize, scope: Scope) -> Result<Read<Block>, Stop>
    requires cut { IsCut source.now }
    requires fits { Fits scope }
    requires within { at ≤ length source.now.tokens.now }
    ensures moves { IfOk result (Passes source.now.tokens.now at scope.depth block_tall) }
    ensures answer { OfWords source.now
        (Answers block_view (program (block_rule (counts scope))) at result) }
{
    let mut stats = Vec::new(source.alloc);
    let mut height = 0;
    let mut end = at;
    let mut inner = scope;
    'statements: while begins_statement(source, end) {
        let read = statement(source, end, inner)?;
        inner = inner.declared(locals_of(&read.node));
        stats.push(read.node)?;
        height = height.max(read.height);
        end = behind_semicolon(source, read.at);
    }
    if !begins_last_statement(source, end) {
        return Ok(Read {
            node: Block {
                stats: List::from_vec(stats),
            },
            height,
            at: end,
        });
    }
    let last = last_statement(source, end, inner)?;
    stats.push(last.node)?;
    Ok(Read {
        node: Block {
            stats: List::from_vec(stats),
        },
        height: height.max(last.height),
        at: behind_semicolon(source, last.at),
    })
}

// Whether a statement begins here.
fn begins_statement(source: &Source, at: usize) -> bool
    ensures value { result ≡ begins_stat (kind_at source.now.tokens.now at) }
    ensures within { IsTrue result → at < length source.now.tokens.now }
{
    matches!(
        source.kind_at(at),
        Some(
            Kind::Do
                | Kind::While
                | Kind::Repeat
                | Kind::If
                | Kind::For
                | Kind::Function
                | Kind::Local
                | Kind::Name
                | Kind::OpenParen
        )
    )
}

// How many locals a statement declares for those behind it.
fn locals_of(stat: &Stat) -> u32
    requires { declares stat.now ≤ 200 }
    ensures { result ≡ declares stat.now }
{
    match &stat.what {
        StatKind::Local(names, _) => names.len() as u32,
        StatKind::LocalFunction(_, _) => 1,
        _ => 0,
    }
}

// Whether a statement begins here that ends its block.
fn begins_last_statement(source: &Source, at: usize) -> bool
    ensures value { result ≡ begins_last (kind_at source.now.tokens.now at) }
    ensures within { IsTrue result → at < length source.now.tokens.now }
{
    matches!(source.kind_at(at), Some(Kind::Return | Kind::Break))
}

// The place behind the ';' that may stand here.
fn behind_semicolon(source: &Source, at: usize) -> usize
    requires { at ≤ length source.now.tokens.now }
    ensures forth { at ≤ result }
    ensures within { result ≤ length source.now.tokens.now }
    ensures read { OfWords source.now
        (λ words. Reads limits a_semi (program semi) (drop at words) (got tt (drop result words))) }
{
    if source.is(at, Kind::Semicolon) {
        at + 1
    } else {
        at
    }
}

// stat ::= each statement, by its first token
#[cycle(grammar)]
fn statement(source: &Source, at: usize, scope: Scope) -> Result<Read<Stat>, Stop>
    requires cut { IsCut source.now }
    requires fits { Fits scope }
    requires some { at < length source.now.tokens.now }
    requires here { begins_stat (kind_at source.now.tokens.now at) ≡ true }
    ensures moves { IfOk result (Moves source.now.tokens.now at scope.depth stat_tall) }
    ensures room { IfOk result (λ read. scope.locals + declares read.node ≤ 200) }
    ensures answer { OfWords source.now
        (Answers stat_view (program (stat_rule (counts scope))) at result) }
{
    match source.kind_at(at) {
        Some(Kind::Do) => do_statement(source, at, scope),
        Some(Kind::While) => while_statement(source, at, scope),
        Some(Kind::Repeat) => repeat_statement(source, at, scope),
        Some(Kind::If) => if_statement(source, at, scope),
        Some(Kind::For) => for_statement(source, at, scope),
        Some(Kind::Function) => function_statement(source, at, scope),
        Some(Kind::Local) => local_statement(source, at, scope),
        _ => call_or_assignment(source, at, scope),
    }
}

// stat ::= do block end
#[cycle(grammar)]
fn do_statement(source: &Source, at: usize, scope: Scope) -> Result<Read<Stat>, Stop>
    requires cut { IsCut source.now }
    requires fits { Fits scope }
    requires some { at < length source.now.tokens.now }
    requires here { kind_at source.now.tokens.now at ≡ Some Kind.Do }
    ensures moves { IfOk result (Moves source.now.tokens.now at scope.depth stat_tall) }
    ensures room { IfOk result (λ read. scope.locals + declares read.node ≤ 200) }
    ensures answer { OfWords source.now
        (Answers stat_view (program (stat_rule (counts scope))) at result) }
{
    may_nest(scope.depth + 1, at)?;
    let line = source.line_at(at);
    let body = block(source, at + 1, scope.deeper())?;
    let at = source.expect(body.at, Kind::End)?;
    Ok(Read {
        node: Stat {
            line,
            what: StatKind::Do(body.node),
        },
        height: 1 + body.height,
        at,
    })
}

// stat ::= local function .. | local namelist ..
#[cycle(grammar)]
fn local_statement(source: &Source, at: usize, scope: Scope) -> Result<Read<Stat>, Stop>
    requires cut { IsCut source.now }
    requires fits { Fits scope }
    requires some { at < length source.now.tokens.now }
    requires here { kind_at source.now.tokens.now at ≡ Some Kind.Local }
    ensures moves { IfOk result (Moves source.now.tokens.now at scope.depth stat_tall) }
    ensures room { IfOk result (λ read. scope.locals + declares read.node ≤ 200) }
    ensures answer { OfWords source.now
        (Answers stat_view (program (stat_rule (counts scope))) at result) }
{
    if source.is(at + 1, Kind::Function) {
        local_function(source, at, scope)
    } else {
        local_variables(source, at, scope)
    }
}

// laststat ::= return [explist] | break
#[cycle(grammar)]
fn last_statement(source: &Source, at: usize, scope: Scope) -> Result<Read<Stat>, Stop>
    requires cut { IsCut source.now }
    requires fits { Fits scope }
    requires some { at < length source.now.tokens.now }
    requires here { begins_last (kind_at source.now.tokens.now at) ≡ true }
    ensures moves { IfOk result (Moves source.now.tokens.now at scope.depth stat_tall) }
    ensures answer { OfWords source.now
        (Answers stat_view (program (last (counts scope))) at result) }
{
    if source.is(at, Kind::Return) {
        return_statement(source, at, scope)
    } else {
        break_statement(source, at, scope)
    }
}

// return [explist]
#[cycle(grammar)]
fn return_statement(source: &Source, at: usize, scope: Scope) -> Result<Read<Stat>, Stop>
    requires cut { IsCut source.now }
    requires fits { Fits scope }
    requires some { at < length source.now.tokens.now }
    requires here { kind_at source.now.tokens.now at ≡ Some Kind.Return }
    ensures moves { IfOk result (Moves source.now.tokens.now at scope.depth stat_tall) }
    ensures answer { OfWords source.now
        (Answers stat_view (program (last (counts scope))) at result) }
{
    let line = source.line_at(at);
    if ends_return(source, at + 1) {
        return Ok(Read {
            node: Stat {
                line,
                what: StatKind::Return(List::new(source.alloc)),
            },
            height: 0,
            at: at + 1,
        });
    }
    let values = expressions(source, at + 1, scope)?;
    Ok(Read {
        node: Stat {
            line,
            what: StatKind::Return(values.node),
        },
        height: values.height,
        at: values.at,
    })
}

// Whether a `return` before this place has no expressions.
fn ends_return(source: &Source, at: usize) -> bool
    ensures { result ≡ ends_return_at (kind_at source.now.tokens.now at) }
{
    matches!(
        source.kind_at(at),
        None | Some(Kind::End | Kind::Else | Kind::ElseIf | Kind::Until | Kind::Semicolon)
    )
}

// break
fn break_statement(source: &Source, at: usize, scope: Scope) -> Result<Read<Stat>, Stop>
    requires cut { IsCut source.now }
    requires fits { Fits scope }
    requires some { at < length source.now.tokens.now }
    requires here { kind_at source.now.tokens.now at ≡ Some Kind.Break }
    ensures moves { IfOk result (Moves source.now.tokens.now at scope.depth stat_tall) }
    ensures answer { OfWords source.now
        (Answers stat_view (program (last (counts scope))) at result) }
{
    if !scope.in_loop {
        return Err(Stop::At(Fault::BreakOutside, at));
    }
    Ok(Read {
        node: Stat {
            line: source.line_at(at),
            what: StatKind::Break,
        },
        height: 0,
        at: at + 1,
    })
}

// `if` (Lua 5.1 manual §2.4.4).
ghost use Rattle.std.specs.Prelude.{◌≡◌, ◌+◌, ◌<◌, ◌≤◌, Some, IfOk, length, option_map};
ghost use Rattle.lua_tree.specs.Reading.{arms as arms_rule, more_arms, program, stat as stat_rule};
ghost use Rattle.lua_tree.specs.Spelled.{kind_at};
ghost use Rattle.lua_tree.specs.View.{arm_view, block_view, else_of, stat_view};
ghost use Rattle.lua_tree.specs.Answer.{Answers, Fits, IsCut, Moves, OfWords, Parts, arm_tall, counts, declares, else_tall, stat_tall};

use crate::expressions::expression;
use crate::scope::Scope;
use crate::source::{Read, Source, may_nest};
use crate::statements::block;
use crate::stop::Stop;
use crate::{Arm, Block, Stat, StatKind};
use love_base::List;
use lua_token::Kind;

// stat ::= if exp then block {elseif exp then block} [else block] end
#[cycle(grammar)]
pub(crate) fn if_statement(source: &Source, at: usize, scope: Scope) -> Result<Read<Stat>, Stop>
    requires cut { IsCut source.now }
    requires fits { Fits scope }
    requires some { at < length source.now.tokens.now }
    requires here { kind_at source.now.tokens.now at ≡ Some Kind.If }
    ensures moves { IfOk result (Moves source.now.tokens.now at scope.depth stat_tall) }
    ensures room { IfOk result (λ read. scope.locals + declares read.node ≤ 200) }
    ensures answer { OfWords source.now
        (Answers stat_view (program (stat_rule (counts scope))) at result) }
{
    may_nest(scope.depth + 1, at)?;
    let line = source.line_at(at);
    let first = arm(source, at + 1, scope)?;
    let mut arms = Vec::new(source.alloc);
    arms.push(first.node)?;
    let mut height = first.height;
    let mut end = first.at;
    'arms: while source.is(end, Kind::ElseIf) {
        let next = arm(source, end + 1, scope)?;
        arms.push(next.node)?;
        height = height.max(next.height);
        end = next.at;
    }
    let last = else_part(source, end, scope)?;
    Ok(Read {
        node: Stat {
            line,
            what: StatKind::If(List::from_vec(arms), last.node),
        },
        height: height.max(last.height),
        at: last.at,
    })
}

// exp then block, behind `if` or `elseif`
#[cycle(grammar)]
fn arm(source: &Source, at: usize, scope: Scope) -> Result<Read<Arm>, Stop>
    requires cut { IsCut source.now }
    requires fits { Fits scope }
    requires deep { scope.depth + 1 ≤ 200 }
    ensures moves { IfOk result (Moves source.now.tokens.now at scope.depth arm_tall) }
    ensures answer { OfWords source.now
        (Parts (λ arm. program (more_arms (counts scope))) (λ arm rest. arm_view arm rest)
        (program (arms_rule (counts scope))) at result) }
{
    let test = expression(source, at, scope, 0)?;
    let at = source.expect(test.at, Kind::Then)?;
    let body = block(source, at, scope.deeper())?;
    Ok(Read {
        node: Arm {
            test: test.node,
            block: body.node,
        },
        height: test.height.max(1 + body.height),
        at: body.at,
    })
}

// [else block] end
#[cycle(grammar)]
fn else_part(source: &Source, at: usize, scope: Scope) -> Result<Read<Option<Block>>, Stop>
    requires cut { IsCut source.now }
    requires fits { Fits scope }
    requires deep { scope.depth + 1 ≤ 200 }
    requires here { (kind_at source.now.tokens.now at ≡ Some Kind.ElseIf) → ⊥ }
    ensures moves { IfOk result (Moves source.now.tokens.now at scope.depth else_tall) }
    ensures answer { OfWords source.now
        (Answers (λ o. else_of (option_map block_view o)) (program (more_arms (counts scope)))
        at result) }
{
    if !source.is(at, Kind::Else) {
        return Ok(Read {
            node: None,
            height: 0,
            at: source.expect(at, Kind::End)?,
        });
    }
    let body = block(source, at + 1, scope.deeper())?;
    Ok(Read {
        node: Some(body.node),
        height: 1 + body.height,
        at: source.expect(body.at, Kind::End)?,
    })
}

ghost use Rattle.std.specs.Prelude.{◌≡◌, ◌<◌, ◌^◌, ◌⊎◌, ◌++◌, IfOk, IfErr, OnOk, Ok, Err, Result, List, All};
ghost use Rattle.lua_token.specs.Cuts.{StandsIn, tokens_of};
ghost use Rattle.lua_token.specs.Place.{step_length};
ghost use Rattle.lua_token.specs.Answer.{Gives, IsOutcome, IsTokensAnswer, no_memory};
ghost use Rattle.lua_token.specs.declared.fault.LexFault.{LexFault as Fault};
ghost use Rattle.lua_token.specs.declared.token.Token.{Token as Piece};

use crate::Token;
use crate::fault::{LexFault, LexWhat};
use crate::step::{Counted, Step, step_at};
use love_base::Memory;
use std::alloc::Global;

// The greatest length of a source.
pub(crate) const MAX_LENGTH: usize = 16_777_216;

// Puts the token of a step at the end, where it has one.
fn put(tokens: &mut Vec<Token>, step: &Step, start: usize, line: usize) -> Result<(), Memory>
    requires start { start < 2 ^ 32 }
    requires length { step_length step.now < 2 ^ 32 }
    requires line { line < 2 ^ 32 }
    ensures { OnOk result
        (tokens.new.items ≡ tokens.old.items ++ tokens_of step.now start line) }
{
    if let Step::Found(kind, length) = step {
        tokens.push(Token {
            kind: *kind,
            start: start as u32,
            length: *length as u32,
            line: line as u32,
        })?;
    }
    Ok(())
}

/// The tokens of a source (Lua 5.1 manual §2.1), in order. Places are offsets in bytes, from 0 on,
/// and lines count from 1.
///
/// Takes time in proportion to the source, whatever it holds, and room for its tokens.
///
/// # Errors
///
/// The first fault of the source: that of the first place that is no blank, comment or token, with
/// the line of that place. A source of over 16,777,216 bytes is [`LexWhat::TooLong`] with line 1,
/// which is tested first. [`LexWhat::Memory`] with line 0 where there is no room for the tokens.
pub fn tokens(alloc: Global, source: &[u8]) -> Result<Vec<Token>, LexFault>
    ensures found { IfOk result (λ tokens. IsTokensAnswer source.now (Ok tokens.items)) }
    ensures fault { IfErr result (λ fault.
        (fault ≡ no_memory) ⊎ IsTokensAnswer source.now (Err fault)) }

    // What is an answer is given, unless memory runs out.
    ensures only { (answer : Result (List Piece) Fault) → IsTokensAnswer source.now answer →
        Gives result answer }

    // Each token stands where it says.
    ensures each { IfOk result (λ tokens. All (StandsIn source.now) tokens.items) }
{
    cut(alloc, source)
}

// The answer, token by token.
fn cut(alloc: Global, source: &[u8]) -> Result<Vec<Token>, LexFault>
    ensures { IsOutcome source.now result }
{
    if source.len() > MAX_LENGTH {
        return Err(LexFault {
            line: 1,
            what: LexWhat::TooLong,
        });
    }
    let mut tokens = Vec::new(alloc);
    let mut start = 0;
    let mut line = 1;
    while start < source.len() {
        match step_at(&source[start..]) {
            Ok(Counted { step, newlines }) => {
                put(&mut tokens, &step, start, line)?;
                start += step.length();
                line += newlines;
            }
            Err(what) => {
                return Err(LexFault {
                    line: line as u32,
                    what,
                });
            }
        }
    }
    Ok(tokens)
}

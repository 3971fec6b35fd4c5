ghost use Rattle.std.specs.Prelude.{◌≡◌, ◌≤◌, Err, List, length, slice_get};
ghost use Rattle.lua_token.specs.Answer.{IsTokensAnswer};
ghost use Rattle.lua_token.specs.declared.fault.LexFault.{LexFault as Lexical};
ghost use Rattle.lua_tree.specs.Answer.{IsCut, OfWords, limits};
ghost use Rattle.lua_tree.specs.Faults.{IsExact};
ghost use Rattle.lua_tree.specs.Reading.{Answer};
ghost use Rattle.lua_tree.specs.Tree.{Block as Spelled};
ghost use Rattle.lua_tree.specs.Words.{Tok};
ghost use Rattle.lua_tree.specs.Parsed.{ChunkAnswers, fault_at, GivesAnswer, GivesFault, IsParsed, lexical_of, place_of, WasCut, WordsOf};

use crate::scope::Scope;
use crate::source::Source;
use crate::statements::block;
use crate::stop::{Fault, Stop};
use crate::{Chunk, ParseFault};
use lua_token::{LexFault, LexWhat, Token, tokens};
use std::alloc::Global;

/// The syntax tree of a source, by the grammar of Lua 5.1 (manual §8).
///
/// # Errors
///
/// The first fault of the source. A fault of its tokens comes before all others; of several at one
/// token the first in the order of [`ParseFault`] counts. [`ParseFault::Memory`] where there is no
/// room for the tree.
pub fn parse(alloc: Global, source: &[u8]) -> Result<Chunk, ParseFault>
    // What is the first fault of its tokens is given, unless memory runs out.
    ensures lexical { (fault : Lexical) → IsTokensAnswer source.now (Err fault) →
        GivesFault result (ParseFault.Lex fault) }

    // No other fault of tokens is given, and a tree or another fault only where there is none; such
    // a fault is at a token of the source or at its end.
    ensures cut { WasCut source.now result }

    // What is answered is the one exact answer of the source's words: the chunk that they spell, or
    // the first fault of the lowest number with its place.
    ensures exact { IsParsed source.now result }

    // And the exact answer of its words is given, unless memory ran out.
    ensures only { (words : List Tok) (answer : Answer Spelled) → WordsOf source.now words →
        IsExact limits words answer → GivesAnswer source.now result answer }
{
    let tokens = match tokens(alloc, source) {
        Ok(tokens) => tokens,
        Err(fault) => return Err(lexical(fault)),
    };
    let cursor = Source {
        alloc,
        bytes: source,
        tokens: tokens.as_slice(),
    };
    match chunk(&cursor) {
        Ok(chunk) => Ok(chunk),
        Err(Stop::Memory) => Err(ParseFault::Memory),
        Err(Stop::At(fault, at)) => Err(placed(&cursor, fault, at)),
    }
}

// chunk ::= block, up to the end of the source
fn chunk(source: &Source) -> Result<Chunk, Stop>
    requires cut { IsCut source.now }
    ensures { OfWords source.now (ChunkAnswers result) }
{
    let read = block(source, 0, Scope::chunk())?;
    if read.at < source.tokens.len() {
        return Err(Stop::At(Fault::Unexpected, read.at));
    }
    Ok(Chunk { block: read.node })
}

// The fault of a source that isn't cut into tokens.
fn lexical(fault: LexFault) -> ParseFault
    ensures { result ≡ lexical_of fault }
{
    match fault.what {
        LexWhat::Memory => ParseFault::Memory,
        _ => ParseFault::Lex(fault),
    }
}

// The fault at the token of a place, or at the end.
fn placed(source: &Source, fault: Fault, at: usize) -> ParseFault
    requires { length source.now.bytes.now ≤ 16777216 }
    ensures { result ≡ fault_at fault
        (place_of source.now.bytes.now (slice_get source.now.tokens.now at)) }
{
    let (line, place) = position(source, at);
    match fault {
        Fault::Unexpected => ParseFault::Unexpected { line, place },
        Fault::BreakOutside => ParseFault::BreakOutside { line },
        Fault::VarargOutside => ParseFault::VarargOutside { line },
        Fault::TooDeep => ParseFault::TooDeep { line },
        Fault::TooManyLocals => ParseFault::TooManyLocals { line },
        Fault::AmbiguousCall => ParseFault::AmbiguousCall { line },
    }
}

// The line of a token and how many bytes stand before it, or those of the source's end.
#[tactic(auto, using(crate::proofs::Lines::lines))]
fn position(source: &Source, at: usize) -> (u32, u32)
    requires { length source.now.bytes.now ≤ 16777216 }
    ensures { result ≡ place_of source.now.bytes.now (slice_get source.now.tokens.now at) }
{
    match source.tokens.get(at) {
        Some(token) => (token.line, token.start),
        None => {
            let newlines = source.bytes.iter().filter(|b| **b == b'\n').count();
            (1 + newlines as u32, source.bytes.len() as u32)
        }
    }
}

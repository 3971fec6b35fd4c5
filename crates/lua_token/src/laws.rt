//! Laws of the definitions, each the contract of a function that gives nothing.

ghost use Rattle.std.specs.Prelude.{◌≡◌, ◌+◌, ℕ, ℤ, List, Result, take, drop};
ghost use Rattle.lua_token.specs.Answer.{IsTokensAnswer};
ghost use Rattle.lua_token.specs.Cuts.{Cuts, Faults, StandsIn};
ghost use Rattle.lua_token.specs.Longest.{IsLongestSpelling};
ghost use Rattle.lua_token.specs.Run.{number_length};
ghost use Rattle.lua_token.specs.Value.{HasValue};
ghost use Rattle.lua_token.specs.declared.fault.LexFault.{LexFault};
ghost use Rattle.lua_token.specs.declared.kind.Kind.TheVariants.{Number, Str};
ghost use Rattle.lua_token.specs.declared.token.Token.{Token};

use crate::lexer::MAX_LENGTH;
use crate::step::step_at;

/// Each source has an answer: its list of tokens, or its fault.
///
/// The body goes through the source, and takes no memory: where it ends the answer is there.
pub fn some_answer(source: &[u8])
    ensures { (answer : Result (List Token) LexFault) × IsTokensAnswer source.now answer }
{
    if source.len() > MAX_LENGTH {
        return;
    }
    let mut start = 0;
    while start < source.len() {
        match step_at(&source[start..]) {
            Ok(counted) => start += counted.step.length(),
            Err(_) => return,
        }
    }
}

/// A source is cut into at most one list of tokens.
pub fn one_list()
    ensures { (source : List ℕ) (ts us : List Token) → Cuts source ts → Cuts source us → ts ≡ us }
{}

/// A source has at most one first fault.
pub fn one_fault()
    ensures { (source : List ℕ) (f g : LexFault) → Faults source f → Faults source g → f ≡ g }
{}

/// A source that has a fault is cut into no list of tokens.
pub fn list_or_fault()
    ensures { (source : List ℕ) (ts : List Token) (fault : LexFault) → Cuts source ts →
        Faults source fault → ⊥ }
{}

/// A string's token stands for one list of bytes.
pub fn one_value()
    ensures { (source : List ℕ) (t : Token) (a b : List ℕ) → HasValue source t a →
        HasValue source t b → a ≡ b }
{}

/// Each token of a string has a value.
pub fn some_value()
    ensures { (source : List ℕ) (t : Token) → StandsIn source t → t.kind ≡ Str →
        (bytes : List ℕ) × HasValue source t bytes }
{}

/// A number's token is the whole run of its bytes.
pub fn whole_run()
    ensures { (source : List ℕ) (t : Token) (z : ℤ) → StandsIn source t → t.kind ≡ Number z →
        t.length ≡ number_length (drop t.start source) }
{}

/// A token is a spelling of its kind, and no longer spelling stands at its place. Of a number the
/// spellings are numerals: that its whole run is one says [`whole_run`].
pub fn longest()
    ensures { (source : List ℕ) (t : Token) → StandsIn source t →
        IsLongestSpelling t.kind
        (take t.length (drop t.start source))
        (drop (t.start + t.length) source) }
{}

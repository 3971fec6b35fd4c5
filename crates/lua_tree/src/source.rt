// The tokens of a source, as the rules of the grammar look at them.
ghost use Rattle.std.specs.Prelude.{◌≡◌, ◌↔◌, ◌+◌, ◌≤◌, ◌<◌, Some, IsTrue, IfSome, IfOk, IfErr, length, slice_get};
ghost use Rattle.lua_tree.specs.Spelled.{IsMark, kind_at, number_of_kind};
ghost use Rattle.lua_tree.specs.Answer.{IsCut, NamedAt, NoLocalAt, StringAt, StoppedAt, line_of};

use crate::stop::{Fault, Stop};
use love_base::Text;
use lua_token::{Kind, Token, string_value};
use lua_value::Num;
use std::alloc::Global;

// How many blocks and expressions may be around one another.
pub(crate) const MAX_DEPTH: u32 = 200;
// How many locals of one function may be in scope at once.
pub(crate) const MAX_LOCALS: u32 = 200;

// A source and its tokens. A place among them is how many tokens stand before it.
#[derive(Clone, Copy)]
pub(crate) struct Source<'a> {
    pub alloc: Global,
    pub bytes: &'a [u8],
    pub tokens: &'a [Token],
}

// What a rule reads: a node, how many nodes it is high, and the place behind it.
#[derive(Drop)]
pub(crate) struct Read<T> {
    pub node: T,
    pub height: u32,
    pub at: usize,
}

impl Source<'_> {
    // The token there; none at the end.
    pub(crate) fn token_at(&self, at: usize) -> Option<Token>
        ensures { result ≡ slice_get self.now.tokens.now at }
    {
        self.tokens.get(at).copied()
    }

    // Which token stands there; none at the end.
    #[tactic(auto, using(std::proofs::lemmas::Option::slice_get_within))]
    pub(crate) fn kind_at(&self, at: usize) -> Option<Kind>
        ensures value { result ≡ kind_at self.now.tokens.now at }
        ensures within { IfSome result (λ kind. at < length self.now.tokens.now) }
    {
        match self.token_at(at) {
            Some(token) => Some(token.kind),
            None => None,
        }
    }

    // Whether this token, which is no number, stands there.
    pub(crate) fn is(&self, at: usize, kind: Kind) -> bool
        requires { IsMark kind }
        ensures value { IsTrue result ↔ (kind_at self.now.tokens.now at ≡ Some kind) }
        ensures within { IsTrue result → at < length self.now.tokens.now }
    {
        self.kind_at(at) == Some(kind)
    }

    // The line of the token there; 0 at the end.
    pub(crate) fn line_at(&self, at: usize) -> u32
        ensures { result ≡ line_of (slice_get self.now.tokens.now at) }
    {
        match self.token_at(at) {
            Some(token) => token.line,
            None => 0,
        }
    }

    // The place behind this token, which has to stand there.
    pub(crate) fn expect(&self, at: usize, kind: Kind) -> Result<usize, Stop>
        requires { IsMark kind }
        ensures there { IfOk result (λ next. kind_at self.now.tokens.now at ≡ Some kind) }
        ensures next { IfOk result (λ next. next ≡ at + 1) }
        ensures within { IfOk result (λ next. at < length self.now.tokens.now) }
        ensures err { IfErr result
            (StoppedAt Fault.Unexpected at (kind_at self.now.tokens.now at ≡ Some kind → ⊥)) }
    {
        if self.is(at, kind) {
            Ok(at + 1)
        } else {
            Err(Stop::At(Fault::Unexpected, at))
        }
    }

    // The name that has to stand there.
    #[tactic(auto, using(std::proofs::lemmas::Option::slice_get_within))]
    pub(crate) fn name_at(&self, at: usize) -> Result<Text, Stop>
        requires { IsCut self.now }
        ensures ok { IfOk result (NamedAt self.now at) }
        ensures within { IfOk result (λ name. at < length self.now.tokens.now) }
        ensures err { IfErr result
            (StoppedAt Fault.Unexpected at (kind_at self.now.tokens.now at ≡ Some Kind.Name → ⊥)) }
    {
        match self.token_at(at) {
            Some(
                Token {
                    kind: Kind::Name,
                    start,
                    length,
                    line: _,
                },
            ) => {
                let start = start as usize;
                let end = start + length as usize;
                Ok(Text::of(self.alloc, &self.bytes[start..end])?)
            }
            _ => Err(Stop::At(Fault::Unexpected, at)),
        }
    }

    // The number there.
    pub(crate) fn number_at(&self, at: usize) -> Option<Num>
        ensures { result ≡ number_of_kind (kind_at self.now.tokens.now at) }
    {
        match self.token_at(at) {
            Some(token) => number_of(token.kind),
            None => None,
        }
    }

    // The bytes of the string there.
    pub(crate) fn string_at(&self, at: usize) -> Result<Text, Stop>
        requires cut { IsCut self.now }
        requires is_string { kind_at self.now.tokens.now at ≡ Some Kind.Str }
        ensures ok { IfOk result (StringAt self.now at) }
        ensures err { IfErr result (λ stop. stop ≡ Stop.Memory) }
    {
        Ok(string_value(self.alloc, self.bytes, &self.tokens[at])?)
    }

    // The name of one more local, where so many are in scope before.
    pub(crate) fn local_at(&self, at: usize, locals: u32) -> Result<Text, Stop>
        requires { IsCut self.now }
        ensures ok { IfOk result (NamedAt self.now at) }
        ensures within { IfOk result (λ name. at < length self.now.tokens.now) }
        ensures room { IfOk result (λ name. locals < 200) }
        ensures err { IfErr result (NoLocalAt self.now at locals) }
    {
        let name = self.name_at(at)?;
        if locals < MAX_LOCALS {
            Ok(name)
        } else {
            Err(Stop::At(Fault::TooManyLocals, at))
        }
    }
}

// The number that such a token is.
fn number_of(kind: Kind) -> Option<Num>
    ensures { result ≡ number_of_kind (Some kind) }
{
    match kind {
        Kind::Number(value) => Some(value),
        _ => None,
    }
}

// Whether a node may be at this depth, which the token there makes unavoidable.
pub(crate) fn may_nest(depth: u32, at: usize) -> Result<(), Stop>
    ensures ok { IfOk result (λ u. depth ≤ 200) }
    ensures err { IfErr result (StoppedAt Fault.TooDeep at (200 < depth)) }
    ensures faulty { IfErr result (λ stop. stop ≡ Stop.At Fault.TooDeep at) }
{
    if depth <= MAX_DEPTH {
        Ok(())
    } else {
        Err(Stop::At(Fault::TooDeep, at))
    }
}

ghost use Rattle.std.specs.Prelude.{◌≡◌, ◌≤◌, ◌<◌, ◌+◌, length, Ok, Some, IfOk};
ghost use Rattle.std.specs.List.{prefix_len};
ghost use Rattle.lua_token.specs.Bytes.{is_of};
ghost use Rattle.lua_token.specs.Long.{level};
ghost use Rattle.lua_token.specs.Run.{number_length};
ghost use Rattle.lua_token.specs.Place.{begins, step_length, uncounted};
ghost use Rattle.lua_token.specs.Place.{Advances, CountsNewlines, Stands, StandsAt};
ghost use Rattle.lua_token.specs.declared.bytes.Class.TheVariants.{InName};
ghost use Rattle.lua_token.specs.declared.start.Start.TheVariants as starts;

use crate::Kind;
use crate::bytes::{Class, newlines, run_length};
use crate::fault::LexWhat;
use crate::long::{level, long_span};
use crate::number::number_length;
use crate::quoted::{Character, character_at};
use crate::spelled::{symbol_at, word_kind};
use crate::start::{Start, start_of};
use lua_value::{Num, NumeralFault};

// What stands at a place: bytes to pass over, or a token of so many bytes.
#[derive(Clone, Copy, Debug, PartialEq, Eq)]
pub(crate) enum Step {
    Skip(usize),
    Found(Kind, usize),
}

impl Step {
    // How far it goes.
    pub(crate) fn length(&self) -> usize
        ensures { result ≡ step_length self.now }
    {
        match self {
            Step::Skip(length) | Step::Found(_, length) => *length,
        }
    }
}

// A step, and how many newlines it passes.
#[derive(Clone, Copy, Debug, PartialEq, Eq)]
pub(crate) struct Counted {
    pub(crate) step: Step,
    pub(crate) newlines: usize,
}

// A blank.
fn blank(text: &[u8]) -> Counted
    requires { 0 < length text.now }
    ensures value { Stands starts.Blank text.now (Ok result.step) }
    ensures fits { Advances result.step (length text.now) }
    ensures lines { CountsNewlines text.now result }
{
    Counted {
        step: Step::Skip(1),
        newlines: usize::from(text[0] == b'\n'),
    }
}

// A name or a keyword.
fn word(text: &[u8]) -> Counted
    requires { 0 < prefix_len (is_of InName) text.now }
    ensures value { Stands starts.Word text.now (Ok result.step) }
    ensures fits { Advances result.step (length text.now) }
    ensures lines { CountsNewlines text.now result }
{
    let length = run_length(text, Class::InName);
    Counted {
        step: Step::Found(word_kind(&text[..length]), length),
        newlines: 0,
    }
}

// A number, which is the whole run of its bytes.
fn number(text: &[u8]) -> Result<Counted, LexWhat>
    requires { 0 < number_length text.now }
    ensures value { Stands starts.Digits text.now (uncounted result) }
    ensures fits { IfOk result (λ counted. Advances counted.step (length text.now)) }
    ensures lines { IfOk result (CountsNewlines text.now) }
{
    let length = number_length(text);
    match Num::numeral(&text[..length]) {
        Ok(value) => Ok(Counted {
            step: Step::Found(Kind::Number(value), length),
            newlines: 0,
        }),
        Err(NumeralFault::Malformed) => Err(LexWhat::BadNumber),
        Err(NumeralFault::NotWhole) => Err(LexWhat::NotWhole),
    }
}

// A string in quotes.
fn quoted(text: &[u8]) -> Result<Counted, LexWhat>
    requires some { 0 < length text.now }
    requires quote { begins text.now ≡ starts.Quote }
    ensures value { Stands starts.Quote text.now (uncounted result) }
    ensures fits { IfOk result (λ counted. Advances counted.step (length text.now)) }
    ensures lines { IfOk result (CountsNewlines text.now) }
{
    let quote = text[0];
    let mut end = 1;
    let mut passed = 0;
    loop {
        match character_at(quote, &text[end..]) {
            Character::Byte(_, length) => {
                passed += newlines(&text[end..end + length]);
                end += length;
            }
            Character::Closing => {
                return Ok(Counted {
                    step: Step::Found(Kind::Str, end + 1),
                    newlines: passed,
                });
            }
            Character::Unfinished => return Err(LexWhat::OpenString),
            Character::TooLarge => return Err(LexWhat::BadEscape),
        }
    }
}

// A comment: long where a long bracket opens behind its dashes, or else to the end of its line.
fn comment(text: &[u8]) -> Result<Counted, LexWhat>
    requires within { 2 ≤ length text.now }
    requires dashes { begins text.now ≡ starts.Comment }
    ensures value { Stands starts.Comment text.now (uncounted result) }
    ensures fits { IfOk result (λ counted. Advances counted.step (length text.now)) }
    ensures lines { IfOk result (CountsNewlines text.now) }
{
    let body = &text[2..];
    match level(body, b'[') {
        None => {
            let length = run_length(body, Class::InLine);
            Ok(Counted {
                step: Step::Skip(2 + length),
                newlines: 0,
            })
        }
        Some(opened) => match long_span(body, opened) {
            Some(span) => Ok(Counted {
                step: Step::Skip(2 + span.length),
                newlines: span.newlines,
            }),
            None => Err(LexWhat::OpenLong),
        },
    }
}

// A string in long brackets of this level.
fn long_string(text: &[u8], opened: usize) -> Result<Counted, LexWhat>
    requires within { opened + 2 ≤ length text.now }
    requires opens { level 91 text.now ≡ Some opened }
    ensures value { Stands (starts.Long opened) text.now (uncounted result) }
    ensures fits { IfOk result (λ counted. Advances counted.step (length text.now)) }
    ensures lines { IfOk result (CountsNewlines text.now) }
{
    match long_span(text, opened) {
        Some(span) => Ok(Counted {
            step: Step::Found(Kind::Str, span.length),
            newlines: span.newlines,
        }),
        None => Err(LexWhat::OpenLong),
    }
}

// A symbol.
fn symbol(text: &[u8]) -> Result<Counted, LexWhat>
    ensures value { Stands starts.Symbol text.now (uncounted result) }
    ensures fits { IfOk result (λ counted. Advances counted.step (length text.now)) }
    ensures lines { IfOk result (CountsNewlines text.now) }
{
    match symbol_at(text) {
        Some(kind) => {
            let length = kind.spelled_length();
            Ok(Counted {
                step: Step::Found(kind, length),
                newlines: 0,
            })
        }
        None => Err(LexWhat::BadByte),
    }
}

// What stands at the front of a text that isn't empty.
pub(crate) fn step_at(text: &[u8]) -> Result<Counted, LexWhat>
    requires { 0 < length text.now }
    ensures value { StandsAt text.now (uncounted result) }
    ensures fits { IfOk result (λ counted. Advances counted.step (length text.now)) }
    ensures lines { IfOk result (CountsNewlines text.now) }
{
    match start_of(text) {
        Start::Nothing => unreachable!(),
        Start::Blank => Ok(blank(text)),
        Start::Word => Ok(word(text)),
        Start::Digits => number(text),
        Start::Quote => quoted(text),
        Start::Comment => comment(text),
        Start::Long(opened) => long_string(text, opened),
        Start::Symbol => symbol(text),
    }
}

ghost use Rattle.std.specs.Prelude.{◌≡◌, ◌≤◌, ◌+◌, length};
ghost use Rattle.std.specs.Char.{is_ascii_digit};
ghost use Rattle.std.specs.List.{AllPass};
ghost use Rattle.std.specs.Str.Parse.{digits_value};
ghost use Rattle.lua_token.specs.Quoted.{escaped, decimal_escape, escape_at, character_at, Takes};

use crate::bytes::{Class, run_length};

// What stands at a place inside a quoted string: a byte, and how many bytes of the source stand for
// it.
#[derive(Clone, Copy, Debug, PartialEq, Eq)]
pub(crate) enum Character {
    Byte(u8, usize),
    Closing,
    Unfinished,
    TooLarge,
}

// What a byte behind a backslash stands for.
#[tactic(auto, unfolding(crate::specs::Quoted::escaped))]
fn escaped(b: u8) -> u8
    ensures { result ≡ escaped b }
{
    match b {
        b'a' => 7,
        b'b' => 8,
        b'f' => 12,
        b'n' => b'\n',
        b'r' => b'\r',
        b't' => b'\t',
        b'v' => 11,
        other => other,
    }
}

// The number that decimal digits spell.
fn decimal_value(digits: &[u8]) -> u32
    requires few { length digits.now ≤ 3 }
    requires decimal { AllPass is_ascii_digit digits.now }
    ensures { result ≡ digits_value 10 digits.now }
{
    let mut value = 0;
    for digit in digits {
        value = 10 * value + u32::from(*digit - b'0');
    }
    value
}

// The decimal escape with these digits.
fn decimal_escape(digits: &[u8]) -> Character
    requires few { length digits.now ≤ 3 }
    requires decimal { AllPass is_ascii_digit digits.now }
    ensures { result ≡ decimal_escape digits.now }
{
    match u8::try_from(decimal_value(digits)) {
        Ok(byte) => Character::Byte(byte, 1 + digits.len()),
        Err(_) => Character::TooLarge,
    }
}

// The escape of which this text stands behind the backslash.
#[tactic(auto, unfolding(crate::specs::Quoted::escape_at))]
fn escape_at(text: &[u8]) -> Character
    ensures value { result ≡ escape_at text.now }
    ensures fits { Takes result (length text.now + 1) }
{
    match text {
        [] => Character::Unfinished,
        [first, ..] if first.is_ascii_digit() => {
            let count = run_length(text, Class::Digit).min(3);
            decimal_escape(&text[..count])
        }
        [b'\r', b'\n', ..] => Character::Byte(b'\n', 3),
        [first, ..] => Character::Byte(escaped(*first), 2),
    }
}

// The character at the front of a text inside these quotes.
#[tactic(auto, unfolding(crate::specs::Quoted::character_at))]
pub(crate) fn character_at(quote: u8, text: &[u8]) -> Character
    ensures value { result ≡ character_at quote text.now }
    ensures fits { Takes result (length text.now) }
{
    match text {
        [first, ..] if *first == quote => Character::Closing,
        [b'\\', escape @ ..] => escape_at(escape),
        [] | [b'\n', ..] => Character::Unfinished,
        [first, ..] => Character::Byte(*first, 1),
    }
}

ghost use Rattle.std.specs.Prelude.{◌≡◌, ◌+◌, length};
ghost use Rattle.lua_pattern.specs.Reading.{start_of, start_behind_percent, balance_start, repeat_of, StartFits};

use crate::class::Member;
use crate::element::escaped;
use crate::item::Repeat;

// What begins at a place of a pattern, outside sets.
#[derive(Clone, Copy, Debug, PartialEq, Eq)]
pub(crate) enum Start {
    // `(`
    Open,
    // `()`
    Position,
    // `)`
    Close,
    // `%` and this digit.
    Back(u8),
    // `%b` and these bytes.
    Balance(u8, u8),
    // `%b` with fewer than two bytes behind it.
    ShortBalance,
    // `%f`
    Frontier,
    // `%` as the last byte.
    LonePercent,
    // `$` as the last byte.
    End,
    // `.`
    Any,
    // `[`
    Set,
    // A byte, or a class that has a letter, of which so many bytes stand behind the first one.
    One(Member, usize),
}

// What begins with `%b` and this text.
fn balance_start(text: &[u8]) -> Start
    ensures value { result ≡ balance_start text.now }
    ensures fits { StartFits result (length text.now + 1) }
{
    match text {
        [x, y, ..] => Start::Balance(*x, *y),
        _ => Start::ShortBalance,
    }
}

// What begins with `%` and this text.
#[tactic(auto, unfolding(crate::specs::Reading::start_behind_percent))]
fn start_behind_percent(text: &[u8]) -> Start
    ensures value { result ≡ start_behind_percent text.now }
    ensures fits { StartFits result (length text.now) }
{
    let Some((byte, rest)) = text.split_first() else {
        return Start::LonePercent;
    };
    match *byte {
        b'0'..=b'9' => Start::Back(*byte - b'0'),
        b'b' => balance_start(rest),
        b'f' => Start::Frontier,
        _ => Start::One(escaped(*byte), 1),
    }
}

// What begins with a byte that this text follows.
#[tactic(auto, unfolding(crate::specs::Reading::start_of))]
pub(crate) fn start_of(byte: u8, text: &[u8]) -> Start
    ensures value { result ≡ start_of byte text.now }
    ensures fits { StartFits result (length text.now) }
{
    match byte {
        b'%' => start_behind_percent(text),
        b'(' => match text {
            [b')', ..] => Start::Position,
            _ => Start::Open,
        },
        b')' => Start::Close,
        b'$' if text.is_empty() => Start::End,
        b'.' => Start::Any,
        b'[' => Start::Set,
        _ => Start::One(Member::Byte(byte), 0),
    }
}

// How often a class stands that this text follows.
pub(crate) fn repeat_of(text: &[u8]) -> Repeat
    ensures { result ≡ repeat_of text.now }
{
    match text {
        [b'*', ..] => Repeat::Star,
        [b'+', ..] => Repeat::Plus,
        [b'-', ..] => Repeat::Minus,
        [b'?', ..] => Repeat::Question,
        _ => Repeat::Once,
    }
}

ghost use Rattle.std.specs.Prelude.{◌≡◌, length};
ghost use Rattle.lua_token.specs.Place.{begins, Opens};

use crate::bytes::is_letter;
use crate::long::level;
use lua_value::is_blank;

// What begins at a place.
#[derive(Clone, Copy, Debug, PartialEq, Eq)]
pub(crate) enum Start {
    Nothing,
    Blank,
    Word,
    Digits,
    Quote,
    Comment,
    Long(usize),
    Symbol,
}

// What begins at the front.
#[tactic(auto, unfolding(crate::specs::Place::begins))]
pub(crate) fn start_of(text: &[u8]) -> Start
    ensures value { result ≡ begins text.now }
    ensures opens { Opens result (length text.now) }
{
    match text {
        [] => Start::Nothing,
        [b, ..] if is_blank(*b) => Start::Blank,
        [b, ..] if is_letter(*b) => Start::Word,
        [b, ..] if b.is_ascii_digit() => Start::Digits,
        [b'.', b, ..] if b.is_ascii_digit() => Start::Digits,
        [b'\"' | b'\'', ..] => Start::Quote,
        [b'-', b'-', ..] => Start::Comment,
        _ => match level(text, b'[') {
            Some(n) => Start::Long(n),
            None => Start::Symbol,
        },
    }
}

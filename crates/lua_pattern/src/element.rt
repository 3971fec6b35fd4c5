ghost use Rattle.std.specs.Prelude.{◌≡◌, length};
ghost use Rattle.lua_pattern.specs.Element.{named, escaped, element_at, ElementFits};

use crate::class::{Member, Named};

// What stands at a place of a set.
#[derive(Clone, Copy, Debug, PartialEq, Eq)]
pub(crate) enum Element {
    // A member of so many bytes.
    Is(Member, usize),
    // The `]` that closes the set.
    Closing,
    // The end of the pattern.
    Unclosed,
    // A `%` that is the pattern's last byte.
    LonePercent,
}

// The class that has this letter.
fn named(letter: u8) -> Option<Named>
    ensures { result ≡ named letter }
{
    match letter {
        b'a' => Some(Named::Letter),
        b'c' => Some(Named::Control),
        b'd' => Some(Named::Digit),
        b'l' => Some(Named::Lower),
        b'p' => Some(Named::Punctuation),
        b's' => Some(Named::Space),
        b'u' => Some(Named::Upper),
        b'w' => Some(Named::Alphanumeric),
        b'x' => Some(Named::Hexadecimal),
        b'z' => Some(Named::Zero),
        _ => None,
    }
}

// What a byte behind `%` stands for.
#[tactic(auto, unfolding(crate::specs::Element::escaped))]
pub(crate) fn escaped(byte: u8) -> Member
    ensures { result ≡ escaped byte }
{
    if byte.is_ascii_uppercase() {
        match named(byte + 32) {
            Some(class) => Member::NotNamed(class),
            None => Member::Byte(byte),
        }
    } else {
        match named(byte) {
            Some(class) => Member::Named(class),
            None => Member::Byte(byte),
        }
    }
}

// What stands at the front of a set's text; the first byte of a set doesn't close it.
pub(crate) fn element_at(is_first: bool, text: &[u8]) -> Element
    ensures value { result ≡ element_at is_first text.now }
    ensures fits { ElementFits result (length text.now) }
{
    match text {
        [] => Element::Unclosed,
        [b']', ..] if !is_first => Element::Closing,
        [b'%'] => Element::LonePercent,
        [b'%', byte, ..] => Element::Is(escaped(*byte), 2),
        [low, b'-', high, ..] if *high != b']' && *high != b'%' => {
            Element::Is(Member::Range(*low, *high), 3)
        }
        [byte, ..] => Element::Is(Member::Byte(*byte), 1),
    }
}

//! Blanks around a text.

ghost use Rattle.std.specs.Prelude.{◌≡◌, reverse};
ghost use Rattle.lua_meaning.specs.Number.{behind_blanks, trimmed};

use lua_value::is_blank;

// The text without the blanks at both ends.
pub(crate) fn trimmed(text: &[u8]) -> &[u8]
    ensures { result.now ≡ trimmed text.now }
{
    before_blanks(behind_blanks(text))
}

// The text without the blanks at its beginning.
fn behind_blanks(text: &[u8]) -> &[u8]
    ensures { result.now ≡ behind_blanks text.now }
{
    let mut rest = text;
    while let [first, behind @ ..] = rest {
        if !is_blank(*first) {
            break;
        }
        rest = behind;
    }
    rest
}

// The text without the blanks at its end.
fn before_blanks(text: &[u8]) -> &[u8]
    ensures { result.now ≡ reverse (behind_blanks (reverse text.now)) }
{
    let mut rest = text;
    while let [before @ .., last] = rest {
        if !is_blank(*last) {
            break;
        }
        rest = before;
    }
    rest
}

//! Hexadecimal numerals: `0x` or `0X`, and digits.

ghost use Rattle.std.specs.Prelude.{◌≡◌, ◌≢◌, ℕ, ◌⊎◌, List, ◌∷◌, MatchOption};
ghost use Rattle.lua_value.specs.Numeral.{IsHexadecimalAnswer};

use crate::decimal::append_zeros;
use crate::digits::{after_either, digits_onto};
use crate::{Num, NumeralFault};

// What stands behind `0x` or `0X`.
pub(crate) fn hexadecimal_digits(text: &[u8]) -> Option<&[u8]>
    ensures { MatchOption result
        ((letter : ℕ) (digits : List ℕ) → (letter ≡ 120) ⊎ (letter ≡ 88) →
        text.now ≢ 48 ∷ (letter ∷ digits))
        (λ digits. (letter : ℕ) × ((letter ≡ 120) ⊎ (letter ≡ 88))
        × (text.now ≡ 48 ∷ (letter ∷ digits.now))) }
{
    let letter = text.strip_prefix(b"0")?;
    after_either(letter, b'x', b'X')
}

// The value of the digits behind `0x`.
pub(crate) fn hexadecimal(digits: &[u8]) -> Result<Num, NumeralFault>
    ensures { IsHexadecimalAnswer digits.now result }
{
    if digits.is_empty() {
        return Err(NumeralFault::Malformed);
    }
    let number = digits_onto(16, 0, digits).ok_or(NumeralFault::Malformed)?;
    append_zeros(number, 0).ok_or(NumeralFault::NotWhole)
}

//! Numerals (Lua 5.1 manual §2.1): numbers read from bytes.

ghost use Rattle.std.specs.Prelude.{◌≡◌, ◌↔◌, ℤ, pos, ◌<◌, ◌≤◌, length};
ghost use Rattle.std.specs.Str.Parse.{AllDigits, digits_value};
ghost use Rattle.lua_value.specs.Num.{IsNum};
ghost use Rattle.lua_value.specs.Numeral.{IsNumeral, Denotes, IsNumeralAnswer};

use crate::Num;
use crate::decimal::decimal;
use crate::hexadecimal::{hexadecimal, hexadecimal_digits};
use thiserror::Error;

/// Why a text has no number as its value.
#[derive(Clone, Copy, Debug, PartialEq, Eq, Error)]
pub enum NumeralFault {
    /// The text is no numeral.
    #[error("malformed number")]
    Malformed = 1,
    /// The text is a numeral, and its exact value isn't a number of the range.
    #[error("the number isn't whole or out of range")]
    NotWhole = 2,
}

impl Num {
    /// The exact value of a numeral: decimal digits with at most one point among them and an
    /// optional exponent, or hexadecimal digits behind `0x` or `0X`.
    ///
    /// Takes time in proportion to the text, whatever the exponent says.
    ///
    /// # Errors
    ///
    /// [`NumeralFault::Malformed`] where the text is no numeral, and [`NumeralFault::NotWhole`]
    /// where it is one whose exact value isn't whole or lies outside the range; the reference
    /// program of Lua 5.1 would round such a value.
    pub fn numeral(text: &[u8]) -> Result<Num, NumeralFault>
        ensures ok { (z : ℤ) → (result ≡ Ok z) ↔ (Denotes text.now z × IsNum z) }
        ensures malformed { (result ≡ Err NumeralFault.Malformed) ↔ ¬ IsNumeral text.now }
        ensures not_whole { (result ≡ Err NumeralFault.NotWhole)
            ↔ (IsNumeral text.now × ((z : ℤ) → Denotes text.now z → ¬ IsNum z)) }

        // One to fourteen decimal digits are always a number.
        ensures digits { 0 < length text.now → length text.now ≤ 14 → AllDigits 10 text.now →
            result ≡ Ok (pos (digits_value 10 text.now)) }
    {
        value_of(text)
    }
}

// The value of a numeral, hexadecimal where it begins so.
fn value_of(text: &[u8]) -> Result<Num, NumeralFault>
    ensures { IsNumeralAnswer text.now result }
{
    match hexadecimal_digits(text) {
        Some(digits) => hexadecimal(digits),
        None => decimal(text),
    }
}

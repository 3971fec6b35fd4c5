//! Decimal numerals: digits, perhaps with a point among them, and perhaps an exponent.

ghost use Rattle.std.specs.Prelude.{◌≡◌, ◌≢◌, ℤ, pos, ◌+◌, ◌*◌, ◌-◌, ◌^◌, ◌<◌, ◌++◌, ℕ, List, ◌∷◌, ◌⊎◌, take, drop, min, length, Option, MatchOption};
ghost use Rattle.std.specs.Str.Parse.{AllDigits, digits_value, digits_value_after};
ghost use Rattle.lua_value.specs.Num.{IsNum};
ghost use Rattle.lua_value.specs.Numeral.{IsNumeralAnswer, IsScaled, IsOptionalExponent, Exponent, exponent_text, exponent_value, fraction_digits, fraction_text};
ghost use Rattle.lua_value.specs.Place.{BeginsWithNoDigit, EndsMantissa, moved_point};

use crate::digits::{after_either, digits_onto, split_digits};
use crate::{Num, NumeralFault};

// The value of a decimal numeral. The text doesn't begin as a hexadecimal one.
pub(crate) fn decimal(text: &[u8]) -> Result<Num, NumeralFault>
    requires { (letter : ℕ) (digits : List ℕ) → (letter ≡ 120) ⊎ (letter ≡ 88) →
        text.now ≢ 48 ∷ (letter ∷ digits) }
    ensures { IsNumeralAnswer text.now result }
{
    let (whole, rest) = split_digits(text);
    let (fraction, exponent) = split_fraction(rest);
    if whole.len() + fraction.len() == 0 {
        return Err(NumeralFault::Malformed);
    }
    let Some(point) = shift_point(whole.len(), exponent) else {
        return Err(NumeralFault::Malformed);
    };
    value_at_point(whole, fraction, point).ok_or(NumeralFault::NotWhole)
}

// The digits behind a point, none where the text doesn't begin with one, and what stands behind
// them.
fn split_fraction(text: &[u8]) -> (&[u8], &[u8])
    requires { BeginsWithNoDigit text.now }
    ensures { (fraction : Option (List ℕ)) × AllDigits 10 (fraction_digits fraction)
        × EndsMantissa fraction result.1.now
        × (result.0.now ≡ fraction_digits fraction)
        × (text.now ≡ fraction_text fraction ++ result.1.now) }
{
    match text.strip_prefix(b".") {
        Some(behind) => split_digits(behind),
        None => text.split_at(0),
    }
}

// Where the point behind `whole` digits stands once the exponent has moved it, or `None` where the
// text is no exponent.
fn shift_point(whole: usize, exponent: &[u8]) -> Option<usize>
    ensures { MatchOption result
        ((e : Option Exponent) → IsOptionalExponent e → exponent_text e ≢ exponent.now)
        (λ point. (e : Option Exponent) × IsOptionalExponent e
        × (exponent_text e ≡ exponent.now) × (point ≡ moved_point whole (exponent_value e))) }
{
    let Some(signed) = after_either(exponent, b'e', b'E') else {
        return if exponent.is_empty() {
            Some(whole)
        } else {
            None
        };
    };
    match signed.strip_prefix(b"-") {
        Some(digits) => Some(whole.saturating_sub(exponent_size(digits)?)),
        None => {
            let digits = signed.strip_prefix(b"+").unwrap_or(signed);
            Some(whole.saturating_add(exponent_size(digits)?))
        }
    }
}

// The number that one decimal digit or more write, at most the greatest word.
fn exponent_size(digits: &[u8]) -> Option<usize>
    ensures { MatchOption result
        ((0 < length digits.now) → ¬ AllDigits 10 digits.now)
        (λ n. (0 < length digits.now) × AllDigits 10 digits.now
        × (n ≡ min (digits_value 10 digits.now) (2 ^ 64 - 1))) }
{
    if digits.is_empty() {
        return None;
    }
    let number = digits_onto(10, 0, digits)?;
    Some(number as usize)
}

// The number that the digits write where the first `point` of them stand before the point, or
// `None` where it isn't whole or out of range.
fn value_at_point(whole: &[u8], fraction: &[u8], point: usize) -> Option<Num>
    requires whole { AllDigits 10 whole.now }
    requires fraction { AllDigits 10 fraction.now }
    requires short { length whole.now + length fraction.now < 2 ^ 63 }
    ensures { (e : ℤ) → point ≡ moved_point (length whole.now) e →
        MatchOption result
        ((z : ℤ) → IsScaled whole.now fraction.now e z → ¬ IsNum z)
        (λ z. IsScaled whole.now fraction.now e z × IsNum z) }
{
    let behind = point.saturating_sub(whole.len());
    let number = read_until(0, whole, point)?;
    let number = read_until(number, fraction, behind)?;
    append_zeros(number, behind.saturating_sub(fraction.len()))
}

// The number that the first `count` digits write behind those of `value`, or `None` where the
// others aren't all 0.
fn read_until(value: u64, digits: &[u8], count: usize) -> Option<u64>
    requires { AllDigits 10 digits.now }
    ensures { MatchOption result
        (digits_value 10 (drop count digits.now) ≢ 0)
        (λ n. (digits_value 10 (drop count digits.now) ≡ 0)
        × (n ≡ min (digits_value_after 10 value (take count digits.now)) (2 ^ 64 - 1))) }
{
    let (kept, cut) = digits.split_at(count.min(digits.len()));
    if digits_onto(10, 0, cut)? != 0 {
        return None;
    }
    digits_onto(10, value, kept)
}

// The number with as many zeros behind it, or `None` where it is out of range.
pub(crate) fn append_zeros(number: u64, zeros: usize) -> Option<Num>
    ensures { MatchOption result
        (¬ IsNum (pos (number * 10 ^ zeros)))
        (λ z. (z ≡ pos (number * 10 ^ zeros)) × IsNum z) }
{
    if number == 0 {
        return Num::new(0);
    }
    if zeros > 13 {
        return None;
    }
    let shifted = number.checked_mul(10u64.pow(zeros as u32))?;
    Num::new(i64::try_from(shifted).ok()?)
}

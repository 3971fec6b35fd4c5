//! Bytes at the front of a text, and the number that digits write.

ghost use Rattle.std.specs.Prelude.{◌≡◌, ◌≢◌, ℕ, ◌-◌, ◌^◌, ◌≤◌, ◌⊎◌, List, ◌∷◌, ◌++◌, min, MatchOption};
ghost use Rattle.std.specs.Char.{is_ascii_digit};
ghost use Rattle.std.specs.List.{prefix_len};
ghost use Rattle.std.specs.Str.Parse.{AllDigits, digits_value_after};
ghost use Rattle.lua_value.specs.Place.{BeginsWithNoDigit};

// The bytes behind the first one, where that is one of the two.
pub(crate) fn after_either(text: &[u8], one: u8, other: u8) -> Option<&[u8]>
    ensures { MatchOption result
        ((c : ℕ) (rest : List ℕ) → text.now ≡ c ∷ rest → (c ≢ one) × (c ≢ other))
        (λ rest. (c : ℕ) × (text.now ≡ c ∷ rest.now) × ((c ≡ one) ⊎ (c ≡ other))) }
{
    let (first, rest) = text.split_first()?;
    if *first == one || *first == other {
        Some(rest)
    } else {
        None
    }
}

// The text cut in two behind the decimal digits at its front.
pub(crate) fn split_digits(text: &[u8]) -> (&[u8], &[u8])
    ensures digits { AllDigits 10 result.0.now }
    ensures rest { BeginsWithNoDigit result.1.now }
    ensures whole { text.now ≡ result.0.now ++ result.1.now }
{
    text.split_at(leading_digits(text))
}

// How many decimal digits stand at the front.
fn leading_digits(text: &[u8]) -> usize
    ensures { result ≡ prefix_len is_ascii_digit text.now }
{
    text.iter().take_while(|byte| byte.is_ascii_digit()).count()
}

// The number that the digits write behind those of `value`, or `None` where a byte is no digit in
// the base.
//
// It stays at the greatest word from there on, so that digits of any length take time in proportion
// to their count.
pub(crate) fn digits_onto(base: u32, value: u64, digits: &[u8]) -> Option<u64>
    requires least { 2 ≤ base }
    requires greatest { base ≤ 36 }
    ensures { MatchOption result
        (¬ AllDigits base digits.now)
        (λ v. AllDigits base digits.now
        × (v ≡ min (digits_value_after base value digits.now) (2 ^ 64 - 1))) }
{
    let mut number = value;
    for byte in digits {
        let Some(digit) = char::from(*byte).to_digit(base) else {
            return None;
        };
        number = number
            .saturating_mul(u64::from(base))
            .saturating_add(u64::from(digit));
    }
    Some(number)
}

//! Basic functions (Lua 5.1 manual §5.1).

ghost use Rattle.std.specs.Prelude.{◌≡◌, ℕ, ◌≤◌, drop, ◌+ℤ◌, ◌≤ℤ◌, pos, [], ◌∷◌, map, IfOk, IfErr};
ghost use Rattle.std.specs.Option.{option_and_then};
ghost use Rattle.lua_meaning.specs.Value.{Value, num, str};
ghost use Rattle.lua_meaning.specs.Basic as meaning;
ghost use Rattle.lua_meaning.specs.Basic.{number_value, count_from};
ghost use Rattle.lua_meaning.specs.Number as numbers;
ghost use Rattle.lua_lib.specs.Outcome.{Gives};
ghost use Rattle.lua_lib.specs.Faults.{FailsBy};

use crate::Fault;
use crate::blanks::trimmed;
use crate::signed::{GREATEST, Signed, natural, split_sign};
use lua_value::Num;

/// `select(n, ...)`: the arguments behind `n`, from the n-th on, or from the n-th counted from the
/// end where `n` is negative.
///
/// # Errors
///
/// [`Fault::IndexOutOfRange`] where `n` is 0 or lies before the first one.
pub fn select<T>(n: Num, arguments: &[T]) -> Result<&[T], Fault>
    ensures ok { IfOk result (λ selected. (value : T → Value) →
        Gives (meaning.selected n (map value arguments.now)) (map value selected.now)) }
    ensures last { IfOk result (λ selected. (count : ℕ) × (selected.now ≡ drop count arguments.now)) }
    ensures fault { IfErr result (λ fault. (value : T → Value) →
        FailsBy (meaning.selected n (map value arguments.now)) fault) }
{
    let count = arguments.len();
    match split_sign(n) {
        Signed::Plus(0) => Err(Fault::IndexOutOfRange),
        Signed::Plus(place) => Ok(&arguments[(place as usize - 1).min(count)..]),
        Signed::Minus(behind) if (behind as usize) < count => {
            Ok(&arguments[count - behind as usize - 1..])
        }
        Signed::Minus(_) => Err(Fault::IndexOutOfRange),
    }
}

/// `tonumber(text, base)`: the number that the text stands for, `None` where it stands for none.
///
/// In base 10 the text is read as everywhere; in another one it is blanks, one or more digits of
/// that base, and blanks. The letters in either case are the digits from 10 on.
///
/// # Errors
///
/// [`Fault::BaseOutOfRange`] where the base isn't from 2 to 36.
pub fn tonumber(text: &[u8], base: Num) -> Result<Option<Num>, Fault>
    ensures ok { IfOk result (λ number.
        Gives (meaning.tonumber (str text.now ∷ num base ∷ [])) (number_value number ∷ [])) }
    ensures fault { IfErr result
        (FailsBy (meaning.tonumber (str text.now ∷ num base ∷ []))) }
{
    let Signed::Plus(value) = split_sign(base) else {
        return Err(Fault::BaseOutOfRange);
    };
    if value == 10 {
        return Ok(read(text));
    }
    if value < 2 || value > 36 {
        return Err(Fault::BaseOutOfRange);
    }
    Ok(read_in(value as u32, text))
}

// The number that a text stands for where a number is wanted.
pub(crate) fn read(text: &[u8]) -> Option<Num>
    ensures { result ≡ numbers.read text.now }
{
    Num::read(text)
}

// The number that digits of a base stand for, with blanks around them.
fn read_in(base: u32, text: &[u8]) -> Option<Num>
    requires least { 2 ≤ base }
    requires greatest { base ≤ 36 }
    ensures { result ≡ numbers.read_in base text.now }
{
    digits_number(base, trimmed(text))
}

// The number that one or more digits of a base stand for.
fn digits_number(base: u32, digits: &[u8]) -> Option<Num>
    requires least { 2 ≤ base }
    requires greatest { base ≤ 36 }
    ensures { result ≡ option_and_then numbers.kept (numbers.digits_number base digits.now) }
{
    if digits.is_empty() {
        return None;
    }
    let mut number = 0u64;
    for byte in digits {
        let Some(digit) = char::from(*byte).to_digit(base) else {
            return None;
        };
        number = number * u64::from(base) + u64::from(digit);
        if number > GREATEST {
            return None;
        }
    }
    natural(number)
}

/// How many whole numbers there are from `i` to `j`.
pub fn count_from(i: Num, j: Num) -> usize
    ensures count { result ≡ count_from i j }
    ensures within { (i +ℤ pos result) ≤ℤ pos 100000000000000 }
{
    if j.get() < i.get() {
        return 0;
    }
    (j.get() - i.get()) as usize + 1
}

/// How many values `unpack` gives of a table's values at `i` to `j`.
///
/// # Errors
///
/// [`Fault::TooManyValues`] where there are over 1,000,000.
pub fn unpacked(i: Num, j: Num) -> Result<usize, Fault>
    ensures ok { IfOk result (λ count. (count ≡ count_from i j)
        × Gives (meaning.at_most_a_million (count_from i j)) tt) }
    ensures within { IfOk result (λ count. (i +ℤ pos count) ≤ℤ pos 100000000000000) }
    ensures fault { IfErr result (FailsBy (meaning.at_most_a_million (count_from i j))) }
{
    let count = count_from(i, j);
    if count > 1_000_000 {
        return Err(Fault::TooManyValues);
    }
    Ok(count)
}

//! Texts that are read as numbers (Lua 5.1 manual §2.2.1): blanks, an optional sign, a numeral,
//! blanks.

ghost use Rattle.std.specs.Prelude.{◌≡◌, ◌↔◌, ◌++◌, ℕ, ℤ, neg_ℤ, List, MatchOption, if◌then◌else◌};
ghost use Rattle.std.specs.List.{AllPass};
ghost use Rattle.lua_value.specs.Num.{IsNum};
ghost use Rattle.lua_value.specs.Sign.{Sign, sign_text, signed};
ghost use Rattle.lua_value.specs.Sign.Sign.{unsigned};
ghost use Rattle.lua_value.specs.NumberText.{is_blank, is_no_blank, DenotesSigned, ReadsAs};
ghost use Rattle.lua_value.specs.Place.{FailsAtFirst, HasNoSign, IsWordOf};

use crate::Num;

impl Num {
    /// The number that a text stands for: blanks, an optional sign, a numeral and blanks; `None`
    /// where the text isn't of this form, or its value isn't a number of the range.
    ///
    /// Blanks are space, tab, newline, vertical tab, form feed and return. Takes time in proportion
    /// to the text.
    pub fn read(text: &[u8]) -> Option<Num>
        ensures some { (z : ℤ) → (result ≡ Some z) ↔ (ReadsAs text.now z × IsNum z) }
        ensures none { (result ≡ None) ↔ ((z : ℤ) → ReadsAs text.now z → ¬ IsNum z) }
    {
        number(text)
    }
}

// The number that the word between the blanks stands for.
fn number(text: &[u8]) -> Option<Num>
    ensures { MatchOption result
        ((n : ℤ) → ReadsAs text.now n → ¬ IsNum n)
        (λ n. ReadsAs text.now n × IsNum n) }
{
    signed(word(text)?)
}

// The word that stands in the text with nothing but blanks around it.
fn word(text: &[u8]) -> Option<&[u8]>
    ensures { MatchOption result
        ((w : List ℕ) → ¬ IsWordOf text.now w)
        (λ w. IsWordOf text.now w.now) }
{
    let (_, text) = split_blanks(text);
    let (word, behind) = split_word(text);
    let (_, behind) = split_blanks(behind);
    if behind.is_empty() { Some(word) } else { None }
}

// The number that an optional sign and a numeral stand for.
fn signed(word: &[u8]) -> Option<Num>
    ensures { MatchOption result
        ((n : ℤ) → DenotesSigned word.now n → ¬ IsNum n)
        (λ n. DenotesSigned word.now n × IsNum n) }
{
    let (is_negative, numeral) = split_sign(word);
    let size = Num::numeral(numeral).ok()?;
    if is_negative {
        Some(size.neg())
    } else {
        Some(size)
    }
}

// Whether the word begins with a minus, and what stands behind its sign.
fn split_sign(word: &[u8]) -> (bool, &[u8])
    ensures { (sign : Sign) × (word.now ≡ sign_text sign ++ result.1.now)
        × (sign ≡ unsigned → HasNoSign result.1.now)
        × ((z : ℤ) → signed sign z ≡ (if result.0 then neg_ℤ z else z)) }
{
    match word.strip_prefix(b"-") {
        Some(numeral) => (true, numeral),
        None => (false, word.strip_prefix(b"+").unwrap_or(word)),
    }
}

// The text cut in two behind the blanks at its front.
fn split_blanks(text: &[u8]) -> (&[u8], &[u8])
    ensures front { AllPass is_blank result.0.now }
    ensures rest { FailsAtFirst is_blank result.1.now }
    ensures whole { text.now ≡ result.0.now ++ result.1.now }
{
    let count = text.iter().take_while(|byte| is_blank(**byte)).count();
    text.split_at(count)
}

// The text cut in two before its first blank.
fn split_word(text: &[u8]) -> (&[u8], &[u8])
    ensures front { AllPass is_no_blank result.0.now }
    ensures rest { FailsAtFirst is_no_blank result.1.now }
    ensures whole { text.now ≡ result.0.now ++ result.1.now }
{
    let count = text.iter().take_while(|byte| !is_blank(**byte)).count();
    text.split_at(count)
}

/// Whether the byte is a blank, as the C library has them: space, tab, newline, vertical tab, form
/// feed or return.
pub fn is_blank(byte: u8) -> bool
    ensures { result ≡ is_blank byte }
{
    matches!(byte, b' ' | b'\t'..=b'\r')
}

ghost use Rattle.std.specs.Prelude.{◌≡◌, ◌≤◌, length};
ghost use Rattle.lua_token.specs.Run.{mark_length, number_length};

use crate::bytes::{Class, run_length};

// How many bytes an exponent's letter and sign take at the front.
#[tactic(auto, unfolding(crate::specs::Run::mark_length))]
fn mark_length(text: &[u8]) -> usize
    ensures value { result ≡ mark_length text.now }
    ensures fits { result ≤ length text.now }
{
    match text {
        [b'e' | b'E', b'+' | b'-', ..] => 2,
        [b'e' | b'E', ..] => 1,
        _ => 0,
    }
}

// The length of the run that is read as one number.
#[tactic(auto, unfolding(crate::specs::Run::number_length))]
pub(crate) fn number_length(text: &[u8]) -> usize
    ensures value { result ≡ number_length text.now }
    ensures fits { result ≤ length text.now }
{
    let digits = run_length(text, Class::DigitOrDot);
    let head = digits + mark_length(&text[digits..]);
    head + run_length(&text[head..], Class::InName)
}

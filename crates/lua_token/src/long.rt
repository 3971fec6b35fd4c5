ghost use Rattle.std.specs.Prelude.{◌≡◌, ◌≤◌, ◌<◌, ◌+◌, length, IfSome, Some};
ghost use Rattle.lua_token.specs.Long.{level, span_length, FirstClosing, LongAt, SpanCounts};

use crate::bytes::{Class, run_length};

// So many bytes at the front of a text, and how many newlines are among them.
#[derive(Clone, Copy, Debug, PartialEq, Eq)]
pub(crate) struct Span {
    pub(crate) length: usize,
    pub(crate) newlines: usize,
}

// The level of the long bracket at the front.
#[tactic(auto, unfolding(crate::specs::Long::level))]
pub(crate) fn level(text: &[u8], bracket: u8) -> Option<usize>
    ensures value { result ≡ level bracket text.now }
    ensures fits { IfSome result (λ n. n + 2 ≤ length text.now) }
{
    match text {
        [first, rest @ ..] if *first == bracket => {
            let n = run_length(rest, Class::Equals);
            if n < rest.len() && rest[n] == bracket {
                Some(n)
            } else {
                None
            }
        }
        _ => None,
    }
}

// The bytes before the first closing bracket of the level.
fn first_closing(body: &[u8], wanted: usize) -> Option<Span>
    ensures value { FirstClosing wanted body.now (span_length result) }
    ensures fits { IfSome result (λ span. span.length + wanted + 2 ≤ length body.now) }
    ensures lines { IfSome result (SpanCounts body.now) }
{
    let mut newlines = 0;
    for at in 0..body.len() {
        if level(&body[at..], b']') == Some(wanted) {
            return Some(Span {
                length: at,
                newlines,
            });
        }
        newlines += usize::from(body[at] == b'\n');
    }
    None
}

// The long string that opens at the front with this level, brackets included; `None` where it is
// never closed.
pub(crate) fn long_span(text: &[u8], opened: usize) -> Option<Span>
    requires within { opened + 2 ≤ length text.now }
    requires opens { level 91 text.now ≡ Some opened }
    ensures value { LongAt opened text.now (span_length result) }
    ensures fits { IfSome result (λ span. (0 < span.length) × (span.length ≤ length text.now)) }
    ensures lines { IfSome result (SpanCounts text.now) }
{
    let bracket = opened + 2;
    match first_closing(&text[bracket..], opened) {
        Some(body) => Some(Span {
            length: bracket + body.length + bracket,
            newlines: body.newlines,
        }),
        None => None,
    }
}

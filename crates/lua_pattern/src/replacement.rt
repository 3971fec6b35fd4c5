ghost use Rattle.std.specs.Prelude.{◌≡◌, ◌⊎◌, false, IfOk, IfErr, IfSome, OnOk, Ok, Err, length, slice_get};
ghost use Rattle.lua_pattern.specs.Found.{MatchFits, CaptureFits};
ghost use Rattle.lua_pattern.specs.Gsub.{capture_bytes, parts, behind_percent, piece_of, next_of, expanded, Puts, Refuses};
ghost use Rattle.lua_pattern.specs.declared.replacement.ReplaceFault.TheVariants.{Memory};

use crate::found::{Capture, Match};
use crate::matcher::between;
use crate::pattern::Pattern;
use crate::walk::Walk;
use love_base::{Memory as WantOfMemory, Text};
use std::alloc::{AllocError, AllocFailed, Global};
use thiserror::Error;

/// Why there is no replacement for a match. Its text is that of Lua's error.
#[derive(Clone, Copy, Debug, PartialEq, Eq, Error)]
pub enum ReplaceFault {
    /// The replacement string ends with a `%` that nothing follows.
    #[error("invalid replacement")]
    InvalidReplacement = 1,
    /// The replacement string asks for a capture that the match doesn't have.
    #[error("invalid capture")]
    InvalidCapture = 2,
    /// Want of memory.
    #[error("not enough memory")]
    Memory,
}

impl From<WantOfMemory> for ReplaceFault {
    ghost from_gives = { λ _ fault. fault ≡ Memory };

    fn from(_refused: WantOfMemory) -> ReplaceFault {
        ReplaceFault::Memory
    }
}

impl From<AllocError> for ReplaceFault {
    ghost from_gives = { λ _ fault. fault ≡ Memory };

    fn from(_refused: AllocError) -> ReplaceFault {
        ReplaceFault::Memory
    }
}

impl<T: Drop> From<AllocFailed<T>> for ReplaceFault {
    ghost from_gives = { λ _ fault. fault ≡ Memory };

    fn from(_refused: AllocFailed<T>) -> ReplaceFault {
        ReplaceFault::Memory
    }
}

// Puts the bytes of a capture at the end of a text.
fn put_capture(
    alloc: Global,
    made: &mut Vec<u8>,
    text: &[u8],
    capture: Option<Capture>,
) -> Result<(), ReplaceFault>
    requires { IfSome capture (CaptureFits (length text.now)) }
    ensures ok { OnOk result
        (Puts (capture_bytes text.now capture) made.old.items made.new.items) }
    ensures fault { IfErr result (Refuses (capture_bytes text.now capture)) }
{
    match capture {
        Some(Capture::Part(start, end)) => made.extend_from_slice(between(text, start, end))?,
        Some(Capture::Place(place)) => {
            let place = place + 1;
            let digits = place.to_string(alloc)?;
            made.extend_from_slice(digits.as_bytes())?;
        }
        None => return Err(ReplaceFault::InvalidCapture),
    }
    Ok(())
}

// The capture of this number, counted from 0; the match itself where it has none.
fn capture_at(found: &Match, i: usize) -> Option<Capture>
    ensures { result ≡ slice_get (parts found.now found.now.captures) i }
{
    match found.captures.as_slice() {
        [] if i == 0 => Some(Capture::Part(found.start, found.end)),
        captures => captures.get(i).copied(),
    }
}

// Puts what a `%` and this byte stand for at the end of a text.
#[tactic(auto, unfolding(crate::specs::Gsub::behind_percent))]
fn put_behind_percent(
    alloc: Global,
    made: &mut Vec<u8>,
    text: &[u8],
    found: &Match,
    byte: u8,
) -> Result<(), ReplaceFault>
    requires { MatchFits (length text.now) found.now }
    ensures ok { OnOk result
        (Puts (behind_percent text.now found.now byte) made.old.items made.new.items) }
    ensures fault { IfErr result (Refuses (behind_percent text.now found.now byte)) }
{
    if !byte.is_ascii_digit() {
        made.push(byte)?;
        return Ok(());
    }
    if byte == b'0' {
        made.extend_from_slice(between(text, found.start, found.end))?;
        return Ok(());
    }
    put_capture(alloc, made, text, capture_at(found, (byte - b'1') as usize))
}

// Whether a byte is a `%` that the next byte belongs to.
fn is_escape(percent: bool, byte: u8) -> bool
    ensures { result ≡ next_of percent byte }
{
    !percent && byte == b'%'
}

// Puts what a byte of a replacement string stands for at the end of a text.
fn put_byte(
    alloc: Global,
    made: &mut Vec<u8>,
    text: &[u8],
    found: &Match,
    percent: bool,
    byte: u8,
) -> Result<(), ReplaceFault>
    requires { MatchFits (length text.now) found.now }
    ensures ok { OnOk result
        (Puts (piece_of percent text.now found.now byte) made.old.items made.new.items) }
    ensures fault { IfErr result (Refuses (piece_of percent text.now found.now byte)) }
{
    if percent {
        return put_behind_percent(alloc, made, text, found, byte);
    }
    if byte != b'%' {
        made.push(byte)?;
    }
    Ok(())
}

// Puts what a replacement string stands for at a match at the end of a text.
fn expand(
    alloc: Global,
    made: &mut Vec<u8>,
    replacement: &[u8],
    text: &[u8],
    found: &Match,
) -> Result<(), ReplaceFault>
    requires { MatchFits (length text.now) found.now }
    ensures ok { OnOk result
        (Puts (expanded false replacement.now text.now found.now) made.old.items made.new.items) }
    ensures fault { IfErr result (Refuses (expanded false replacement.now text.now found.now)) }
{
    let mut percent = false;
    for byte in replacement {
        put_byte(alloc, made, text, found, percent, *byte)?;
        percent = is_escape(percent, *byte);
    }
    if percent {
        return Err(ReplaceFault::InvalidReplacement);
    }
    Ok(())
}

impl Pattern {
    ghost use Rattle.lua_pattern.specs.Gsub.{Gsub};
    ghost use Rattle.lua_pattern.specs.Walk.{whole};

    /// The text with a replacement string in place of its matches, at most so many from the first
    /// on, and how many were replaced: `string.gsub` with a string (Lua 5.1 manual §5.4).
    ///
    /// In the replacement string `%0` stands for the match, `%1` to `%9` for its captures (`%1` for
    /// the match where it has none; a place is written as its number from 1 on), and `%` with
    /// another byte for that byte. A caller with other replacements goes from match to match by
    /// [`next_match`](Pattern::next_match).
    ///
    /// # Errors
    ///
    /// The first fault of the replacement string at the first match that needs it, so none where
    /// nothing matches; [`ReplaceFault::Memory`] where there is no room.
    pub fn gsub(
        &self,
        alloc: Global,
        text: &[u8],
        replacement: &[u8],
        limit: usize,
    ) -> Result<(Text, usize), ReplaceFault>
        ensures ok { IfOk result (λ made. Gsub self.now text.now
            (expanded false replacement.now text.now) (whole limit) (Ok made)) }
        ensures fault { IfErr result (λ fault. (fault ≡ Memory)
            ⊎ Gsub self.now text.now (expanded false replacement.now text.now)
            (whole limit) (Err fault)) }
    {
        let mut made = Vec::new(alloc);
        let mut walk = Walk::new(limit);
        let mut count = 0usize;
        loop {
            let passed = walk.passed;
            let Some(found) = self.next_match(alloc, text, &mut walk)? else {
                made.extend_from_slice(between(text, passed, text.len()))?;
                return Ok((Text::from_vec(made), count));
            };
            made.extend_from_slice(between(text, passed, found.start))?;
            match expand(alloc, &mut made, replacement, text, &found) {
                Ok(()) => count += 1,
                Err(fault) => return Err(fault),
            }
        }
    }
}

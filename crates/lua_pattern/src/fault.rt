ghost use Rattle.std.specs.Prelude.{◌≡◌};
ghost use Rattle.lua_pattern.specs.declared.fault.PatternFault.TheVariants.{Memory};

use love_base::Memory as WantOfMemory;
use thiserror::Error;

/// What is wrong with a pattern. Its text is that of Lua's error.
#[derive(Clone, Copy, Debug, PartialEq, Eq, Error)]
pub enum PatternFault {
    /// A `%` that begins a class or an item is the last byte.
    #[error("malformed pattern (ends with '%')")]
    EndsWithPercent = 1,
    /// A set isn't closed.
    #[error("malformed pattern (missing ']')")]
    MissingBracket = 2,
    /// `%b` has fewer than two bytes after it.
    #[error("malformed pattern (missing arguments to '%b')")]
    BadBalance = 3,
    /// `)` without `(`, `(` without `)`, `%0`, or `%1` to `%9` of a capture that isn't closed there
    /// or is a place.
    #[error("invalid capture")]
    BadCapture = 4,
    /// A 33rd capture.
    #[error("too many captures")]
    TooManyCaptures = 5,
    /// A 201st item.
    #[error("pattern too long")]
    TooManyItems = 6,
    /// `%f` outside a set.
    #[error("frontier patterns are not available")]
    Frontier = 7,
    /// Want of memory.
    #[error("not enough memory")]
    Memory,
}

impl From<WantOfMemory> for PatternFault {
    ghost from_gives = { λ _ fault. fault ≡ Memory };

    fn from(_refused: WantOfMemory) -> PatternFault {
        PatternFault::Memory
    }
}

impl<T: Drop> From<(T, WantOfMemory)> for PatternFault {
    ghost from_gives = { λ _ fault. fault ≡ Memory };

    fn from(_refused: (T, WantOfMemory)) -> PatternFault {
        PatternFault::Memory
    }
}

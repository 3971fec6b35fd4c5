ghost use Rattle.std.specs.Prelude.{◌≡◌, length, IfOk, IfSome, OnErr};
ghost use Rattle.lua_pattern.specs.Found.{MatchFits};

use crate::found::Match;
use crate::pattern::Pattern;
use love_base::Memory;
use std::alloc::Global;

/// How far a walk through the matches of a text has come. Places are offsets in bytes.
#[derive(Clone, Copy, Debug, PartialEq, Eq)]
pub struct Walk {
    /// Where the last match ended: what lies before is done with.
    pub passed: usize,
    /// From where on the next match is sought.
    pub from: usize,
    /// How many matches may still come.
    pub left: usize,
}

impl Walk {
    ghost use Rattle.lua_pattern.specs.Walk.{whole};

    /// A walk from the beginning of a text on, with at most so many matches.
    pub fn new(limit: usize) -> Walk
        ensures { result ≡ whole limit }
    {
        Walk {
            passed: 0,
            from: 0,
            left: limit,
        }
    }
}

impl Pattern {
    ghost use Rattle.lua_pattern.specs.Walk.{IsStep};

    /// The next match of a walk through a text, as `string.gsub` and `string.gmatch` go (Lua 5.1
    /// manual §5.4): behind a match the search goes on at its end, and behind an empty one a byte
    /// further. An anchored pattern is tried once. `None` once the walk has ended.
    ///
    /// The same text is to be passed at each step.
    ///
    /// # Errors
    ///
    /// [`Memory`] where there is no room for the captures; the walk is then as it was.
    pub fn next_match(
        &self,
        alloc: Global,
        text: &[u8],
        walk: &mut Walk,
    ) -> Result<Option<Match>, Memory>
        ensures step { IfOk result (λ found. IsStep self.now text.now walk.old found walk.new) }
        ensures fits { IfOk result (λ found. IfSome found (MatchFits (length text.now))) }
        ensures err { OnErr result (walk.new ≡ walk.old) }
    {
        if walk.left == 0 || walk.from > text.len() {
            return Ok(None);
        }
        let Some(found) = self.find(alloc, text, walk.from)? else {
            return Ok(None);
        };
        let from = if found.start == found.end {
            found.end + 1
        } else {
            found.end
        };
        let left = if self.is_anchored() { 0 } else { walk.left - 1 };
        *walk = Walk {
            passed: found.end,
            from,
            left,
        };
        Ok(Some(found))
    }
}

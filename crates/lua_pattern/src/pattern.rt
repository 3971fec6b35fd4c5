ghost use Rattle.std.specs.Prelude.{◌≡◌, ◌≤◌, ◌⊎◌, [], length, Result, IfOk, IfErr, IfSome, Ok, Err};
ghost use Rattle.lua_pattern.specs.Tree.{Tree};
ghost use Rattle.lua_pattern.specs.Reading.{IsPatternAnswer, Gives};
ghost use Rattle.lua_pattern.specs.Found.{IsFound, IsFoundAs, MatchFits};
ghost use Rattle.lua_pattern.specs.declared.fault.PatternFault.{PatternFault as Fault};
ghost use Rattle.lua_pattern.specs.declared.fault.PatternFault.TheVariants.{Memory};

use crate::PatternFault;
use crate::found::Match;
use crate::item::Item;
use crate::mark::Marks;
use crate::matcher::follow;
use crate::reader::{has_caret, items};
use love_base::{List, Memory as WantOfMemory};
use std::alloc::Global;
use std::marker::Model;

/// A pattern that was read (Lua 5.1 manual §5.4.1).
#[derive(Debug, Drop)]
pub struct Pattern {
    anchored: bool,
    items: List<Item>,
}

impl Model for Pattern {
    ghost use Rattle.std.specs.Prelude.{◌≤◌, length, count_by};
    ghost use Rattle.lua_pattern.specs.Tree.{Tree, begins_capture, most_captures, most_items};

    ghost Value = { Tree };

    ghost view = { λ p. record { anchored = p.anchored; items = p.items } };

    ghost invariant = { λ p. (count_by begins_capture p.items ≤ most_captures)
        × (length p.items ≤ most_items) };
}

impl Pattern {
    /// The pattern that a text spells (Lua 5.1 manual §5.4.1). Where `anchors` holds, a `^` at its
    /// beginning is the anchor; elsewhere `^` stands for itself.
    ///
    /// Takes time and room in proportion to the text.
    ///
    /// # Errors
    ///
    /// The fault that stands first from the left, and of two at one place the one that
    /// [`PatternFault`] lists first; a capture or a set that is still open stands at the end.
    pub fn read(alloc: Global, source: &[u8], anchors: bool) -> Result<Pattern, PatternFault>
        ensures pattern { IfOk result (λ pattern.
            IsPatternAnswer source.now anchors (Ok pattern)) }
        ensures fault { IfErr result (λ fault.
            (fault ≡ Memory) ⊎ IsPatternAnswer source.now anchors (Err fault)) }

        // What is an answer is given, unless memory runs out.
        ensures only { (answer : Result Tree Fault) → IsPatternAnswer source.now anchors answer →
            Gives result answer }
    {
        Pattern::spelled(alloc, source, anchors)
    }

    // The pattern that a text spells, or its first fault.
    fn spelled(alloc: Global, source: &[u8], anchors: bool) -> Result<Pattern, PatternFault>
        ensures pattern { IfOk result (λ pattern.
            IsPatternAnswer source.now anchors (Ok pattern)) }
        ensures fault { IfErr result (λ fault.
            (fault ≡ Memory) ⊎ IsPatternAnswer source.now anchors (Err fault)) }
    {
        let anchored = anchors && has_caret(source);
        let body = if anchored { &source[1..] } else { source };
        let items = items(alloc, body)?;
        Ok(Pattern { anchored, items })
    }

    /// Whether it is anchored: whether it matches at the first place alone.
    pub fn is_anchored(&self) -> bool
        ensures { result ≡ self.now.anchored }
    {
        self.anchored
    }

    // Where the first way from a place on begins and ends, with its captures.
    fn first_way(&self, text: &[u8], from: usize, marks: &mut Marks) -> Option<(usize, usize)>
        requires within { from ≤ length text.now }
        requires none { marks.old ≡ [] }
        ensures { IsFoundAs self.now text.now from result marks.new }
    {
        let last = if self.anchored { from } else { text.len() };
        let mut start = from;
        while start <= last {
            if let Some(end) = follow(self.items.as_slice(), text, start, marks) {
                return Some((start, end));
            }
            start += 1;
        }
        None
    }

    /// What the pattern matches first in a text from a place on: from there on, or there alone
    /// where it is anchored. `None` exactly where it matches nowhere.
    ///
    /// A place that the pattern refuses costs time, and so does each choice in it: the time may be
    /// exponential in the number of the pattern's items, as Lua's is. A run of a class costs no
    /// room, and calls go no deeper than the pattern has items.
    ///
    /// # Errors
    ///
    /// [`Memory`](WantOfMemory) where there is no room for the captures.
    pub fn find(
        &self,
        alloc: Global,
        text: &[u8],
        from: usize,
    ) -> Result<Option<Match>, WantOfMemory>
        requires { from ≤ length text.now }
        ensures found { IfOk result (IsFound self.now text.now from) }
        ensures fits { IfOk result (λ found. IfSome found (MatchFits (length text.now))) }
    {
        self.found(alloc, text, from)
    }

    // What the pattern matches first.
    fn found(&self, alloc: Global, text: &[u8], from: usize) -> Result<Option<Match>, WantOfMemory>
        requires { from ≤ length text.now }
        ensures { IfOk result (IsFound self.now text.now from) }
    {
        let mut marks = Marks::new();
        let Some((start, end)) = self.first_way(text, from, &mut marks) else {
            return Ok(None);
        };
        let captures = marks.captures(alloc)?;
        Ok(Some(Match {
            start,
            end,
            captures,
        }))
    }
}

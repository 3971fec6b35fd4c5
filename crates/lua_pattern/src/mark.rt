ghost use Rattle.std.specs.Prelude.{◌≡◌, [], ◌∷◌, ◌++◌, ◌<◌, ◌-◌, length, slice_get, slice_set, ℕ, is_some, IfOk};
ghost use Rattle.lua_pattern.specs.Ways.{IsLastOpen, close};
ghost use Rattle.lua_pattern.specs.Found.{captures_of};

use crate::found::Capture;
use love_base::{List, Memory};
use std::alloc::Global;
use std::marker::Model;

/// A capture while a text is matched.
#[derive(Clone, Copy, Debug, PartialEq, Eq)]
pub enum Mark {
    /// It began at this place, and is open.
    Open(usize),
    /// The bytes from one place up to another.
    Part(usize, usize),
    /// A place.
    Place(usize),
}

// The captures of a match so far, in the order in which they began: at most 32.
#[derive(Drop)]
pub(crate) struct Marks {
    marks: [Mark; 32],
    count: usize,
}

impl Model for Marks {
    ghost use Rattle.std.specs.Prelude.{List, take, ◌≤◌};
    ghost use Rattle.lua_pattern.specs.declared.mark.Mark.{Mark};

    ghost Value = { List Mark };

    ghost view = { λ m. take m.count m.marks };

    ghost invariant = { λ m. m.count ≤ 32 };
}

impl Marks {
    // No captures.
    pub(crate) fn new() -> Marks
        ensures { result ≡ [] }
    {
        Marks {
            marks: [Mark::Place(0); 32],
            count: 0,
        }
    }

    pub(crate) fn push(&mut self, mark: Mark)
        requires { length self.old < 32 }
        ensures { self.new ≡ self.old ++ mark ∷ [] }
    {
        self.marks[self.count] = mark;
        self.count += 1;
    }

    pub(crate) fn pop(&mut self) -> Mark
        requires { 0 < length self.old }
        ensures { self.old ≡ self.new ++ result ∷ [] }
    {
        self.count -= 1;
        self.marks[self.count]
    }

    // The capture of this number, counted from 1.
    pub(crate) fn at(&self, number: u8) -> Option<Mark>
        ensures { result ≡ slice_get self.now (number - 1) }
    {
        let i = number.saturating_sub(1) as usize;
        if i < self.count {
            Some(self.marks[i])
        } else {
            None
        }
    }

    pub(crate) fn set(&mut self, i: usize, mark: Mark)
        requires { i < length self.old }
        ensures { self.new ≡ slice_set self.old i mark }
    {
        let count = self.count;
        prove!(i < count);
        self.marks[i] = mark;
    }

    // What they are once the match has ended.
    pub(crate) fn captures(&self, alloc: Global) -> Result<List<Capture>, Memory>
        ensures { IfOk result (λ captures. captures ≡ captures_of self.now) }
    {
        captures(alloc, &self.marks[..self.count])
    }

    pub(crate) fn len(&self) -> usize
        ensures { result ≡ length self.now }
    {
        self.marks[..self.count].len()
    }

    // Whether a capture is open.
    pub(crate) fn has_open(&self) -> bool
        ensures { (at : ℕ) → result ≡ is_some (close at self.now) }
    {
        self.last_open().is_some()
    }

    // Which capture is the last open one, and where it began.
    pub(crate) fn last_open(&self) -> Option<(usize, usize)>
        ensures { IsLastOpen self.now result }
    {
        last_open(&self.marks[..self.count])
    }
}

// What these captures are once the match has ended.
fn captures(alloc: Global, marks: &[Mark]) -> Result<List<Capture>, Memory>
    ensures { IfOk result (λ captures. captures ≡ captures_of marks.now) }
{
    let mut captures = Vec::new(alloc);
    for mark in marks {
        match *mark {
            Mark::Part(start, end) => captures.push(Capture::Part(start, end))?,
            Mark::Place(place) => captures.push(Capture::Place(place))?,
            Mark::Open(_) => {}
        }
    }
    Ok(List::from_vec(captures))
}

// The last open one of these captures, and where it began.
fn last_open(marks: &[Mark]) -> Option<(usize, usize)>
    ensures { IsLastOpen marks.now result }
{
    let mut i = marks.len();
    while i > 0 {
        i -= 1;
        if let Mark::Open(start) = marks[i] {
            return Some((i, start));
        }
    }
    None
}

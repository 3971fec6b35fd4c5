//! Looks: what one load of an object's tally word tells.
ghost use Rattle.std.specs.Prelude.{◌≡◌, ◌<◌, ◌≤◌, ◌^◌};
ghost use Rattle.turn_desk.specs.Grew.{Grew, nothing};
ghost use Rattle.turn_desk.specs.View.{spot, looked};
ghost use Rattle.turn_desk.specs.Steps.{IsTally};
ghost use Rattle.turn_desk.specs.Passes.{IsPassOf, object_count};

use crate::desk::{Desk, turn_word};
use crate::logged::Logged;
use crate::pass::Pass;
use crate::plays::Glimpse;

/// What a look at an object shows.
#[derive(Clone, Copy, Debug, PartialEq, Eq)]
pub struct Tally {
    /// The length of its published history.
    pub place: u32,
    /// What `summary` told of the object then.
    pub summary: u64,
}

impl<O: Logged> Desk<O> {
    /// Looks at an object without taking it, by one load and no memory: the tally of the first
    /// `place` entries of its history, of which the pass has seen no more before. Nobody was inside
    /// a section then. The look is noted.
    pub fn look(&self, pass: &mut Pass<O>, object: u32) -> Tally
        requires own { pass.old.desk ≡ self.now }
        requires object { object < object_count self.now }
        ensures own { pass.new.desk ≡ pass.old.desk }
        ensures was_member { IsPassOf self.now pass.old }
        ensures member { IsPassOf self.now pass.new }
        ensures grew { Grew nothing pass.old.view pass.new.view }
        ensures looked { pass.new.view
            ≡ looked object result.place result.summary pass.old.view }
        ensures tally { IsTally O.summed O.between
            pass.old.view object result.place result.summary }
        ensures front { (spot pass.old.view object).front ≤ result.place }
        ensures fits { (result.place < 2 ^ 22) × (result.summary < 2 ^ 42) }
    {
        let slot = object as usize;
        let word = turn_word(slot) + 1;
        let tally = self.table.shared.load::<Glimpse>(&mut pass.seat, word);
        let place = (tally / (1 << 42)) as u32;
        pass.fronts[slot] = place;
        Tally {
            place,
            summary: tally % (1 << 42),
        }
    }
}

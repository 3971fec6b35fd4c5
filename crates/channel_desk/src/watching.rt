//! What a state that waits sees of the board and of its Channel.
ghost use Rattle.std.specs.Prelude.{◌≡◌, ◌≢◌, ℕ, ◌<◌, ◌≤◌, IfSome};
ghost use Rattle.channel_desk.specs.Acting.{IsEnded};
ghost use Rattle.channel_desk.specs.Awaiting.{IsStanding, Seen};
ghost use Rattle.channel_desk.specs.Holding.{IsHolding, sections_on};
ghost use Rattle.channel_desk.specs.Looking.{AreCounts};
ghost use Rattle.channel_desk.specs.Turns.{IsAt, Waited};
ghost use Rattle.channel_desk.specs.declared.sections.Section.{Section as ASection};

use crate::held::place_of;
use crate::looking::{counts_by, counts_of};
use crate::sections::{Section, Sections};
use crate::turns::main_end;
use std::sync::Wait;

// A Channel's counts, after so many entries of its history.
#[derive(Clone, Copy, Debug)]
pub(crate) struct Sight {
    pub(crate) place: u32,
    pub(crate) sent: u32,
    pub(crate) received: u32,
}

impl Sections<'_, Vec<Section>> {
    // State 0's end, once it is there: the board's length and the end's place in it. State 0 doesn't
    // ask for its own.
    pub(crate) fn end_seen<R: Wait>(&mut self, rt: &R) -> Option<(u32, u32)>
        requires holding { IsHolding self.old.desk.now self.old.state self.old.next
            self.old.pass.now self.old.held.items }
        ensures same { self.new.pass.ghost_name ≡ self.old.pass.ghost_name }
        ensures desk { self.new.desk.now ≡ self.old.desk.now }
        ensures state { self.new.state ≡ self.old.state }
        ensures next { self.new.next ≡ self.old.next }
        ensures items { self.new.held.items ≡ self.old.held.items }
        ensures holding { IsHolding self.new.desk.now self.new.state self.new.next
            self.new.pass.now self.new.held.items }
        ensures waited { Waited self.old.pass.now.view self.new.pass.now.view }
        ensures ended { IfSome result (λ (place, end). (self.old.state ≢ 0)
            × IsEnded self.new.pass.now.view place end) }
    {
        if self.state == 0 {
            return None;
        }
        main_end(rt, self.desk, self.pass)
    }

    // The counts of a Channel: those that the state left it with, inside its own section, and
    // elsewhere those that a look shows.
    pub(crate) fn sight(&mut self, object: u32) -> Sight
        requires holding { IsHolding self.old.desk.now self.old.state self.old.next
            self.old.pass.now self.old.held.items }
        requires object { (0 < object) × (object ≤ 1024) }
        ensures same { self.new.pass.ghost_name ≡ self.old.pass.ghost_name }
        ensures desk { self.new.desk.now ≡ self.old.desk.now }
        ensures state { self.new.state ≡ self.old.state }
        ensures next { self.new.next ≡ self.old.next }
        ensures items { self.new.held.items ≡ self.old.held.items }
        ensures holding { IsHolding self.new.desk.now self.new.state self.new.next
            self.new.pass.now self.new.held.items }
        ensures waited { Waited self.old.pass.now.view self.new.pass.now.view }
        ensures board { (place main_end : ℕ) → IsEnded self.old.pass.now.view place main_end
            → IsEnded self.new.pass.now.view place main_end }
        ensures seen { Seen (λ depth h. AreCounts h result.sent result.received
            × IsStanding self.old.state depth h)
            self.old.pass.now.view self.new.pass.now.view self.old.held.items
            object result.place }
    {
        match self.section_on(object) {
            Some(at) => self.sight_inside(at, object),
            None => self.sight_outside(object),
        }
    }

    fn sight_inside(&self, at: usize, object: u32) -> Sight
        requires holding { IsHolding self.now.desk.now self.now.state self.now.next
            self.now.pass.now self.now.held.items }
        requires section { (s : ASection) × IsAt self.now.held.items object at s }
        ensures seen { Seen (λ depth h. AreCounts h result.sent result.received
            × IsStanding self.now.state depth h)
            self.now.pass.now.view self.now.pass.now.view self.now.held.items
            object result.place }
    {
        let held = &self.held[at].held;
        let (sent, received) = counts_of(held);
        Sight {
            place: place_of(held),
            sent,
            received,
        }
    }

    fn sight_outside(&mut self, object: u32) -> Sight
        requires holding { IsHolding self.old.desk.now self.old.state self.old.next
            self.old.pass.now self.old.held.items }
        requires object { (0 < object) × (object ≤ 1024) }
        requires outside { sections_on object self.old.held.items ≡ 0 }
        ensures same { self.new.pass.ghost_name ≡ self.old.pass.ghost_name }
        ensures desk { self.new.desk.now ≡ self.old.desk.now }
        ensures state { self.new.state ≡ self.old.state }
        ensures next { self.new.next ≡ self.old.next }
        ensures items { self.new.held.items ≡ self.old.held.items }
        ensures holding { IsHolding self.new.desk.now self.new.state self.new.next
            self.new.pass.now self.new.held.items }
        ensures waited { Waited self.old.pass.now.view self.new.pass.now.view }
        ensures board { (place main_end : ℕ) → IsEnded self.old.pass.now.view place main_end
            → IsEnded self.new.pass.now.view place main_end }
        ensures seen { Seen (λ depth h. AreCounts h result.sent result.received
            × IsStanding self.old.state depth h)
            self.old.pass.now.view self.new.pass.now.view self.old.held.items
            object result.place }
    {
        let tally = self.desk.look(self.pass, object);
        let (sent, received) = counts_by(tally.summary);
        Sight {
            place: tally.place,
            sent,
            received,
        }
    }
}

//! Closing a queue: all passes are joined into pass 1, and then the ruled queue is emptied.
ghost use Rattle.std.specs.Prelude.{◌≡◌, ℕ, ◌++◌, All, IfOk, OnOk, List};
ghost use mathlib.Core.Option.{some};
ghost use lib.ListN.{get_elem?};
ghost use Rattle.crossbeam_queue.specs.SegTies.{IsSegPassOf};
ghost use Rattle.variant.specs.declared.event.Sent.{Sent};
ghost use Rattle.event_queue.specs.Closing.{AreAllBack, AreDelivered, AreInOrder, EndsWith, Emptied, HasAll, OfFirst};
ghost use Rattle.event_queue.specs.Passes.{PassView};

use crate::event_pass::EventPass;
use crate::event_queue::EventQueue;
use crate::steps::{GiveUp, Pop, RuledPass};
use love_base::{List, Memory};
use std::collections::VecDeque;
use std::sync::Wait;
use variant::Sent;

// The place of pass 1.
fn place_of_first(passes: &[EventPass]) -> usize
    requires { (k : ℕ) × (p : PassView) × (get_elem? passes.now k ≡ some p) × (p.number ≡ 1) }
    ensures { (p : PassView) × (get_elem? passes.now result ≡ some p) × (p.number ≡ 1) }
{
    let mut place = 0;
    while place < passes.len() {
        if passes[place].number() == 1 {
            return place;
        }
        place += 1;
    }
    unreachable!()
}

// Puts all events behind the others.
fn put_all(mut events: VecDeque<Sent>, into: &mut Vec<Sent>) -> Result<(), Memory>
    ensures { OnOk result (into.new.items ≡ into.old.items ++ events.items) }
{
    while let Some(event) = events.pop_front() {
        into.push(event)?;
    }
    Ok(())
}

impl EventQueue {
    // Joins all other passes into pass 1. What it keeps comes beside its seat.
    fn join_all(&self, mut passes: Vec<EventPass>) -> (RuledPass, VecDeque<Sent>)
        requires own { All (λ p. p.queue ≡ self.now) passes.items }
        requires all { AreAllBack self.now passes.items }
        ensures own { IsSegPassOf self.now.ruled result.0 }
        ensures all { HasAll passes.items self.now.passes result.1.items result.0.me.view.client }
    {
        let ruled = &self.ruled;
        let place = place_of_first(passes.as_slice());
        let first = passes.remove(place);
        let EventPass {
            mut seat,
            number: _,
            passes: _,
            empties: _,
            kept,
        } = first;
        while let Some(pass) = passes.pop() {
            let EventPass {
                seat: other,
                number: _,
                passes: _,
                empties: _,
                kept: _,
            } = pass;
            ruled.absorb::<GiveUp>(&mut seat, other);
        }
        (seat, kept)
    }

    // Pops until nothing is there.
    fn pop_all<R: Wait>(
        &self,
        rt: &R,
        seat: &mut RuledPass,
        into: &mut Vec<Sent>,
    ) -> Result<(), Memory>
        requires own { IsSegPassOf self.now.ruled seat.old }
        requires first { seat.old.me.view.client.number ≡ 1 }
        ensures { OnOk result ((popped : List Sent)
            × (into.new.items ≡ into.old.items ++ popped)
            × Emptied popped seat.old.me.view.client seat.new.me.view.client) }
    {
        for _ in rt.forever() {
            let Some(event) = self.ruled.pop_as::<Pop, R>(rt, seat) else {
                return Ok(());
            };
            into.push(event)?;
        }
        unreachable!()
    }

    /// Gives the events that remain in the ruled queue, the oldest first, and behind them those
    /// that pass 1 keeps.
    ///
    /// All of the queue's passes are given back to it, in any order.
    ///
    /// # Errors
    ///
    /// There was no memory for that. The events are dropped then.
    pub fn left<R: Wait>(self, rt: &R, passes: Vec<EventPass>) -> Result<List<Sent>, Memory>
        requires own { All (λ p. p.queue ≡ self) passes.items }
        requires all { AreAllBack self passes.items }
        ensures kept { IfOk result (λ left. OfFirst passes.items (λ p. EndsWith left p.kept)) }
        ensures delivered { IfOk result (λ left. OfFirst passes.items
            (λ p. AreDelivered passes.items (p.polled ++ left))) }
        ensures in_order { IfOk result (λ left. OfFirst passes.items
            (λ p. AreInOrder passes.items (p.polled ++ left))) }
    {
        let (mut seat, kept) = self.join_all(passes);
        let mut left = Vec::new(self.alloc);
        self.pop_all(rt, &mut seat, &mut left)?;
        put_all(kept, &mut left)?;
        Ok(List::from_vec(left))
    }
}

//! Making a queue: its ruled queue is made with one pass, which makes the others.
ghost use Rattle.std.specs.Prelude.{◌≡◌, ◌<◌, ◌≤◌, IfOk};
ghost use Rattle.crossbeam_queue.specs.SegTies.{IsSegPassOf};
ghost use Rattle.event_queue.specs.Passes.{new_pass, new_passes};
ghost use Rattle.event_queue.specs.Ready.{IsNew};
ghost use Rattle.event_queue.specs.Views.{first_view};

use crate::event_pass::EventPass;
use crate::event_queue::EventQueue;
use crate::steps::{MakeOne, RuledPass, RuledQueue};
use love_base::Memory;
use std::alloc::Global;
use std::collections::VecDeque;

impl EventQueue {
    // The pass of a seat that was just made.
    fn pass(&self, seat: RuledPass, number: u32) -> EventPass
        requires own { IsSegPassOf self.now.ruled seat }
        requires new { IsNew number self.now.passes seat.me.view.client }
        ensures { result ≡ new_pass self.now number }
    {
        EventPass {
            seat,
            number,
            passes: self.passes,
            empties: 0,
            kept: VecDeque::new(self.alloc),
        }
    }

    // Makes the passes. The first one's seat makes the others.
    fn deal(&self, mut first: RuledPass) -> Result<Vec<EventPass>, Memory>
        requires own { IsSegPassOf self.now.ruled first }
        requires first { first.me.view.client ≡ first_view }
        ensures { IfOk result (λ passes. passes.items ≡ new_passes self.now) }
    {
        let mut passes = Vec::with_capacity(self.alloc, self.passes as usize)?;
        for others in 0..self.passes - 1 {
            let seat = self.ruled.another::<MakeOne>(&mut first);
            let pass = self.pass(seat, others + 2);
            passes.push(pass)?;
        }
        let first = self.pass(first, 1);
        passes.insert(0, first)?;
        Ok(passes)
    }

    /// A queue of no events and its 1 to 17 passes, numbered from 1, in order. Pass 1 is the one
    /// that polls.
    ///
    /// # Errors
    ///
    /// There was no memory for that.
    pub fn new(alloc: Global, passes: u32) -> Result<(EventQueue, Vec<EventPass>), Memory>
        requires passes { (0 < passes) × (passes ≤ 17) }
        ensures passes { IfOk result (λ made. made.0.passes ≡ passes) }
        ensures made { IfOk result (λ made. made.1.items ≡ new_passes made.0) }
    {
        let (ruled, first) = RuledQueue::with_rule(alloc)?;
        let queue = EventQueue {
            ruled,
            passes,
            alloc,
        };
        let passes = queue.deal(first)?;
        Ok((queue, passes))
    }
}

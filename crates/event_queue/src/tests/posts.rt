//! Queues whose events bear their sender's number and a count.
ghost use Rattle.std.specs.Prelude.{◌≡◌, ◌+◌, ◌<◌, ◌≤◌, All, IfOk, vec_len};
ghost use Rattle.event_queue.specs.Passes.{AreNumbered};

use crate::{EventPass, EventQueue};
use love_base::{List, Memory, Text};
use std::alloc::Global;
use std::sync::Wait;
use variant::{Event, Sent};

// The event that this sender sends as its so manieth.
pub(super) fn event(alloc: Global, from: u32, number: u32) -> Sent {
    Sent {
        from,
        number,
        event: Event::ThreadError {
            thread: from,
            text: Text::from_vec(Vec::new(alloc)),
        },
    }
}

// A queue with so many passes, numbered from 1.
#[tactic(auto, using(crate::proofs::Callers::new_own, crate::proofs::Callers::new_numbered, crate::proofs::Callers::new_count))]
pub(super) fn opened(alloc: Global, passes: u32) -> Result<(EventQueue, Vec<EventPass>), Memory>
    requires few { (0 < passes) × (passes ≤ 17) }
    ensures own { IfOk result (λ made. All (λ p. p.queue ≡ made.0) made.1.items) }
    ensures numbered { IfOk result (λ made. AreNumbered 1 made.1.items) }
    ensures passes { IfOk result (λ made. made.0.passes ≡ passes) }
    ensures count { IfOk result (λ made. vec_len made.1 ≡ passes) }
{
    EventQueue::new(alloc, passes)
}

// What is left of a queue to which all passes are given back, numbered from 1.
pub(super) fn closed<R: Wait>(
    rt: &R,
    queue: EventQueue,
    passes: Vec<EventPass>,
) -> Result<List<Sent>, Memory>
    requires own { All (λ p. p.queue ≡ queue) passes.items }
    requires numbered { AreNumbered 1 passes.items }
    requires all { vec_len passes ≡ queue.passes }
{
    queue.left(rt, passes)
}

// Sends so many events through a pass, each with the next number from 1.
pub(super) fn send_all<R: Wait>(
    rt: &R,
    alloc: Global,
    queue: &EventQueue,
    mut pass: EventPass,
    count: u32,
) -> EventPass
    requires own { pass.queue ≡ queue.now }
    ensures own { result.queue ≡ queue.now }
    ensures number { result.number ≡ pass.number }
{
    let from = pass.number();
    for number in 1..=count {
        if queue
            .send(rt, &mut pass, event(alloc, from, number))
            .is_err()
        {
            break;
        }
    }
    pass
}

// Whether the events of this sender have the numbers from 1 to the count, in order, polled and then
// left.
pub(super) fn in_order(polled: &[Sent], left: &[Sent], from: u32, count: u32) -> bool {
    let mut next = 1u64;
    let mut ordered = true;
    for part in [polled, left] {
        for sent in part {
            if sent.from == from {
                ordered = ordered && u64::from(sent.number) == next;
                next = next.saturating_add(1);
            }
        }
    }
    ordered && next == u64::from(count) + 1
}

// Pass 1 and the others, which are numbered from 2.
#[tactic(auto, using(crate::proofs::Callers::own_rest, crate::proofs::Callers::own_first, crate::proofs::Callers::numbered_rest, crate::proofs::Callers::numbered_first))]
pub(super) fn split(mut passes: Vec<EventPass>, queue: &EventQueue) -> (EventPass, Vec<EventPass>)
    requires own { All (λ p. p.queue ≡ queue.now) passes.items }
    requires numbered { AreNumbered 1 passes.items }
    requires some { 0 < vec_len passes }
    ensures first { (result.0.queue ≡ queue.now) × (result.0.number ≡ 1) }
    ensures own { All (λ p. p.queue ≡ queue.now) result.1.items }
    ensures numbered { AreNumbered 2 result.1.items }
    ensures count { vec_len result.1 + 1 ≡ vec_len passes }
{
    let first = passes.remove(0);
    (first, passes)
}

// Pass 1 and the others again in one list.
#[tactic(auto, using(crate::proofs::Callers::own_both, crate::proofs::Callers::numbered_both))]
pub(super) fn put_together(
    first: EventPass,
    mut others: Vec<EventPass>,
    queue: &EventQueue,
) -> Result<Vec<EventPass>, Memory>
    requires first { (first.queue ≡ queue.now) × (first.number ≡ 1) }
    requires own { All (λ p. p.queue ≡ queue.now) others.items }
    requires numbered { AreNumbered 2 others.items }
    ensures own { IfOk result (λ passes. All (λ p. p.queue ≡ queue.now) passes.items) }
    ensures numbered { IfOk result (λ passes. AreNumbered 1 passes.items) }
    ensures count { IfOk result (λ passes. vec_len passes ≡ vec_len others + 1) }
{
    others.insert(0, first)?;
    Ok(others)
}

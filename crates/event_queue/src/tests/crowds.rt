//! Threads that send events while another polls them.
ghost use Rattle.std.specs.Prelude.{◌≡◌, ◌<◌, ◌≤◌, All, IfOk, vec_len};
ghost use Rattle.event_queue.specs.Passes.{AreNumbered};

use crate::tests::posts::{closed, in_order, opened, send_all};
use crate::{EventPass, EventQueue};
use love_base::{List, Memory};
use std::alloc::{AllocError, Global};
use std::sync::atomic::{AtomicU64, Ordering};
use std::sync::{Mutex, Wait};
use std::test::Fail;
use std::thread::{Threads, map_vec, yield_now};
use variant::Sent;

// When the threads of a run begin.
#[derive(Clone, Copy, PartialEq, Eq)]
enum Order {
    AtOnce,
    // The senders wait until a poll found nothing.
    PollerFirst,
    // The poller waits until the senders have ended.
    SendersFirst,
}

// How many threads send, how many events each, and how many are polled before the rest is left.
#[derive(Clone, Copy)]
struct Plan {
    senders: u32,
    count: u32,
    polled: usize,
    order: Order,
}

// What the threads of a run share beside the queue.
#[derive(Drop)]
struct Signs {
    polled: Mutex<Vec<Sent>>,
    // How many polls found nothing.
    empties: AtomicU64,
    // How many senders have ended.
    ended: AtomicU64,
}

// What came of a run.
#[derive(Drop)]
struct Outcome {
    polled: Vec<Sent>,
    left: List<Sent>,
    empties: u64,
}

// Waits until the number is at least this one.
fn wait_for<R: Wait>(rt: &R, number: &AtomicU64, least: u32) {
    for _ in rt.forever() {
        if number.load(Ordering::SeqCst) >= u64::from(least) {
            return;
        }
        yield_now();
    }
    unreachable!()
}

// Polls until so many events came or memory is wanting.
fn poll_all<R: Wait>(
    rt: &R,
    queue: &EventQueue,
    mut pass: EventPass,
    plan: Plan,
    signs: &Signs,
) -> EventPass
    requires own { pass.queue ≡ queue.now }
    requires first { pass.number ≡ 1 }
    ensures own { result.queue ≡ queue.now }
    ensures number { result.number ≡ 1 }
{
    if plan.order == Order::SendersFirst {
        wait_for(rt, &signs.ended, plan.senders);
    }
    let mut count = 0;
    for _ in rt.forever() {
        if count >= plan.polled {
            break;
        }
        match queue.poll(rt, &mut pass) {
            Some(sent) => {
                if signs.polled.lock(rt).push(sent).is_err() {
                    break;
                }
                count += 1;
            }
            None => {
                signs.empties.store(pass.empties(), Ordering::SeqCst);
                yield_now();
            }
        }
    }
    pass
}

// Polls through pass 1, and sends through any other.
fn take_part<R: Wait>(
    rt: &R,
    alloc: Global,
    queue: &EventQueue,
    pass: EventPass,
    plan: Plan,
    signs: &Signs,
) -> EventPass
    requires own { pass.queue ≡ queue.now }
    ensures own { result.queue ≡ queue.now }
    ensures number { result.number ≡ pass.number }
{
    if pass.number() == 1 {
        return poll_all(rt, queue, pass, plan, signs);
    }
    if plan.order == Order::PollerFirst {
        wait_for(rt, &signs.empties, 1);
    }
    let pass = send_all(rt, alloc, queue, pass, plan.count);
    signs.ended.fetch_add(1, Ordering::SeqCst);
    pass
}

// As many threads as there are passes take part.
fn crowd<R: Threads + Wait + Sync>(
    rt: &R,
    alloc: Global,
    queue: &EventQueue,
    passes: Vec<EventPass>,
    plan: Plan,
    signs: &Signs,
) -> Result<Vec<EventPass>, AllocError>
    requires own { All (λ p. p.queue ≡ queue.now) passes.items }
    requires numbered { AreNumbered 1 passes.items }
    ensures own { IfOk result (λ back. All (λ p. p.queue ≡ queue.now) back.items) }
    ensures numbered { IfOk result (λ back. AreNumbered 1 back.items) }
    ensures count { IfOk result (λ back. vec_len back ≡ vec_len passes) }
{
    map_vec(
        rt,
        passes,
        &|pass: EventPass| -> EventPass
            requires { pass.queue ≡ queue.now }
            ensures { (result.queue ≡ queue.entry.now) × (result.number ≡ pass.number) }
        { take_part(rt, alloc, queue, pass, plan, signs) },
    )
}

// What comes of a run.
fn run<R: Threads + Wait + Sync>(rt: &R, alloc: Global, plan: Plan) -> Result<Outcome, Memory>
    requires { (0 < plan.senders) × (plan.senders ≤ 16) }
{
    let (queue, passes) = opened(alloc, plan.senders + 1)?;
    let signs = Signs {
        polled: Mutex::new(Vec::new(alloc)),
        empties: AtomicU64::new(0),
        ended: AtomicU64::new(0),
    };
    let passes = crowd(rt, alloc, &queue, passes, plan, &signs)?;
    let left = closed(rt, queue, passes)?;
    let empties = signs.empties.load(Ordering::SeqCst);
    let Signs {
        polled,
        empties: _,
        ended: _,
    } = signs;
    Ok(Outcome {
        polled: polled.into_inner(),
        left,
        empties,
    })
}

// Whether each sender's events came in order, each once, and no others did.
fn is_whole(outcome: &Outcome, plan: Plan) -> bool {
    let polled = outcome.polled.as_slice();
    let left = outcome.left.as_slice();
    let mut whole = true;
    for from in 2..plan.senders.saturating_add(2) {
        whole = whole && in_order(polled, left, from, plan.count);
    }
    let all = u64::from(plan.senders).saturating_mul(u64::from(plan.count));
    whole && (polled.len() as u64).saturating_add(left.len() as u64) == all
}

#[test]
fn two_threads_send_while_a_third_polls(rt: HostRuntime) -> Result<(), Fail> {
    let plan = Plan {
        senders: 2,
        count: 1_000,
        polled: 1_500,
        order: Order::AtOnce,
    };
    let outcome = run(&rt, rt.alloc(), plan).ok().expect(&rt, "memory");
    assert!(rt; outcome.polled.len() == 1_500 && outcome.left.len() == 500);
    assert!(rt; is_whole(&outcome, plan));
    Ok(())
}

#[test]
fn sixteen_threads_send_while_another_polls(rt: HostRuntime) -> Result<(), Fail> {
    let plan = Plan {
        senders: 16,
        count: 10_000,
        polled: 150_000,
        order: Order::AtOnce,
    };
    let outcome = run(&rt, rt.alloc(), plan).ok().expect(&rt, "memory");
    assert!(rt; outcome.polled.len() == 150_000 && outcome.left.len() == 10_000);
    assert!(rt; is_whole(&outcome, plan));
    Ok(())
}

#[test]
fn the_poller_begins_first(rt: HostRuntime) -> Result<(), Fail> {
    let plan = Plan {
        senders: 1,
        count: 1_000,
        polled: 1_000,
        order: Order::PollerFirst,
    };
    let outcome = run(&rt, rt.alloc(), plan).ok().expect(&rt, "memory");
    assert!(rt; outcome.empties > 0 && outcome.left.is_empty());
    assert!(rt; is_whole(&outcome, plan));
    Ok(())
}

#[test]
fn the_senders_end_before_the_poller_begins(rt: HostRuntime) -> Result<(), Fail> {
    let plan = Plan {
        senders: 2,
        count: 1_000,
        polled: 2_000,
        order: Order::SendersFirst,
    };
    let outcome = run(&rt, rt.alloc(), plan).ok().expect(&rt, "memory");
    assert!(rt; outcome.empties == 0 && outcome.left.is_empty());
    assert!(rt; is_whole(&outcome, plan));
    Ok(())
}

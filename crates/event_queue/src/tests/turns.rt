//! Events on one thread.
ghost use Rattle.std.specs.Prelude.{◌≡◌, IfOk};

use crate::tests::posts::{closed, event, opened, put_together, split};
use crate::{EventPass, EventQueue};
use love_base::{List, Memory, Text};
use std::alloc::Global;
use std::sync::Wait;
use std::test::Fail;
use variant::{Event, Sent, Variant};

// An event by its sender and number.
type Post = (u32, u32);

fn post(sent: &Sent) -> Post {
    (sent.from, sent.number)
}

// A queue with two passes.
#[tactic(auto, using(crate::proofs::Callers::all_last, crate::proofs::Callers::number_last))]
fn two(alloc: Global) -> Result<(EventQueue, EventPass, EventPass), Memory>
    ensures passes { IfOk result (λ made. made.0.passes ≡ 2) }
    ensures first { IfOk result (λ made. (made.1.queue ≡ made.0) × (made.1.number ≡ 1)) }
    ensures second { IfOk result (λ made. (made.2.queue ≡ made.0) × (made.2.number ≡ 2)) }
{
    let (queue, passes) = opened(alloc, 2)?;
    let (first, mut others) = split(passes, &queue);
    let Some(second) = others.pop() else {
        return Err(Memory);
    };
    Ok((queue, first, second))
}

// What is left of it.
#[tactic(auto, using(crate::proofs::Callers::own_one, crate::proofs::Callers::numbered_one))]
fn left<R: Wait>(
    rt: &R,
    alloc: Global,
    queue: EventQueue,
    first: EventPass,
    second: EventPass,
) -> Result<Vec<Post>, Memory>
    requires passes { queue.passes ≡ 2 }
    requires first { (first.queue ≡ queue) × (first.number ≡ 1) }
    requires second { (second.queue ≡ queue) × (second.number ≡ 2) }
{
    let mut others = Vec::new(alloc);
    others.push(second)?;
    let passes = put_together(first, others, &queue)?;
    let left = closed(rt, queue, passes)?;
    let mut posts = Vec::new(alloc);
    for sent in left.as_slice() {
        posts.push(post(sent))?;
    }
    Ok(posts)
}

// Sends an event. Whether there was memory for it.
fn send<R: Wait>(
    rt: &R,
    alloc: Global,
    queue: &EventQueue,
    pass: &mut EventPass,
    post: Post,
) -> bool
    requires own { pass.old.queue ≡ queue.now }
    ensures own { pass.new.queue ≡ pass.old.queue }
    ensures number { pass.new.number ≡ pass.old.number }
{
    queue.send(rt, pass, event(alloc, post.0, post.1)).is_ok()
}

// Sends two events through pass 1 and three through pass 2, of which the last is another state's.
fn send_five<R: Wait>(
    rt: &R,
    alloc: Global,
    queue: &EventQueue,
    first: &mut EventPass,
    second: &mut EventPass,
) -> bool
    requires own { (first.old.queue ≡ queue.now) × (second.old.queue ≡ queue.now) }
    ensures own { (first.new.queue ≡ queue.now) × (second.new.queue ≡ queue.now) }
    ensures first { first.new.number ≡ first.old.number }
    ensures second { second.new.number ≡ second.old.number }
{
    let mut sent = send(rt, alloc, queue, first, (0, 1));
    sent = send(rt, alloc, queue, second, (1, 1)) && sent;
    sent = send(rt, alloc, queue, second, (1, 2)) && sent;
    sent = send(rt, alloc, queue, first, (0, 2)) && sent;
    send(rt, alloc, queue, second, (2, 1)) && sent
}

// Polls an event.
fn poll<R: Wait>(rt: &R, queue: &EventQueue, first: &mut EventPass) -> Option<Post>
    requires first { (first.old.queue ≡ queue.now) × (first.old.number ≡ 1) }
    ensures first { (first.new.queue ≡ queue.now) × (first.new.number ≡ 1) }
{
    let sent = queue.poll(rt, first)?;
    Some(post(&sent))
}

// Polls so often.
fn polls<R: Wait>(
    rt: &R,
    alloc: Global,
    queue: &EventQueue,
    first: &mut EventPass,
    count: u32,
) -> Result<Vec<Option<Post>>, Memory>
    requires first { (first.old.queue ≡ queue.now) × (first.old.number ≡ 1) }
    ensures first { (first.new.queue ≡ queue.now) × (first.new.number ≡ 1) }
{
    let mut found = Vec::new(alloc);
    for _ in 0..count {
        found.push(poll(rt, queue, first))?;
    }
    Ok(found)
}

// What came of sending five events and polling some.
#[derive(Drop)]
struct Outcome {
    found: Vec<Option<Post>>,
    // The empty polls of both passes.
    empties: (u64, u64),
    left: Vec<Post>,
}

fn run<R: Wait>(rt: &R, alloc: Global, count: u32) -> Result<Outcome, Memory> {
    let (queue, mut first, mut second) = two(alloc)?;
    if !send_five(rt, alloc, &queue, &mut first, &mut second) {
        return Err(Memory);
    }
    let found = polls(rt, alloc, &queue, &mut first, count)?;
    let empties = (first.empties(), second.empties());
    let left = left(rt, alloc, queue, first, second)?;
    Ok(Outcome {
        found,
        empties,
        left,
    })
}

#[test]
fn what_pass_1_kept_comes_last(rt: HostRuntime) -> Result<(), Fail> {
    let outcome = run(&rt, rt.alloc(), 7).ok().expect(&rt, "memory");
    let expected = [
        Some((1, 1)),
        Some((1, 2)),
        Some((2, 1)),
        Some((0, 1)),
        Some((0, 2)),
        None,
        None,
    ];
    assert_eq!(rt; outcome.found.as_slice(), expected.as_slice());
    assert_eq!(rt; outcome.empties, (2, 0));
    assert!(rt; outcome.left.is_empty());
    Ok(())
}

#[test]
fn what_was_not_polled_is_left_in_the_same_order(rt: HostRuntime) -> Result<(), Fail> {
    let outcome = run(&rt, rt.alloc(), 1).ok().expect(&rt, "memory");
    assert_eq!(rt; outcome.found.as_slice(), [Some((1, 1))].as_slice());
    assert_eq!(rt; outcome.empties, (0, 0));
    let expected = [(1, 2), (2, 1), (0, 1), (0, 2)];
    assert_eq!(rt; outcome.left.as_slice(), expected.as_slice());
    Ok(())
}

#[test]
fn a_queue_of_no_events_has_nothing_left(rt: HostRuntime) -> Result<(), Fail> {
    let (queue, first, second) = two(rt.alloc()).ok().expect(&rt, "memory");
    assert_eq!(rt; (first.number(), second.number()), (1, 2));
    let left = left(&rt, rt.alloc(), queue, first, second)
        .ok()
        .expect(&rt, "memory");
    assert!(rt; left.is_empty());
    Ok(())
}

// An event with a name and a value, once it went through a queue.
fn through<R: Wait>(rt: &R, alloc: Global, name: &[u8]) -> Result<Option<Sent>, Memory> {
    let (queue, mut first, mut second) = two(alloc)?;
    let mut args = Vec::new(alloc);
    args.push(Variant::Bool(true))?;
    let args = List::from_vec(args);
    let name = Text::of(alloc, name)?;
    let sent = Sent {
        from: 7,
        number: 9,
        event: Event::User { name, args },
    };
    if queue.send(rt, &mut second, sent).is_err() {
        return Err(Memory);
    }
    Ok(queue.poll(rt, &mut first))
}

#[test]
fn an_event_comes_as_it_was_sent(rt: HostRuntime) -> Result<(), Fail> {
    let sent = through(&rt, rt.alloc(), b"done").ok().expect(&rt, "memory");
    let Some(sent) = sent else {
        panic!(rt; "nothing came");
    };
    assert_eq!(rt; post(&sent), (7, 9));
    match &sent.event {
        Event::User { name, args } => {
            assert_eq!(rt; name.bytes(), b"done".as_slice());
            assert!(rt; args.len() == 1);
            assert!(rt; matches!(args.get(0), Some(Variant::Bool(true))));
        }
        other => panic!(rt; "{other:?}"),
    }
    Ok(())
}

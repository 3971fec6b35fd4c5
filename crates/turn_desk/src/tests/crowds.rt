//! Threads that take turns at one object, or at three that they hold at once.
ghost use Rattle.std.specs.Prelude.{◌≡◌, ◌<◌, ◌≤◌, All, IfOk, length, vec_len};
ghost use Rattle.turn_desk.specs.Passes.{object_count};
ghost use Rattle.turn_desk.specs.Closing.{AreNumbered, IsReady};

use crate::tests::desks::{closed, opened};
use crate::tests::ledger::Ledger;
use crate::{Desk, Fronts, Pass};
use love_base::{Memory, Stamp};
use std::alloc::{AllocError, Global};
use std::sync::Wait;
use std::test::Fail;
use std::thread::{Threads, map_vec};

// One turn: takes an object, adds a stamp and gives the object back.
fn turn<R: Wait>(rt: &R, desk: &Desk<Ledger>, pass: &mut Pass<Ledger>, object: u32, stamp: Stamp)
    requires ready { IsReady desk.now pass.old }
    requires object { object < object_count desk.now }
    ensures ready { IsReady desk.now pass.new }
    ensures number { pass.new.view.number ≡ pass.old.view.number }
{
    let mut held = desk.hold(rt, pass, object);
    held.value_mut().add(stamp);
    desk.release(pass, held);
}

// Takes three objects in order, adds a stamp to each, and gives them back in an order of its
// own.
#[tactic(auto, using(crate::proofs::Callers::takes_else, crate::proofs::Callers::takes_fixed, crate::proofs::Callers::takes_number, crate::proofs::Callers::released_else, crate::proofs::Callers::released_free, crate::proofs::Callers::released_all))]
fn three<R: Wait>(rt: &R, desk: &Desk<Ledger>, pass: &mut Pass<Ledger>, stamp: Stamp)
    requires ready { IsReady desk.now pass.old }
    requires objects { object_count desk.now ≡ 8 }
    ensures ready { IsReady desk.now pass.new }
    ensures number { pass.new.view.number ≡ pass.old.view.number }
{
    let mut first = desk.hold(rt, pass, 0);
    let mut second = desk.hold(rt, pass, 1);
    let mut third = desk.hold(rt, pass, 2);
    first.value_mut().add(stamp);
    second.value_mut().add(stamp);
    third.value_mut().add(stamp);
    desk.release(pass, second);
    desk.release(pass, first);
    desk.release(pass, third);
}

// Takes so many turns: at three objects at once, or at the first.
fn turns<R: Wait>(
    rt: &R,
    desk: &Desk<Ledger>,
    mut pass: Pass<Ledger>,
    nested: bool,
    count: u32,
) -> Pass<Ledger>
    requires ready { IsReady desk.now pass }
    requires objects { object_count desk.now ≡ 8 }
    ensures ready { IsReady desk.now result }
    ensures number { result.view.number ≡ pass.view.number }
{
    let state = pass.number;
    for number in 0..count {
        let stamp = Stamp { state, number };
        if nested {
            three(rt, desk, &mut pass, stamp);
        } else {
            turn(rt, desk, &mut pass, 0, stamp);
        }
    }
    pass
}

// As many threads as there are passes take turns.
fn crowd<R: Threads + Wait + Sync>(
    rt: &R,
    desk: &Desk<Ledger>,
    passes: Vec<Pass<Ledger>>,
    nested: bool,
    count: u32,
) -> Result<Vec<Pass<Ledger>>, AllocError>
    requires ready { All (IsReady desk.now) passes.items }
    requires numbered { AreNumbered passes.items }
    requires objects { object_count desk.now ≡ 8 }
    ensures ready { IfOk result (λ back. All (IsReady desk.now) back.items) }
    ensures numbered { IfOk result (λ back. AreNumbered back.items) }
    ensures len { IfOk result (λ back. vec_len back ≡ vec_len passes) }
{
    map_vec(
        rt,
        passes,
        &|pass: Pass<Ledger>| -> Pass<Ledger>
            requires { IsReady desk.now pass × (object_count desk.now ≡ 8) }
            ensures { IsReady desk.entry.now result × (result.view.number ≡ pass.view.number) }
        { turns(rt, desk, pass, nested, count) },
    )
}

// Whether the numbers of this state's stamps are those below the count, in order.
fn in_order(stamps: &[Stamp], state: u32, count: u32) -> bool {
    let mut next = 0u64;
    let mut ordered = true;
    for stamp in stamps {
        if stamp.state == state {
            ordered = ordered && u64::from(stamp.number) == next;
            next = next.saturating_add(1);
        }
    }
    ordered && next == u64::from(count)
}

// A desk at which so many threads took so many turns each, closed.
fn after_turns<R: Threads + Wait + Sync>(
    rt: &R,
    alloc: Global,
    seats: u32,
    nested: bool,
    count: u32,
) -> Result<(Vec<Ledger>, Fronts), Memory>
    requires { (0 < seats) × (seats ≤ 17) }
    ensures objects { IfOk result (λ made. vec_len made.0 ≡ 8) }
    ensures seats { IfOk result (λ made. length made.1 ≡ seats) }
    ensures rows { IfOk result (λ made. All (λ row. length row ≡ 8) made.1) }
{
    let (desk, passes) = opened(alloc, seats)?;
    let passes = crowd(rt, &desk, passes, nested, count)?;
    Ok(closed(desk, passes))
}

#[test]
fn a_desk_closes_as_it_was_made(rt: HostRuntime) -> Result<(), Fail> {
    let (ledgers, fronts) = after_turns(&rt, rt.alloc(), 2, false, 0)
        .ok()
        .expect(&rt, "memory");
    assert!(rt; ledgers.len() == 8);
    assert!(rt; matches!(&ledgers[0], Ledger::Main(_)) && matches!(&ledgers[1], Ledger::Side(_)));
    for ledger in &ledgers {
        assert!(rt; ledger.stamps().is_empty());
    }
    for object in 0..8 {
        assert!(rt; fronts.of(1, object) == 0 && fronts.of(2, object) == 0);
    }
    Ok(())
}

#[test]
fn two_threads_share_one_object(rt: HostRuntime) -> Result<(), Fail> {
    let (ledgers, fronts) = after_turns(&rt, rt.alloc(), 2, false, 1000)
        .ok()
        .expect(&rt, "memory");
    let stamps = ledgers[0].stamps();
    assert!(rt; stamps.len() == 2000);
    assert!(rt; in_order(stamps, 1, 1000) && in_order(stamps, 2, 1000));
    assert!(rt; fronts.of(1, 0).max(fronts.of(2, 0)) == 2000);
    Ok(())
}

#[test]
fn four_threads_nest_three_objects(rt: HostRuntime) -> Result<(), Fail> {
    let (ledgers, _fronts) = after_turns(&rt, rt.alloc(), 4, true, 500)
        .ok()
        .expect(&rt, "memory");
    for ledger in ledgers.iter().take(3) {
        let stamps = ledger.stamps();
        assert!(rt; stamps.len() == 2000);
        for state in 1..5 {
            assert!(rt; in_order(stamps, state, 500));
        }
    }
    assert!(rt; matches!(&ledgers[1], Ledger::Side(_)));
    Ok(())
}

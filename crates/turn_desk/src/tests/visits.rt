//! Seventeen threads that look and take turns at eight objects.
ghost use Rattle.std.specs.Prelude.{◌≡◌, ◌<◌, All, IfOk, vec_len};
ghost use Rattle.turn_desk.specs.Passes.{object_count};
ghost use Rattle.turn_desk.specs.Closing.{AreNumbered, IsReady};

use crate::tests::desks::{closed, opened};
use crate::tests::ledger::Ledger;
use crate::{Desk, Logged, Pass, Tally};
use love_base::{Memory, Stamp};
use std::alloc::{AllocError, Global};
use std::sync::Wait;
use std::sync::atomic::{AtomicU64, Ordering};
use std::test::Fail;
use std::thread::{Threads, map_vec};

// How often each thread visits an object.
const ROUNDS: u32 = 1_600;

// One turn, in which a stamp is added. How long the history was that it found, and that it left.
fn turn<R: Wait>(
    rt: &R,
    desk: &Desk<Ledger>,
    pass: &mut Pass<Ledger>,
    object: u32,
    stamp: Stamp,
) -> (u32, u32)
    requires ready { IsReady desk.now pass.old }
    requires object { object < object_count desk.now }
    ensures ready { IsReady desk.now pass.new }
    ensures number { pass.new.view.number ≡ pass.old.view.number }
{
    let mut held = desk.hold(rt, pass, object);
    let found = held.value().length();
    held.value_mut().add(stamp);
    let left = held.value().length();
    desk.release(pass, held);
    (found, left)
}

// Whether a turn found and left a history that is no shorter than a look before had shown, and no
// longer than one after showed, and the looks' summaries are theirs.
fn agree(before: Tally, turn: (u32, u32), after: Tally) -> bool {
    let (found, left) = turn;
    before.place <= found
        && u64::from(left) == u64::from(found) + 1
        && left <= after.place
        && before.summary == u64::from(before.place)
        && after.summary == u64::from(after.place)
}

// A look, a turn and a look at an object. Whether they agree.
#[tactic(auto, using(crate::proofs::Callers::looked_idle))]
fn visit<R: Wait>(
    rt: &R,
    desk: &Desk<Ledger>,
    pass: &mut Pass<Ledger>,
    object: u32,
    stamp: Stamp,
) -> bool
    requires ready { IsReady desk.now pass.old }
    requires object { object < object_count desk.now }
    ensures ready { IsReady desk.now pass.new }
    ensures number { pass.new.view.number ≡ pass.old.view.number }
{
    let before = desk.look(pass, object);
    let found = turn(rt, desk, pass, object, stamp);
    let after = desk.look(pass, object);
    agree(before, found, after)
}

// Visits the eight objects in turn, and counts the visits that went wrong.
fn visits<R: Wait>(
    rt: &R,
    desk: &Desk<Ledger>,
    mut pass: Pass<Ledger>,
    wrong: &AtomicU64,
) -> Pass<Ledger>
    requires ready { IsReady desk.now pass }
    requires objects { object_count desk.now ≡ 8 }
    ensures ready { IsReady desk.now result }
    ensures number { result.view.number ≡ pass.view.number }
{
    let state = pass.number;
    for number in 0..ROUNDS {
        let stamp = Stamp { state, number };
        let object = (state % 8 + number % 8) % 8;
        if !visit(rt, desk, &mut pass, object, stamp) {
            wrong.fetch_add(1, Ordering::SeqCst);
        }
    }
    pass
}

// As many threads as there are passes visit the objects.
fn crowd<R: Threads + Wait + Sync>(
    rt: &R,
    desk: &Desk<Ledger>,
    passes: Vec<Pass<Ledger>>,
    wrong: &AtomicU64,
) -> Result<Vec<Pass<Ledger>>, AllocError>
    requires ready { All (IsReady desk.now) passes.items }
    requires numbered { AreNumbered passes.items }
    requires objects { object_count desk.now ≡ 8 }
    ensures ready { IfOk result (λ back. All (IsReady desk.now) back.items) }
    ensures numbered { IfOk result (λ back. AreNumbered back.items) }
    ensures len { IfOk result (λ back. vec_len back ≡ vec_len passes) }
{
    map_vec(
        rt,
        passes,
        &|pass: Pass<Ledger>| -> Pass<Ledger>
            requires { IsReady desk.now pass × (object_count desk.now ≡ 8) }
            ensures { IsReady desk.entry.now result × (result.view.number ≡ pass.view.number) }
        { visits(rt, desk, pass, wrong) },
    )
}

// The ledgers after all threads visited them, and how many visits went wrong.
fn after_visits<R: Threads + Wait + Sync>(
    rt: &R,
    alloc: Global,
) -> Result<(Vec<Ledger>, u64), Memory>
    ensures { IfOk result (λ made. vec_len made.0 ≡ 8) }
{
    let (desk, passes) = opened(alloc, 17)?;
    let wrong = AtomicU64::new(0);
    let passes = crowd(rt, &desk, passes, &wrong)?;
    let (ledgers, _fronts) = closed(desk, passes);
    Ok((ledgers, wrong.load(Ordering::SeqCst)))
}

// Whether the numbers of each state's stamps rise.
fn rises(stamps: &[Stamp]) -> bool {
    let mut least = [0u32; 18];
    let mut rising = true;
    for stamp in stamps {
        let state = (stamp.state % 18) as usize;
        rising = rising && stamp.number >= least[state];
        least[state] = stamp.number.saturating_add(1);
    }
    rising
}

#[test]
fn looks_and_turns_of_many_threads_agree(rt: HostRuntime) -> Result<(), Fail> {
    let (ledgers, wrong) = after_visits(&rt, rt.alloc()).ok().expect(&rt, "memory");
    assert!(rt; wrong == 0);
    for ledger in &ledgers {
        assert!(rt; ledger.stamps().len() == 3_400 && rises(ledger.stamps()));
    }
    Ok(())
}

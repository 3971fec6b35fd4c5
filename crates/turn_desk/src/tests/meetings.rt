//! What a pass meets with at an object that another pass has.
ghost use Rattle.std.specs.Prelude.{◌≡◌, ◌<◌};
ghost use Rattle.turn_desk.specs.Passes.{object_count};
ghost use Rattle.turn_desk.specs.Closing.{IsReady};

use crate::tests::desks::opened;
use crate::tests::ledger::Ledger;
use crate::{Busy, Desk, Logged, Pass, Tally};
use love_base::{Memory, Stamp};
use std::alloc::Global;
use std::test::Fail;

// Takes an object, adds a stamp and gives the object back, or tells whose number was found.
fn try_turn(desk: &Desk<Ledger>, pass: &mut Pass<Ledger>, object: u32) -> Option<u32>
    requires ready { IsReady desk.now pass.old }
    requires object { object < object_count desk.now }
    ensures ready { IsReady desk.now pass.new }
{
    match desk.try_hold(pass, object) {
        Ok(mut held) => {
            held.value_mut().add(Stamp {
                state: 0,
                number: 0,
            });
            desk.release(pass, held);
            None
        }
        Err(Busy { seat }) => Some(seat),
    }
}

// What two passes meet with while the first has an object.
#[derive(Debug, PartialEq, Eq, Drop)]
struct Meeting {
    // What the first pass took, and how long its history was.
    taken: u32,
    length: u32,
    // Whose number the second pass found there, and at the next object.
    found: Option<u32>,
    next: Option<u32>,
    // What the second pass saw before the first gave its change back, and after.
    during: Tally,
    after: Tally,
}

// Lets the second pass try and look while the first has changed an object.
#[tactic(auto, using(crate::proofs::Callers::looked_idle))]
fn meets(
    desk: &Desk<Ledger>,
    first: &mut Pass<Ledger>,
    second: &mut Pass<Ledger>,
) -> Option<Meeting>
    requires first { IsReady desk.now first.old }
    requires second { IsReady desk.now second.old }
    requires objects { object_count desk.now ≡ 8 }
{
    let _turn = try_turn(desk, first, 0);
    let Ok(mut held) = desk.try_hold(first, 0) else {
        return None;
    };
    let taken = held.object();
    let length = held.value().length();
    held.value_mut().add(Stamp {
        state: 0,
        number: 1,
    });
    let found = try_turn(desk, second, 0);
    let next = try_turn(desk, second, 1);
    let during = desk.look(second, 0);
    desk.release(first, held);
    let after = desk.look(second, 0);
    Some(Meeting {
        taken,
        length,
        found,
        next,
        during,
        after,
    })
}

#[tactic(auto, using(crate::proofs::Callers::ready_last, crate::proofs::Callers::ready_front))]
fn two_meet(alloc: Global) -> Result<Option<Meeting>, Memory> {
    let (desk, mut passes) = opened(alloc, 2)?;
    let Some(mut second) = passes.pop() else {
        return Ok(None);
    };
    let Some(mut first) = passes.pop() else {
        return Ok(None);
    };
    Ok(meets(&desk, &mut first, &mut second))
}

#[test]
fn a_busy_object_names_its_pass_and_shows_what_was_published(rt: HostRuntime) -> Result<(), Fail> {
    let met = two_meet(rt.alloc()).ok().expect(&rt, "memory");
    let expected = Meeting {
        taken: 0,
        length: 1,
        found: Some(1),
        next: None,
        during: Tally {
            place: 1,
            summary: 1,
        },
        after: Tally {
            place: 2,
            summary: 2,
        },
    };
    assert!(rt; met == Some(expected));
    Ok(())
}

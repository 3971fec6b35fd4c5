//! A state's run among the objects that its own actions made.
ghost use Rattle.std.specs.Prelude.{◌≡◌, ◌+◌, ◌*◌, ◌<◌, ◌≤◌, ◌^◌, [], length};
ghost use Rattle.lua_tree.specs.Tree.{Block};
ghost use Rattle.lua_meaning.specs.Run.{Start};
ghost use Rattle.lua_machine.specs.Machine.{IsFresh, IsIn};
ghost use Rattle.lua_state.specs.Kept.{IsKept};
ghost use Rattle.lua_state.specs.Played.{FitsTurn, Played, StartsAt, Turned};

use crate::objects::{Objects, Outcome};
use lua_machine::{Machine, Step};
use variant::{Ask, EndKind, Reply};

// How a run came to stand still.
#[derive(Debug, Drop)]
pub(crate) enum Finish {
    // It ended.
    Ended(EndKind),
    // It waits, since its ask has no answer.
    Waits(Ask),
}

// What a step of a machine comes to.
#[derive(Debug, Drop)]
pub(crate) enum Turn {
    // It is told this, and goes on.
    Told(Reply),
    // It goes on no further.
    Stands(Finish),
}

// What a step of a machine comes to among the objects.
fn take_turn(objects: &mut Objects, step: Step) -> Turn
    requires kept { IsKept objects.old }
    requires few { length objects.old.trace.actions + 3 < 2 ^ 32 }
    ensures kept { IsKept objects.new }
    ensures turned { Turned step objects.old.trace.actions objects.new.trace.actions result }
    ensures fits { FitsTurn step result }
{
    match step {
        Step::Ask(ask) => match objects.answer(ask) {
            Outcome::Replied(reply) => Turn::Told(reply),
            Outcome::Waits(ask) => Turn::Stands(Finish::Waits(ask)),
            Outcome::NoMemory => Turn::Stands(Finish::Ended(EndKind::Memory)),
        },
        Step::Ended(end) => Turn::Stands(Finish::Ended(end)),
    }
}

// Runs a machine to its end, or to an ask without an answer. A run asks at most twice in each of its
// ticks.
pub(crate) fn play(machine: &mut Machine<'_>, objects: &mut Objects, steps: u32) -> Finish
    requires fresh { IsFresh machine.old }
    requires kept { IsKept objects.old }
    requires none { objects.old.trace.actions ≡ [] }
    requires steps { steps ≤ 1000000000 }
    requires starts { StartsAt steps machine.old }
    ensures kept { IsKept objects.new }
    ensures few { length objects.new.trace.actions ≤ 2 * steps }
    ensures played { (start : Start) (b : Block) → start.ticks ≡ steps →
        IsIn start b [] [] machine.old →
        Played start b objects.new.trace.actions machine.new result }
{
    let mut reply = None;
    loop {
        match take_turn(objects, machine.next(reply)) {
            Turn::Told(told) => reply = Some(told),
            Turn::Stands(finish) => return finish,
        }
    }
}

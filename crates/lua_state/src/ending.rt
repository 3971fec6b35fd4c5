//! How a run is told that came to a finish, and what it leaves.
ghost use Rattle.std.specs.Prelude.{◌≡◌, ℕ, [], List as Items};
ghost use Rattle.variant.specs.declared.action.Action.{Action};
ghost use Rattle.variant.specs.declared.ask.Ask as an_ask;
ghost use Rattle.lua_meaning.specs.Run.{Run};
ghost use Rattle.lua_state.specs.Programs.{main_name};
ghost use Rattle.lua_state.specs.Solo.{held_after};
ghost use Rattle.lua_state.specs.Cuts.{CutsFollow, asked_in};
ghost use Rattle.lua_state.specs.Runs.{Ends, HoldsAt};
ghost use Rattle.lua_state.specs.Kept.{IsKept};
ghost use Rattle.lua_state.specs.Played.{end_of, waiting_of};
ghost use Rattle.lua_state.specs.Leaving.{IsLeft};

use crate::objects::Objects;
use crate::playing::Finish;
use crate::{Alone, StateRecord};
use love_base::{List, Text};
use variant::{Ask, EndKind, Source, Variant};

// How an end is told. No program ends inside a section but by its ticks or for want of memory; that
// isn't proved here, and so such an end is told as want of memory.
fn told(end: EndKind, objects: &Objects) -> EndKind
    ensures holds { HoldsAt result objects.now.held.items }
    ensures ends { (asked : Items Action) (asks : Items an_ask.Ask) (out : Items ℕ) (run : Run) →
        Ends end None asked asks out run → Ends result None asked asks out run }
{
    if objects.held.is_empty() {
        return end;
    }
    match end {
        EndKind::Done(_) | EndKind::Error(_) => EndKind::Memory,
        end => end,
    }
}

// How a state ended that came to this finish, and the ask by which it waits.
pub(crate) fn settle(finish: Finish, objects: &Objects) -> (EndKind, Option<Ask>)
    ensures holds { HoldsAt result.0 objects.now.held.items }
    ensures ends { (asked : Items Action) (asks : Items an_ask.Ask) (out : Items ℕ) (run : Run) →
        Ends (end_of finish) (waiting_of finish) asked asks out run →
        Ends result.0 result.1 asked asks out run }
{
    match finish {
        Finish::Ended(end) => (told(end, objects), None),
        Finish::Waits(ask) => (EndKind::Stopped, Some(ask)),
    }
}

// What state 0 leaves that ran `main.lua` and holds nothing any more.
pub(crate) fn left(
    source: Text,
    args: List<Variant>,
    objects: Objects,
    out: Text,
    end: EndKind,
    waiting: Option<Ask>,
) -> Alone
    requires source { source ≡ main_name }
    requires args { args ≡ [] }
    requires kept { IsKept objects }
    requires none { objects.held.items ≡ [] }
    requires cuts { CutsFollow objects.trace.actions }
    requires holds { HoldsAt end (held_after (asked_in objects.trace.actions)) }
    ensures left { IsLeft result }
    ensures trace { result.ran.trace.actions ≡ objects.trace.actions }
    ensures out { result.ran.out ≡ out }
    ensures end { result.ran.end ≡ end }
    ensures waiting { result.waiting ≡ waiting }
{
    let Objects {
        board,
        channels,
        trace,
        ..
    } = objects;
    let ran = StateRecord {
        state: 0,
        thread: 0,
        source: Source::File(source),
        args,
        trace,
        out,
        end,
        stop: None,
        told: false,
    };
    Alone {
        ran,
        waiting,
        channels: List::from_vec(channels),
        board,
    }
}

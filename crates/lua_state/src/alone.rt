//! A game on one thread, without Threads of its own.
ghost use Rattle.std.specs.Prelude.{◌≡◌, ◌≤◌, [], map, Some, None, IfOk};
ghost use Rattle.std.specs.List.{AllByRecursion};
ghost use Rattle.variant.specs.Histories.{AtEach};
ghost use Rattle.variant.specs.declared.end_kind.EndKind.TheVariants.{Error as Failed};
ghost use Rattle.lua_tree.specs.Tree.{Block};
ghost use Rattle.lua_meaning.specs.Control.{ready};
ghost use Rattle.lua_meaning.specs.Run.{Start};
ghost use Rattle.lua_machine.specs.Machine.{IsStart};
ghost use Rattle.lua_state.specs.Programs.{IsBuilt, given, main_of};
ghost use Rattle.lua_state.specs.Solo.{IsDone, board_after, held_after};
ghost use Rattle.lua_state.specs.Cuts.{CutsFollow, asked_in};
ghost use Rattle.lua_state.specs.Runs.{AreChannels, AreFree, HasMain, HoldsAt, IsMainRecord, IsMainStart, Ran};
ghost use Rattle.lua_state.specs.Leaving.{HasStart, IsLeft};

use crate::StateRecord;
use crate::ending::{left, settle};
use crate::objects::Objects;
use crate::playing::play;
use channel_core::Channel;
use love_base::{List, Memory, Text};
use lua_code::{Code, File, FileCode, Program};
use lua_machine::Machine;
use std::alloc::Global;
use thread_board::Board;
use variant::{Ask, EndKind};

// The name of the file that state 0 runs.
const MAIN: &[u8] = b"main.lua";

/// What a game came to whose state 0 ran alone.
#[derive(Debug, Drop)]
pub struct Alone {
    /// What state 0 did.
    pub ran: StateRecord,
    /// The ask by which it waits for a Thread, where it does; it would wait for ever.
    pub waiting: Option<Ask>,
    /// The Channels 1, 2, 3 and so on: just those that were made.
    pub channels: List<Channel>,
    /// The board of names and Threads. It has no workers, so that no Thread is ever started.
    pub board: Board,
}

/// Runs a game's `main.lua` as state 0, with so many ticks (docs/LANGUAGE.md), on one thread.
///
/// Each ask is answered at once, by the Channels, the board and the list of events that its own
/// actions made. The run ends with the first ask that has no answer, as a `demand` of a Channel
/// without messages. A state that ends inside sections leaves them, the last entered first.
///
/// # Errors
///
/// [`Memory`] where there was no room to begin. Where it is wanting later, that is how the state
/// ended.
pub fn run_alone(alloc: Global, program: &Program, steps: u32) -> Result<Alone, Memory>
    requires built { AllByRecursion IsBuilt program.now.files }
    requires main { HasMain (map given program.now.files) }
    requires steps { steps ≤ 1000000000 }
    ensures record { IfOk result (λ alone. IsMainRecord alone.ran) }
    ensures actions { IfOk result (λ alone. AtEach IsDone alone.ran.trace.actions) }
    ensures cuts { IfOk result (λ alone. CutsFollow alone.ran.trace.actions) }
    ensures ended { IfOk result (λ alone.
        HoldsAt alone.ran.end (held_after (asked_in alone.ran.trace.actions))) }
    ensures run { IfOk result (λ alone. (start : Start)
        × IsMainStart (map given program.now.files) steps start
        × Ran start alone.ran.trace.actions alone.ran.out alone.ran.end alone.waiting) }
    ensures board { IfOk result (λ alone.
        alone.board ≡ record { workers = 0; history = board_after alone.ran.trace.actions }) }
    ensures channels { IfOk result (λ alone.
        AreChannels alone.ran.trace.actions alone.channels) }
    ensures free { IfOk result (λ alone. AreFree alone.channels) }
{
    match &main_file(program).code {
        FileCode::Ready(code) => run(alloc, program, code, steps),
        FileCode::Faulty(text) => faulty(alloc, text),
        FileCode::NotLua => unreachable!(),
    }
}

// A game's `main.lua`.
fn main_file(program: &Program) -> &File
    requires main { HasMain (map given program.now.files) }
    ensures { main_of program.now.files ≡ Some result.now }
{
    let files = program.files.as_slice();
    for file in files {
        if file.name.bytes() == MAIN {
            return file;
        }
    }
    unreachable!()
}

// What a game comes to whose `main.lua` is this code.
fn run(alloc: Global, program: &Program, code: &Code, steps: u32) -> Result<Alone, Memory>
    requires steps { steps ≤ 1000000000 }
    requires starts { HasStart program.now code.now steps }
    ensures left { IfOk result (λ alone. IsLeft alone) }
    ensures ran { IfOk result (λ alone. (start : Start) (b : Block) →
        start.ticks ≡ steps → start.code ≡ ready b →
        IsStart program.now code.now [] steps 0 start b →
        Ran start alone.ran.trace.actions alone.ran.out alone.ran.end alone.waiting) }
{
    let source = Text::of(alloc, MAIN)?;
    let args = List::new(alloc);
    let mut machine = Machine::start(alloc, program, code, &args, steps, 0)?;
    let mut objects = Objects::new(alloc);
    let finish = play(&mut machine, &mut objects, steps);
    let (end, waiting) = settle(finish, &objects);
    objects.leave_all();
    Ok(left(source, args, objects, machine.abandon(), end, waiting))
}

// What a game comes to whose `main.lua` isn't a program of Lua: it ends with the text of its fault.
fn faulty(alloc: Global, text: &Text) -> Result<Alone, Memory>
    ensures left { IfOk result (λ alone. IsLeft alone) }
    ensures none { IfOk result (λ alone. alone.ran.trace.actions ≡ []) }
    ensures out { IfOk result (λ alone. alone.ran.out ≡ []) }
    ensures end { IfOk result (λ alone. alone.ran.end ≡ Failed text.now) }
    ensures waiting { IfOk result (λ alone. alone.waiting ≡ None) }
{
    let source = Text::of(alloc, MAIN)?;
    let end = EndKind::Error(text.copy(alloc)?);
    let args = List::new(alloc);
    let out = Text::from_vec(Vec::new(alloc));
    let objects = Objects::new(alloc);
    Ok(left(source, args, objects, out, end, None))
}

ghost use Rattle.std.specs.Prelude.{◌≡◌, ◌+◌, ◌++◌, ◌<◌, ◌≤◌, ◌↔◌, ◌⊎◌, ◌∷◌, [], ℕ, List, map, vec_capacity, Option, IfSome, IsErrOf, OnOk};
ghost use Rattle.std.specs.Option.{option_map};
ghost use Rattle.std.specs.List.{AllByRecursion};
ghost use Rattle.love_base.specs.Fault.{HasRisen};
ghost use Rattle.love_base.specs.Prefix.{IsPrefix};
ghost use Rattle.lua_state.specs.Programs.{IsBuilt, given};
ghost use Rattle.lua_state.specs.Runs.{HasMain};
ghost use Rattle.love_run.specs.Command.{Line, settings};
ghost use Rattle.love_run.specs.Ending.{IsStatus, SaysNothingRan, SaysWritten, code_of, run_status};
ghost use Rattle.love_run.specs.Game.{HasNoMain, IsTooLarge, most_files};
ghost use Rattle.love_run.specs.Outcome.{HasRun, IsUnbegun, RanOn, folder_named};
ghost use Rattle.love_run.specs.Rendering.{rendering};

use crate::command::read_command;
use crate::ending::Ending;
use crate::load::load;
use crate::rendering::render;
use crate::report::Report;
use crate::writer::write_all;
use love_base::{Folder, List, Memory, Sink, SinkErr, Text};
use lua_code::Program;
use lua_state::{Alone, StateRecord, run_alone};
use std::alloc::Global;

/// Reads a game, runs it and writes what it prints: all that the program does.
///
/// `words` are those after the program's name. docs/COMMAND.md has the statuses that a report can
/// have.
pub fn love<F: Folder, S: Sink>(
    alloc: Global,
    words: &[Text],
    folder: &mut F,
    sink: &mut S,
) -> Report
    // What each status says.
    ensures status { IsStatus result.status }
    ensures usage { (result.status ≡ code_of Ending.Usage) ↔ (settings words.now ≡ Option.None) }
    ensures no_main { result.status ≡ code_of Ending.NoMain
        → IfSome (F.files folder.old (folder_named words.now)) HasNoMain }
    ensures too_large { result.status ≡ code_of Ending.TooLarge
        → IfSome (F.files folder.old (folder_named words.now)) IsTooLarge }
    ensures folder_fault { result.status ≡ code_of Ending.Unreadable
        → HasRisen (F.faults folder.old) (F.faults folder.new) }
    ensures folder_fault_told { F.faults folder.old < F.faults folder.new
        → result.status ≡ code_of Ending.Unreadable }
    ensures output_fault { result.status ≡ code_of Ending.Unwritten
        → HasRisen (S.faults sink.old) (S.faults sink.new) }
    ensures output_fault_told { S.faults sink.old < S.faults sink.new
        → result.status ≡ code_of Ending.Unwritten }
    ensures ended { SaysWritten result.status → result.status ≡ run_status result.states }

    // Whether the game ran, and that its run is lawful.
    ensures ran { SaysWritten result.status ⊎ (result.status ≡ code_of Ending.Unwritten)
        → HasRun (F.files folder.old (folder_named words.now)) words.now
        result.states result.channels result.board }
    ensures ran_or_not { result.status ≡ code_of Ending.OutOfMemory
        → IsUnbegun result.states result.channels result.board
        ⊎ HasRun (F.files folder.old (folder_named words.now)) words.now
        result.states result.channels result.board }
    ensures nothing_ran { SaysNothingRan result.status
        → IsUnbegun result.states result.channels result.board }

    // What was written.
    ensures written { SaysWritten result.status → S.taken sink.new
        ≡ option_map (λ before. before ++ rendering result.states) (S.taken sink.old) }
    ensures written_in_part { (sent : List ℕ) × IsPrefix sent (rendering result.states)
        × (S.taken sink.new ≡ option_map (λ before. before ++ sent) (S.taken sink.old)) }
    ensures wrote_nothing { SaysNothingRan result.status → S.taken sink.new ≡ S.taken sink.old }

    // Where no fault happens, a game within the limits runs and all is written.
    ensures complete { (line : Line) → settings words.now ≡ Option.Some line
        → ¬ HasRisen (F.faults folder.old) (F.faults folder.new)
        → ¬ HasRisen (S.faults sink.old) (S.faults sink.new)
        → IfSome (F.files folder.old (folder_named words.now)) (λ files.
        ¬ HasNoMain files → ¬ IsTooLarge files
        → SaysWritten result.status ⊎ (result.status ≡ code_of Ending.OutOfMemory)) }

    // What stays as it was.
    ensures kept { F.files folder.new ≡ F.files folder.old }
    ensures calls { F.calls folder.new ≤ F.calls folder.old + (most_files + 1) }
{
    let Some(command) = read_command(words) else {
        return Report::unbegun(alloc, Ending::Usage);
    };
    match load(alloc, command.folder, folder) {
        Ok(program) => play(alloc, &program, command.steps, sink),
        Err(fault) => Report::unbegun(alloc, Ending::unloaded(fault)),
    }
}

// Runs a game and writes what is to be written of it.
fn play<S: Sink>(alloc: Global, program: &Program, steps: u32, sink: &mut S) -> Report
    requires built { AllByRecursion IsBuilt program.now.files }
    requires main { HasMain (map given program.now.files) }
    requires steps { steps ≤ 1000000000 }
    ensures status { SaysWritten result.status ⊎ (result.status ≡ code_of Ending.Unwritten)
        ⊎ (result.status ≡ code_of Ending.OutOfMemory) }
    ensures failed { result.status ≡ code_of Ending.Unwritten
        → HasRisen (S.faults sink.old) (S.faults sink.new) }
    ensures told { S.faults sink.old < S.faults sink.new
        → result.status ≡ code_of Ending.Unwritten }
    ensures ended { SaysWritten result.status → result.status ≡ run_status result.states }
    ensures ran { SaysWritten result.status ⊎ (result.status ≡ code_of Ending.Unwritten)
        → RanOn (map given program.now.files) steps result.states result.channels result.board }
    ensures ran_or_not { IsUnbegun result.states result.channels result.board
        ⊎ RanOn (map given program.now.files) steps result.states result.channels result.board }
    ensures written { SaysWritten result.status → S.taken sink.new
        ≡ option_map (λ before. before ++ rendering result.states) (S.taken sink.old) }
    ensures written_in_part { (sent : List ℕ) × IsPrefix sent (rendering result.states)
        × (S.taken sink.new ≡ option_map (λ before. before ++ sent) (S.taken sink.old)) }
{
    let Ok(states) = Vec::with_capacity(alloc, 1) else {
        return Report::unbegun(alloc, Ending::OutOfMemory);
    };
    match run_alone(alloc, program, steps) {
        Ok(alone) => tell(alloc, alone, states, sink),
        Err(Memory) => Report::unbegun(alloc, Ending::OutOfMemory),
    }
}

// Writes what is to be written of a run. Its record goes into `states`, which has room for it.
fn tell<S: Sink>(alloc: Global, alone: Alone, mut states: Vec<StateRecord>, sink: &mut S) -> Report
    requires empty { states.items ≡ [] }
    requires room { 0 < vec_capacity states }
    ensures states { result.states ≡ alone.ran ∷ [] }
    ensures channels { result.channels ≡ alone.channels }
    ensures board { result.board ≡ alone.board }
    ensures status { SaysWritten result.status ⊎ (result.status ≡ code_of Ending.Unwritten)
        ⊎ (result.status ≡ code_of Ending.OutOfMemory) }
    ensures failed { result.status ≡ code_of Ending.Unwritten
        → HasRisen (S.faults sink.old) (S.faults sink.new) }
    ensures told { S.faults sink.old < S.faults sink.new
        → result.status ≡ code_of Ending.Unwritten }
    ensures ended { SaysWritten result.status → result.status ≡ run_status result.states }
    ensures written { SaysWritten result.status → S.taken sink.new
        ≡ option_map (λ before. before ++ rendering result.states) (S.taken sink.old) }
    ensures written_in_part { (sent : List ℕ) × IsPrefix sent (rendering result.states)
        × (S.taken sink.new ≡ option_map (λ before. before ++ sent) (S.taken sink.old)) }
{
    let ending = Ending::of_run(&alone.ran.end);
    states.push(alone.ran).unwrap();
    let written = write_states(alloc, states.as_slice(), sink);
    Report {
        status: ending.after(written).code(),
        states: List::from_vec(states),
        channels: alone.channels,
        board: alone.board,
    }
}

// Writes what is to be written of these states.
fn write_states<S: Sink>(alloc: Global, states: &[StateRecord], sink: &mut S) -> Result<(), SinkErr>
    ensures all { OnOk result (S.taken sink.new
        ≡ option_map (λ before. before ++ rendering states.now) (S.taken sink.old)) }
    ensures part { (sent : List ℕ) × IsPrefix sent (rendering states.now)
        × (S.taken sink.new ≡ option_map (λ before. before ++ sent) (S.taken sink.old)) }
    ensures failed { IsErrOf result SinkErr.Failed
        → HasRisen (S.faults sink.old) (S.faults sink.new) }
    ensures told { S.faults sink.old < S.faults sink.new → IsErrOf result SinkErr.Failed }
{
    let bytes = render(alloc, states)?;
    write_all(sink, bytes.as_slice())
}

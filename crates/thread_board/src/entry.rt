ghost use Rattle.std.specs.Prelude.{◌≡◌, ◌+◌, ◌<◌, ◌≤◌, ◌^◌, [], ◌∷◌, ◌++◌, length, vec_capacity};
ghost use Rattle.std.specs.Option.{option_copied};

use love_base::{List, Stamp, Text};
use variant::{EndKind, Source, Variant};

/// One entry of the board's history.
#[derive(Debug, Drop)]
pub struct BoardEntry {
    /// Whose action it was, and which one.
    pub by: Stamp,
    /// What it did.
    pub what: BoardChange,
}

/// What an action did to the board. Channels, Threads and states are numbered from 1, each in the
/// order in which they came.
#[derive(Debug, Drop)]
pub enum BoardChange {
    /// It gave a new Channel a name (LÖVE wiki, `love.thread.getChannel`).
    Name {
        /// The Channel's number.
        channel: u32,
        /// The name.
        name: Text,
    },
    /// It made a Channel without a name (LÖVE wiki, `love.thread.newChannel`).
    NewChannel {
        /// The Channel's number.
        channel: u32,
    },
    /// It made a Thread (LÖVE wiki, `love.thread.newThread`).
    NewThread {
        /// The Thread's number.
        thread: u32,
        /// What the Thread runs.
        source: Source,
    },
    /// It started a Thread, and with it a state (LÖVE wiki, `Thread:start`).
    Start {
        /// The number of the new state.
        state: u32,
        /// The Thread's number.
        thread: u32,
        /// The values that the state begins with.
        args: List<Variant>,
    },
    /// A worker began the state.
    Begin {
        /// The worker's number, from 1.
        worker: u32,
    },
    /// The state ended; states other than 0 end so.
    End {
        /// How it ended.
        end: EndKind,
    },
    /// State 0 ended, and the game with it.
    MainEnd,
}

impl BoardChange {
    ghost use Rattle.thread_board.specs.Register.{failure_of};

    // The text that a change tells of a failure, if it does.
    pub(crate) fn failure(&self) -> Option<&[u8]>
        ensures { option_copied result ≡ failure_of self.now }
    {
        match self {
            BoardChange::End { end } => end.text(),
            _ => None,
        }
    }
}

// Adds an entry for which there is room, and gives its place, counted from 1.
pub(crate) fn append(history: &mut Vec<BoardEntry>, entry: BoardEntry) -> u32
    requires room { length history.old.items < vec_capacity history.old }
    requires few { length history.old.items < 2 ^ 16 }
    ensures items { history.new.items ≡ history.old.items ++ entry ∷ [] }
    ensures place { result ≡ length history.old.items + 1 }
    ensures capacity { vec_capacity history.old ≤ vec_capacity history.new }
{
    history.push(entry).unwrap();
    history.len() as u32
}

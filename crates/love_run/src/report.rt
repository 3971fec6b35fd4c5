ghost use Rattle.std.specs.Prelude.{◌≡◌, []};
ghost use Rattle.love_run.specs.Ending.{code_of};
ghost use Rattle.love_run.specs.Outcome.{IsUnbegun};

use crate::ending::Ending;
use channel_core::Channel;
use love_base::List;
use lua_state::StateRecord;
use std::alloc::Global;
use thread_board::Board;

/// How a run ended, what each state did, and what became of what they share.
#[derive(Debug, Drop)]
pub struct Report {
    /// The exit status of the program (docs/COMMAND.md).
    pub status: u8,
    /// The records of the states, state 0's first. Empty where nothing ran.
    pub states: List<StateRecord>,
    /// The Channels 1, 2, 3 and so on, with their histories. Empty where nothing ran.
    pub channels: List<Channel>,
    /// The board of names and Threads, with its history. Empty where nothing ran.
    pub board: Board,
}

impl Report {
    // A report of a run that didn't begin.
    pub(crate) fn unbegun(alloc: Global, ending: Ending) -> Report
        ensures status { result.status ≡ code_of ending }
        ensures unbegun { IsUnbegun result.states result.channels result.board }
    {
        Report {
            status: ending.code(),
            states: List::new(alloc),
            channels: List::new(alloc),
            board: Board::empty(alloc),
        }
    }
}

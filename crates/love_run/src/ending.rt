ghost use Rattle.std.specs.Prelude.{◌≡◌};
ghost use Rattle.love_run.specs.Ending.{code_of, done_status, ending_of, number_status, run_ending, written_ending};

use crate::load_fault::LoadFault;
use love_base::SinkErr;
use lua_value::Num;
use variant::EndKind;

/// How the program ends (docs/COMMAND.md).
#[derive(Clone, Copy, Debug, PartialEq, Eq)]
pub enum Ending {
    /// State 0 is done with this exit status, from 0 to 63, and all of the output was written.
    Done(u8),
    /// The words aren't a command line.
    Usage,
    /// The folder has no `main.lua`.
    NoMain,
    /// The folder or one of its files can't be read.
    Unreadable,
    /// The output can't be written.
    Unwritten,
    /// The folder has over 1,000 files, or they have over 67,108,864 bytes together.
    TooLarge,
    /// State 0 waits for a Thread.
    Waiting,
    /// Want of memory.
    OutOfMemory,
    /// State 0 failed with an error.
    Failed,
    /// State 0 used up its ticks.
    OutOfSteps,
}

impl Ending {
    /// The exit status.
    pub fn code(self) -> u8
        ensures { result ≡ code_of self }
    {
        match self {
            Ending::Done(status) => status,
            Ending::Usage => 64,
            Ending::NoMain => 65,
            Ending::Unreadable => 66,
            Ending::Unwritten => 67,
            Ending::TooLarge => 68,
            Ending::Waiting => 69,
            Ending::OutOfMemory => 70,
            Ending::Failed => 71,
            Ending::OutOfSteps => 72,
        }
    }

    // Of a game that isn't loaded.
    pub(crate) fn unloaded(fault: LoadFault) -> Ending
        ensures { result ≡ ending_of fault }
    {
        match fault {
            LoadFault::NoMain => Ending::NoMain,
            LoadFault::Folder => Ending::Unreadable,
            LoadFault::TooLarge => Ending::TooLarge,
            LoadFault::Memory => Ending::OutOfMemory,
        }
    }

    // Of a game whose state 0 ended so.
    pub(crate) fn of_run(end: &EndKind) -> Ending
        ensures { result ≡ run_ending end.now }
    {
        match end {
            EndKind::Done(value) => Ending::Done(done_status(*value)),
            EndKind::Error(_) => Ending::Failed,
            EndKind::OutOfSteps => Ending::OutOfSteps,
            EndKind::Stopped => Ending::Waiting,
            EndKind::Memory => Ending::OutOfMemory,
        }
    }

    // The same after its output was written.
    pub(crate) fn after(self, written: Result<(), SinkErr>) -> Ending
        ensures { result ≡ written_ending self written }
    {
        match written {
            Ok(()) => self,
            Err(SinkErr::Failed) => Ending::Unwritten,
            Err(SinkErr::Memory) => Ending::OutOfMemory,
        }
    }

    // What the program says of it on standard error: nothing where state 0 is done, failed or is
    // out of steps.
    fn message(self) -> Option<&'static str> {
        match self {
            Ending::Done(_) | Ending::Failed | Ending::OutOfSteps => None,
            Ending::Usage => Some(USAGE),
            Ending::NoMain => Some("no main.lua"),
            Ending::Unreadable => Some("the folder can't be read"),
            Ending::Unwritten => Some("the output can't be written"),
            Ending::TooLarge => Some("the game is too large"),
            Ending::Waiting => Some("the game waits for a thread"),
            Ending::OutOfMemory => Some("out of memory"),
        }
    }
}

const USAGE: &str = "usage: love_run FOLDER [--frames N] [--steps N] [--workers N] [--trace]";

// The exit status that state 0's value stands for.
fn done_status(value: Option<Num>) -> u8
    ensures { result ≡ done_status value }
{
    match value {
        Some(number) => number_status(number.get()),
        None => 0,
    }
}

fn number_status(number: i64) -> u8
    ensures { result ≡ number_status number }
{
    if number < 0 || number > 63 {
        return 0;
    }
    number as u8
}

// The endings of which the program says something.
const TOLD: [Ending; 7] = [
    Ending::Usage,
    Ending::NoMain,
    Ending::Unreadable,
    Ending::Unwritten,
    Ending::TooLarge,
    Ending::Waiting,
    Ending::OutOfMemory,
];

// What the program says of an exit status on standard error.
pub(crate) fn message_of(status: u8) -> Option<&'static str> {
    for ending in TOLD {
        if ending.code() == status {
            return ending.message();
        }
    }
    None
}

ghost use Rattle.std.specs.Prelude.{◌≡◌, ◌≤◌, length};
ghost use Rattle.std.specs.Option.{option_copied};
ghost use Rattle.thread_board.specs.Register.{numbered, change_thread};

use variant::Source;

// A Thread, beside the history.
#[derive(Debug, Drop)]
pub(crate) struct Thread {
    // What it runs.
    pub(crate) source: Source,
    // Its state that was started and hasn't ended.
    pub(crate) runs: Option<u32>,
    // The place, counted from 0, of the last end of a state of it, where no start follows.
    pub(crate) ended: Option<u32>,
}

// A state that was started.
#[derive(Clone, Copy, Debug)]
pub(crate) struct Started {
    // The number of its Thread.
    pub(crate) thread: u32,
    // Whether it has ended.
    pub(crate) ended: bool,
}

// The Thread of a number, counted from 1.
pub(crate) fn thread_at(threads: &[Thread], number: u32) -> Option<&Thread>
    ensures { option_copied result ≡ numbered threads.now number }
{
    match number {
        0 => None,
        _ => threads.get(number as usize - 1),
    }
}

// The state of a number, counted from 1.
pub(crate) fn started_at(states: &[Started], number: u32) -> Option<&Started>
    ensures { option_copied result ≡ numbered states.now number }
{
    match number {
        0 => None,
        _ => states.get(number as usize - 1),
    }
}

// Gives a Thread its state, or the place of its last end.
pub(crate) fn set_thread(
    threads: &mut Vec<Thread>,
    number: u32,
    runs: Option<u32>,
    ended: Option<u32>,
)
    requires made { (1 ≤ number) × (number ≤ length threads.old.items) }
    ensures { threads.new.items ≡ change_thread threads.old.items number runs ended }
{
    let thread = &mut threads[number as usize - 1];
    thread.runs = runs;
    thread.ended = ended;
}

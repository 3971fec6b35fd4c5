//! What an instruction comes to.

use crate::errand::Errand;
use lua_heap::{Native, Value};
use variant::Ask;

// What an instruction, or a function of the library, came to.
#[derive(Debug, Drop)]
pub(crate) enum Status {
    // The next instruction comes.
    Goes,
    // It takes a tick, and none is left.
    NoTick,
    // A function of the library was called, on the arguments that were put together.
    Serves(Native),
    // Results, which were put together as arguments are, go to the frames that wait.
    Gives,
    // An error goes to them.
    Raises(Value),
    // A line is printed, and then nothing is given.
    Prints(Vec<u8>),
    // An ask, and what its reply is for.
    Asks(Ask, Errand),
    // The results are those of the main function.
    Ends,
    // No frame keeps the error.
    Fails(Value),
}

// Where the engine is once results and errors have gone to the frames that wait.
#[derive(Debug, Drop)]
pub(crate) enum Turn {
    Goes,
    Serves(Native),
    Pauses(Pause),
}

// Where a run stands still.
#[derive(Debug, Drop)]
pub(crate) enum Pause {
    // The main function ended. Its results are put together as arguments are.
    Ended,
    // An error ended the run.
    Failed(Value),
    // There was no tick left.
    NoTick,
    // A line is printed.
    Prints(Vec<u8>),
    // A reply is awaited.
    Asks(Ask, Errand),
}

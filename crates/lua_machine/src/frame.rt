//! Calls that wait.

use love_base::ChannelNo;

// What a function of Lua wants of the results of the call that it waits for.
#[derive(Clone, Copy, Debug)]
pub(crate) enum Wants {
    // The first one, in a slot.
    ToSlot(u32),
    // Whether the first one is true, or that it isn't, in a slot.
    TruthTo(u32),
    UntruthTo(u32),
    // All of them.
    ToTail,
    Nothing,
}

// What a function of the library does with the results of what it called.
#[derive(Clone, Copy, Debug)]
pub(crate) enum Duty {
    // `pcall`: they are given, or the error is.
    Tries,
    // `tostring`: the first one is given.
    Converts,
    // `print`: the first one is the next text. All its values are kept, and so many of them have
    // their texts or are their texts; the next one is the value whose text was asked for.
    Prints(usize),
    // `require`: the first one is the module's value. The module's name is kept.
    Requires,
    // `performAtomic`: the section of a Channel ends.
    Guards(ChannelNo),
}

// Who waits.
#[derive(Clone, Copy, Debug)]
pub(crate) enum Role {
    Waits(Wants),
    Serves(Duty),
}

// A call that waits. A function of Lua has its chunk and its number there, where it goes on, and its
// first slot, cell and extra argument; the call that it made is the instruction before. A function
// of the library has the first slot and the first cell that are free, and among the extra arguments
// what it keeps.
#[derive(Clone, Copy, Debug)]
pub(crate) struct Frame {
    pub(crate) chunk: u32,
    pub(crate) func: u32,
    pub(crate) pc: usize,
    pub(crate) base: usize,
    pub(crate) cell_base: usize,
    pub(crate) extra_base: usize,
    pub(crate) role: Role,
}

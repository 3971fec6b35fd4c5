use crate::{Ask, EndKind, Reply};
use love_base::{ChannelNo, Text};

/// What a state did to an object that it shares with other states.
#[derive(Debug, Drop)]
pub enum Deed {
    /// Its code asked this.
    Asked(Ask),
    /// It was begun by a worker.
    Begin,
    /// It left a Channel's section in which it was cut short.
    CutLeave(ChannelNo),
    /// It told state 0 of its failure, with this text.
    Told(Text),
    /// It ended; states other than 0 end so.
    End(EndKind),
    /// State 0 ended, and the game with it.
    MainEnd,
}

/// One thing that a state did to a shared object, and what it was answered.
#[derive(Debug, Drop)]
pub struct Action {
    /// Which of the state's actions it is, from 1.
    pub number: u32,
    /// The object: 0 is the board of names and Threads, 1 to 1,024 are Channels, and 1,025 is the
    /// event queue.
    pub object: u32,
    /// The length of the object's history that the reply was taken from, with the action's own
    /// entry where it has one; always 0 at the event queue.
    pub place: u32,
    /// Whether the action has an entry in the object's history.
    pub changed: bool,
    /// What was done.
    pub deed: Deed,
    /// What it was answered.
    pub reply: Reply,
    /// Two readings of the clock, in milliseconds, where a wait's limit ran out between them; none
    /// otherwise.
    pub readings: Option<(u64, u64)>,
}

/// Where a state was stopped at a wait, since state 0 had ended.
#[derive(Debug, Drop)]
pub struct Stop {
    /// The length of the board's history that was read.
    pub board_place: u32,
    /// The place of state 0's end in it, counted from 1.
    pub main_end: u32,
    /// The object that was waited for.
    pub object: u32,
    /// The length of the object's history at which there was no answer; 0 where `busy` is there.
    pub place: u32,
    /// The seat that had the object, where it was the object's turn that was waited for.
    pub busy: Option<u32>,
    /// What was asked.
    pub ask: Ask,
}

use crate::{Sent, Variant};
use love_base::{ChannelNo, Text};

/// The answer to an [`Ask`](crate::Ask).
#[derive(Debug, Drop)]
pub enum Reply {
    /// It was done.
    Done,
    /// There is nothing to give.
    Nothing,
    /// Yes or no.
    Flag(bool),
    /// The id of the message that was sent, which counts the messages ever sent into its Channel.
    Id(u32),
    /// How many.
    Number(u32),
    /// A message.
    Value(Variant),
    /// A Channel, by its number.
    Channel(ChannelNo),
    /// A Thread, by its number, from 1.
    Thread(u32),
    /// A text.
    Words(Text),
    /// An event.
    Event(Sent),
    /// It was refused, for this cause.
    Refused(Refusal),
}

/// Why an [`Ask`](crate::Ask) was refused. Nothing was changed then.
#[derive(Clone, Copy, Debug, PartialEq, Eq)]
pub enum Refusal {
    /// The Channel's history has 2,000,000 entries or more.
    Full,
    /// It would wait for a Channel in which the asking state itself keeps the others out.
    WouldWaitInside,
    /// 1,024 Channels were made.
    TooManyChannels,
    /// 1,000 Threads were made.
    TooManyThreads,
    /// As many states run as there are workers, which is the number here.
    TooManyRunning(u32),
    /// 1,000 states were started.
    TooManyStarts,
    /// State 0 has ended, at this place of the board's history.
    GameEnded(u32),
}

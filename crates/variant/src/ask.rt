use crate::{Source, Variant};
use love_base::{ChannelNo, List, Text};
use lua_value::Num;

/// What the code of a state asks of the world that it shares with the others: one case for each
/// call of LÖVE that reaches it.
///
/// A limit of a wait is in whole seconds; without one the wait has no end of its own.
#[derive(Debug, Drop)]
pub enum Ask {
    /// To send a message (LÖVE wiki, `Channel:push`).
    Push(ChannelNo, Variant),
    /// To send a message whose receipt will be waited for (LÖVE wiki, `Channel:supply`).
    Supply(ChannelNo, Variant),
    /// To receive the message that has waited longest (LÖVE wiki, `Channel:pop`).
    Pop(ChannelNo),
    /// To see that message (LÖVE wiki, `Channel:peek`).
    Peek(ChannelNo),
    /// How many messages wait (LÖVE wiki, `Channel:getCount`).
    Count(ChannelNo),
    /// Whether the message of this id was received (LÖVE wiki, `Channel:hasRead`).
    HasRead(ChannelNo, Num),
    /// To receive all messages that wait (LÖVE wiki, `Channel:clear`).
    Clear(ChannelNo),
    /// To receive a message, and to wait for one up to this limit (LÖVE wiki, `Channel:demand`).
    Demand(ChannelNo, Option<u32>),
    /// To wait up to this limit for the receipt of the message of this id: the second half of
    /// `Channel:supply`.
    Await(ChannelNo, u32, Option<u32>),
    /// To begin a section that no other state comes into (LÖVE wiki, `Channel:performAtomic`).
    Enter(ChannelNo),
    /// To end such a section.
    Leave(ChannelNo),
    /// The Channel of this name (LÖVE wiki, `love.thread.getChannel`).
    Name(Text),
    /// A Channel without a name (LÖVE wiki, `love.thread.newChannel`).
    NewChannel,
    /// A Thread that will run this (LÖVE wiki, `love.thread.newThread`).
    NewThread(Source),
    /// To start the Thread of this number on these values (LÖVE wiki, `Thread:start`).
    Start(u32, List<Variant>),
    /// Whether the Thread of this number runs (LÖVE wiki, `Thread:isRunning`).
    IsRunning(u32),
    /// The text of that Thread's failure (LÖVE wiki, `Thread:getError`).
    ErrorOf(u32),
    /// To wait until that Thread doesn't run (LÖVE wiki, `Thread:wait`).
    WaitFor(u32),
    /// To send an event of this name with these values (LÖVE wiki, `love.event.push`).
    EventPush(Text, List<Variant>),
    /// The event that has waited longest (LÖVE wiki, `love.event.poll`).
    EventPoll,
}

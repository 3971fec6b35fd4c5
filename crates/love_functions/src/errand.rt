//! What a call comes to, and what a reply is for.

use love_base::ChannelNo;
use lua_heap::Value;
use variant::Ask;

/// What a reply is for.
#[derive(Debug, Drop)]
pub enum Errand {
    /// Its values are the call's.
    GivesValues,
    /// `c:supply(v, seconds)`: the id of the message, for whose receipt at this Channel the caller
    /// waits, up to this limit in seconds.
    Awaits(ChannelNo, Option<u32>),
    /// Whether the message was received; without a limit the call gives true.
    GivesWaited(Option<u32>),
    /// `c:performAtomic(f, ..)`: the function is called with the Channel and these arguments.
    Enters(ChannelNo, Value, Vec<Value>),
    /// An event was sent; the call gives true.
    GivesTrue,
    /// The next event is cleared, or there was none.
    Clears,
}

/// What a call of a function comes to.
#[derive(Debug, Drop)]
pub enum Called {
    /// Its values.
    Gives(Vec<Value>),
    /// An error with this text, behind the place of the call.
    Refuses(Vec<u8>),
    /// An ask, whose reply is for this.
    Asks(Ask, Errand),
}

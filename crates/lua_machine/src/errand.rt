//! What a reply is for.

use love_functions::Errand as Call;
use lua_heap::Value;

// What a reply is for.
#[derive(Debug, Drop)]
pub(crate) enum Errand {
    // A call of a function of LÖVE.
    Answers(Call),
    // The end of a section: the values that came out of it, which were put together as arguments
    // are, are given, or this error is raised.
    ComesOut(Option<Value>),
}

//! What an operator comes to.

use crate::Fault;
use lua_heap::Value;

/// What becomes of the first result of a handler.
#[derive(Clone, Copy, Debug, PartialEq, Eq)]
pub enum Use {
    /// It is the operator's value.
    Plain,
    /// Whether it is true is.
    Truth,
    /// Whether it is false or nil is.
    Untruth,
}

/// What an operator, or reading a field, comes to.
#[derive(Clone, Copy, Debug, PartialEq, Eq)]
pub enum Doing {
    /// It has a value.
    Gives(Value),
    /// A handler is called with two arguments, and so much becomes of its first result.
    Asks {
        handler: Value,
        first: Value,
        second: Value,
        becomes: Use,
    },
    /// An error of the language.
    Fails(Fault),
}

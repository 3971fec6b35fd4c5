//! What the states of a game send one another: messages and events, what a state asks of the world
//! that it shares with the others, the replies, and the log of a state's actions.
#![tactic(auto)]

mod action;
mod ask;
mod end_kind;
mod event;
mod fitting;
mod message;
mod reply;
mod source;
mod state_log;

pub use action::{Action, Deed, Stop};
pub use ask::Ask;
pub use end_kind::EndKind;
pub use event::{Event, Sent};
pub use fitting::fits;
pub use message::{Variant, copy_all};
pub use reply::{Refusal, Reply};
pub use source::Source;
pub use state_log::StateLog;

#[cfg(test)]
mod tests;

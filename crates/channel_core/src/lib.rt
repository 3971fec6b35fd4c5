//! The Channel of one thread: a queue of messages, and the history of what was done to it.
//!
//! `docs/CHANNEL.md` says in words what a Channel is.
#![tactic(auto)]

mod channel;
mod entry;
mod fault;

pub use channel::Channel;
pub use entry::{Change, Entry};
pub use fault::PutFault;

#[cfg(test)]
mod tests;

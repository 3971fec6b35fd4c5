//! The board of one thread: the names of Channels, the Threads, the states that were started, and
//! the history of what was done to them.
//!
//! `docs/BOARD.md` says in words what a board is.
#![tactic(auto)]

mod board;
mod entry;
mod fault;
mod job;
mod making;
mod place;
mod states;

pub use board::Board;
pub use entry::{BoardChange, BoardEntry};
pub use fault::BoardFault;
pub use job::Job;
pub use making::Named;

#[cfg(test)]
mod tests;

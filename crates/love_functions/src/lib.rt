//! The functions of LÖVE that ask what all states share, or look into the game's folder (LÖVE wiki,
//! `love.thread`, `Channel`, `Thread`, `love.filesystem`, `love.event`): what each asks, and what a
//! reply gives.
#![tactic(auto)]

mod arguments;
mod calling;
mod channels;
mod errand;
mod events;
mod files;
pub mod laws;
mod refusing;
mod replies;
#[cfg(test)]
mod tests;
mod threads;

pub use calling::call;
pub use errand::{Called, Errand};
pub use replies::given;

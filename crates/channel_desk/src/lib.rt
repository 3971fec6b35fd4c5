//! Channels behind a desk: the deeds of one Lua state at the Channels that it shares with others.
//!
//! `docs/HELD_CHANNELS.md` says what a held Channel is, what a look is, and when a state is
//! stopped.
#![tactic(auto)]

mod acting;
mod awaiting;
mod board_deeds;
mod board_given;
mod boarding;
mod deeds;
mod demanding;
mod fault;
mod finishing;
mod given;
mod held;
mod leaving;
mod looking;
mod nesting;
mod pacing;
mod sections;
mod shared;
mod stamps;
mod thread_end;
mod turns;
mod unanswered;
mod watching;

pub use board_deeds::answer_on_board;
pub use deeds::answer_ask;
pub use fault::ActFault;
pub use given::Given;
pub use sections::{HeldStack, Section, Sections};
pub use shared::{Shared, SharedEntry};

/// The right to take turns at one desk of shared objects.
pub type Pass = turn_desk::Pass<Shared>;

#[cfg(test)]
mod tests;

//! Turns of shared objects: any number of threads take objects in turn, change them alone, publish
//! what they changed in one step and give them back.
//!
//! A [`Desk`] keeps for each object a turn word, a tally word and a slot of an `atomic_table`, and
//! a thread steps with a [`Pass`] of its own. Whenever an object's turn word is 0, the object in
//! its slot is the replay of its published history.
#![tactic(auto)]

mod bell;
mod closing;
mod desk;
mod fronts;
mod held;
mod kept;
pub mod laws;
mod logged;
mod looking;
mod opening;
mod pass;
mod plays;
#[cfg(test)]
mod tests;
mod view;

pub use bell::Bell;
pub use desk::Desk;
pub use fronts::Fronts;
pub use held::{Busy, Held};
pub use logged::Logged;
pub use looking::Tally;
pub use pass::Pass;

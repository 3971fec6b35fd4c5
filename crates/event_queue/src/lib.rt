//! The queue of events: up to 17 threads send events, and one of them polls them.
//!
//! A thread sends through an [`EventPass`] of its own. Through pass 1, which polls too, an event is
//! kept in the pass; all others go through the kit's ruled queue, which takes no lock.
#![tactic(auto)]

mod closing;
mod event_pass;
mod event_queue;
pub mod laws;
mod opening;
mod steps;
#[cfg(test)]
mod tests;
mod view;

pub use event_pass::EventPass;
pub use event_queue::EventQueue;

//! One state of a game: its programs, and its run.
#![tactic(auto)]

mod alone;
mod answer;
mod at_board;
mod at_channel;
mod at_events;
mod building;
mod cutting;
mod ending;
mod fault_text;
mod objects;
mod playing;
mod record;
#[cfg(test)]
mod tests;

pub use alone::{Alone, run_alone};
pub use building::build;
pub use record::StateRecord;

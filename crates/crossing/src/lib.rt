//! Values of a state as messages, and messages as values of a state.
#![tactic(auto)]

mod fault;
pub mod laws;
mod packing;
mod pairs;
mod unpacking;

pub use fault::{PackFault, SentType};
pub use packing::{pack, pack_all};
pub use unpacking::{unpack, unpack_all};

//! Tables of Lua: places in the order in which their keys first got a value, and the least border.
#![tactic(auto)]

mod border;
mod gaps;
mod key_hasher;
mod keys;
mod places;
mod position;
mod table;
#[cfg(test)]
mod tests;

pub use position::Position;
pub use table::{NoSuchKey, Table};

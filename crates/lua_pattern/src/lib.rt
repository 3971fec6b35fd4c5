//! Patterns of Lua (Lua 5.1 manual §5.4.1): reading one, and finding what it matches.
#![tactic(auto)]

mod class;
mod element;
mod fault;
mod found;
mod item;
mod mark;
mod matcher;
mod pattern;
mod reader;
mod replacement;
mod set;
mod start;
mod walk;

pub use fault::PatternFault;
pub use found::{Capture, Match};
pub use pattern::Pattern;
pub use replacement::ReplaceFault;
pub use walk::Walk;

#[cfg(test)]
mod tests;

//! Functions of Lua's library (Lua 5.1 manual §5): over numbers and bytes, and over the arguments of
//! a call.
#![tactic(auto)]

pub mod basic;
mod blanks;
pub mod call;
mod fault;
pub mod format;
pub mod laws;
pub mod math;
mod signed;
pub mod strings;

pub use fault::Fault;

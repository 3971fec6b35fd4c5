//! Code of Lua: what code a tree has, and what a machine does with it.
#![tactic(auto)]

mod check;
mod code;
mod constant;
mod instr;
pub mod laws;
mod program;
mod proto;
pub mod rows;
#[cfg(test)]
mod tests;

pub use code::Code;
pub use constant::Constant;
pub use instr::{Instr, Site};
pub use program::{File, FileCode, Program};
pub use proto::Proto;

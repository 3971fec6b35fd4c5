//! Which names the functions of a program use from outside, and the first function that uses too
//! many locals of the functions around it (Lua 5.1 manual §2.6).
//!
//! [`Names`] are gathered from the end of a block to its front, so that a local leaves out its own
//! name from those behind it. [`check_upvalues`] walks a block once, in the order of the source.
#![tactic(auto)]

mod blocks;
mod expressions;
mod fault;
mod locals;
mod name_list;
mod stat_walk;
mod statements;
mod walk;

pub use blocks::block_names;
pub use expressions::{expr_names, func_names};
pub use fault::UpvalueFault;
pub use name_list::{Names, is_among};
pub use statements::stat_names;
pub use walk::check_upvalues;

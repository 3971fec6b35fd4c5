//! Writing the code of functions, from their end on.
//!
//! A [`Writer`] has the functions that are made already and the instructions of the running one; each
//! call here puts instructions in front of those that are there. So a jump on knows how much it jumps
//! over when it is put down. A [`Scope`] says where the locals stand (Lua 5.1 manual §2.6).
//!
//! Each call that puts something down may return [`love_base::Memory`]. The writer may then have a
//! part of it, and is of no more use.
#![tactic(auto)]

pub mod calls;
pub mod control;
mod draft;
pub mod fields;
pub mod items;
pub mod jumps;
pub mod lists;
pub mod moves;
pub mod operands;
pub mod operators;
mod place;
mod scope;
pub mod values;
mod writer;

pub use draft::Draft;
pub use scope::{Entry, Scope, Seat};
pub use writer::Writer;

//! What a program of Lua means: definitions, with laws and rows on them.
#![tactic(auto)]

pub mod laws;
pub mod rows;

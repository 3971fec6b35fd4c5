//! The machine that runs code of Lua.
#![tactic(auto)]

mod arguments;
mod ask_copy;
mod asking;
mod back;
mod basics;
mod calls;
mod cells;
mod chunk;
mod closures;
mod delivering;
mod each;
mod ending;
mod engine;
mod entering;
mod errand;
mod errors;
mod extras;
mod fields;
mod frame;
mod handling;
mod invoke;
mod items;
mod jumps;
mod loading;
mod loops;
mod machine;
mod module;
mod moves;
mod numbers;
mod operators;
mod own;
mod printing;
mod refusing;
mod registers;
mod requiring;
mod results;
mod serving;
mod session;
mod setting;
mod standing;
mod starting;
mod status;
mod steps;
mod tables;
#[cfg(test)]
mod tests;
mod texts;

pub use machine::{Machine, Step};

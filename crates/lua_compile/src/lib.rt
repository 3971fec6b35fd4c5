//! The compiler: the code of a syntax tree.
#![tactic(auto)]

mod assignments;
mod blocks;
mod branches;
mod captures;
mod chunk;
mod expressions;
mod fault;
mod functions;
mod locals;
mod loops;
mod statements;
mod tables;

pub use chunk::compile;
pub use fault::CompileFault;

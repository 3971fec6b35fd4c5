//! The syntax tree of a source, by the grammar of Lua 5.1 (manual §2.2 to §2.5 and §8).
#![tactic(auto)]

mod assignments;
mod conditions;
mod expressions;
mod fault;
mod functions;
pub mod laws;
mod loops;
mod operators;
mod parser;
mod scope;
mod source;
mod statements;
mod stop;
mod suffixes;
mod tables;
mod tree;

pub use fault::ParseFault;
pub use parser::parse;
pub use tree::{Arm, BinOp, Block, Chunk, Expr, ExprKind, Field, Func, Stat, StatKind, UnOp};

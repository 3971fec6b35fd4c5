//! The tokens of a source (Lua 5.1 manual §2.1): the one list that it is cut into, or its first
//! fault.
//!
//! [`tokens`] cuts a source, and [`string_value`] gives the bytes of a string's token. Contracts
//! see a source as the list of its bytes and speak of what stands at each place of it; that there
//! is one answer for each source, and one value for each string, and that a token is the longest
//! spelling at its place, are laws: [`laws::some_answer`], [`laws::one_list`],
//! [`laws::one_fault`], [`laws::list_or_fault`], [`laws::some_value`], [`laws::one_value`],
//! [`laws::longest`] and [`laws::whole_run`].
#![tactic(auto)]

mod bytes;
mod fault;
mod kind;
pub mod laws;
mod lexer;
mod long;
mod number;
mod quoted;
mod spelled;
mod start;
mod step;
mod token;
mod value;

pub use fault::{LexFault, LexWhat};
pub use kind::Kind;
pub use lexer::tokens;
pub use token::Token;
pub use value::string_value;

#[cfg(test)]
mod tests;

//! What operators and fields come to on the values of a heap (Lua 5.1 manual §2.5, §2.8).
//!
//! Each answer is a [`Doing`]: a value, a handler that is asked, or a fault. [`unary`] and
//! [`binary`] take the operators of the syntax tree, [`field`] reads a field; [`Events`] has the
//! names by which handlers are found. None of these calls runs a handler: that is a call, for
//! whoever runs the program.
#![tactic(auto)]

mod arithmetic;
mod asking;
mod comparison;
mod concatenation;
mod doing;
mod equality;
mod events;
mod fault;
mod fields;
mod numbers;
mod operators;
mod sizes;
mod texts;
mod type_name;

pub use arithmetic::{Arithmetic, calculate, negative};
pub use comparison::{less, up_to};
pub use concatenation::concatenate;
pub use doing::{Doing, Use};
pub use equality::{equal, unequal};
pub use events::{Event, Events};
pub use fault::Fault;
pub use fields::field;
pub use operators::{binary, is_true, unary};
pub use sizes::size;
pub use type_name::TypeName;

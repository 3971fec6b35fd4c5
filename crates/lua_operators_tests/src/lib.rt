//! Tests of `lua_operators`: rows of operators and fields, with and without handlers. They stand apart from it since a
//! crate with tests is proved twice.
#![tactic(auto)]

#[cfg(test)]
mod asked;
#[cfg(test)]
mod handlers;
#[cfg(test)]
mod rows;

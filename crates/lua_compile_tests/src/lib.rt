//! Tests of `lua_compile` and `lua_upvalues`: sources with the instructions of their code, the names that their functions
//! use, and the limit of upvalues. They stand apart since a crate with tests is proved twice.
#![tactic(auto)]

#[cfg(test)]
mod codes;
#[cfg(test)]
mod upvalues;

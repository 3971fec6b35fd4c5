//! Tests of `lua_tree`: sources with their trees and lines, their faults, and the limits. They stand apart from it
//! since a crate with tests is proved twice, and its proof is the dearest here.
#![tactic(auto)]

#[cfg(test)]
mod faults;
#[cfg(test)]
mod limits;
#[cfg(test)]
mod shown;
#[cfg(test)]
mod trees;

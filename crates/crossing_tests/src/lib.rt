//! Tests of `crossing`: what values come to as messages, and messages as values. A message is written as a text, so that
//! each test is a table of rows. They stand apart from it since a crate with tests is proved twice.
#![tactic(auto)]

#[cfg(test)]
mod building;
#[cfg(test)]
mod packing;
#[cfg(test)]
mod shown;
#[cfg(test)]
mod unpacking;

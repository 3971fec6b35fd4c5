//! Tests of `lua_lib`: values of lua5.1 where this project has them too, and those worked out by hand. They stand apart
//! from it since a crate with tests is proved twice.
#![tactic(auto)]

#[cfg(test)]
mod calls;
#[cfg(test)]
mod errors;
#[cfg(test)]
mod formats;
#[cfg(test)]
mod natives;
#[cfg(test)]
mod numbers;
#[cfg(test)]
mod sorts;
#[cfg(test)]
mod texts;

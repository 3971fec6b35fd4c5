//! Tests of `love_base`: what no contract says, that each call succeeds where there is memory, and what the adapters do
//! over real files and standard output. They stand apart from it since a crate with tests is proved twice.
#![tactic(auto)]

#[cfg(test)]
mod channel_numbers;
#[cfg(test)]
mod data;
#[cfg(test)]
mod lists;
#[cfg(test)]
mod memory_folders;
#[cfg(test)]
mod memory_sinks;
#[cfg(test)]
mod outputs;
#[cfg(test)]
mod pacers;
#[cfg(test)]
mod real_files;
#[cfg(test)]
mod texts;

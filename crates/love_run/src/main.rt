//! `love_run FOLDER [--frames N] [--steps N] [--workers N]`: runs the game in a folder, and prints
//! what it prints.
//!
//! [`love`] does all of it; `main` takes the words, makes the real folder and output, calls it,
//! says what its status means and ends with it.
#![tactic(auto)]

mod command;
mod command_option;
mod ending;
mod files;
mod load;
mod load_fault;
mod love;
mod names;
mod rendering;
mod report;
mod said;
#[cfg(test)]
mod tests;
mod words;
mod writer;

pub use ending::Ending;
pub use love::love;
use love_base::{RealFolder, RealSink};
pub use report::Report;
use std::process::ExitCode;

fn main(rt: HostRuntime) -> ExitCode {
    let status = match words::of_program(&rt) {
        Ok(words) => {
            let mut folder = RealFolder::new(rt);
            let mut sink = RealSink::new(rt);
            love(rt.alloc(), words.as_slice(), &mut folder, &mut sink).status
        }
        Err(fault) => fault.ending().code(),
    };
    if let Some(message) = ending::message_of(status) {
        // Where standard error can't be written either, the status alone says it.
        let _ = eprintln!(rt; "love_run: {message}");
    }
    ExitCode::from(status)
}

use crate::Variant;
use love_base::{List, Text};

/// An event of the queue that state 0 polls (LÖVE wiki, `love.event`).
#[derive(Debug, Drop)]
pub enum Event {
    /// One that a state pushed (LÖVE wiki, `love.event.push`).
    User {
        /// The event's name.
        name: Text,
        /// The values that its handler is called with.
        args: List<Variant>,
    },
    /// That a state of a Thread failed (LÖVE wiki, `love.threaderror`).
    ThreadError {
        /// The Thread's number.
        thread: u32,
        /// The text of the error.
        text: Text,
    },
}

/// An event, and which action of which state sent it.
#[derive(Debug, Drop)]
pub struct Sent {
    /// The state that sent it.
    pub from: u32,
    /// The number of the sending action among that state's actions.
    pub number: u32,
    /// What was sent.
    pub event: Event,
}

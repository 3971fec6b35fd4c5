use love_base::{List, Text};
use variant::{EndKind, Source, StateLog, Stop, Variant};

/// All that a state did: its actions at the objects that it shares with others, what it printed, and
/// how it ended.
#[derive(Debug, Drop)]
pub struct StateRecord {
    /// The state's number; that of `main.lua` is 0.
    pub state: u32,
    /// The number of the Thread that it ran for; 0 for state 0.
    pub thread: u32,
    /// What it ran.
    pub source: Source,
    /// The values that it began with.
    pub args: List<Variant>,
    /// Its actions, in order.
    pub trace: StateLog,
    /// What it printed.
    pub out: Text,
    /// How it ended.
    pub end: EndKind,
    /// Where it was stopped at a wait, if it was.
    pub stop: Option<Stop>,
    /// Whether it told state 0 of its failure.
    pub told: bool,
}

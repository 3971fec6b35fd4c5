use love_base::List;
use variant::{Source, Variant};

/// A state that was started and is to be run: what a worker takes.
#[derive(Debug, Drop)]
pub struct Job {
    /// The state's number, from 1.
    pub state: u32,
    /// The number of its Thread.
    pub thread: u32,
    /// What it runs.
    pub source: Source,
    /// The values that it begins with.
    pub args: List<Variant>,
}

use love_base::List;

/// What a capture of a match holds. Places are offsets in bytes, from 0 on.
#[derive(Clone, Copy, Debug, PartialEq, Eq)]
pub enum Capture {
    /// The bytes from one place up to another.
    Part(usize, usize),
    /// A place.
    Place(usize),
}

/// What a pattern matched. Places are offsets in bytes, from 0 on.
#[derive(Debug, Drop)]
pub struct Match {
    /// Where it begins.
    pub start: usize,
    /// Where it ends.
    pub end: usize,
    /// Its captures, in the order in which they begin.
    pub captures: List<Capture>,
}

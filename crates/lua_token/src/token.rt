use crate::Kind;

/// A token of a source: what it is, and where it stands.
#[derive(Clone, Copy, Debug, PartialEq, Eq)]
pub struct Token {
    /// Which token it is.
    pub kind: Kind,
    /// How many bytes stand before it.
    pub start: u32,
    /// How many bytes it has.
    pub length: u32,
    /// The line of its first byte, from 1 on.
    pub line: u32,
}

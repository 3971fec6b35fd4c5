use crate::class::Class;

/// How often a class stands, and which ways come first.
#[derive(Clone, Copy, Debug, PartialEq, Eq)]
pub enum Repeat {
    /// Once.
    Once,
    /// `*`: any number of times, the most first.
    Star,
    /// `+`: at least once, the most first.
    Plus,
    /// `-`: any number of times, the fewest first.
    Minus,
    /// `?`: once, or else not at all.
    Question,
}

/// An item of a pattern.
#[derive(Debug, Drop)]
pub enum Item {
    /// A class of bytes, so often.
    Single(Class, Repeat),
    /// `(`: a capture begins.
    Open,
    /// `)`: the capture that was opened last ends.
    Close,
    /// `()`: a capture of the place.
    Position,
    /// `%1` to `%9`: the bytes of that capture once more.
    Back(u8),
    /// `%bxy`: from one byte up to the other that balances it.
    Balance(u8, u8),
    /// `$` at the end of a pattern: the end of the text.
    End,
}

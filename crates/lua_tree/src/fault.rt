use lua_token::LexFault;

/// What is wrong with a source: its first fault.
#[derive(Clone, Copy, Debug, PartialEq, Eq)]
pub enum ParseFault {
    /// The source is not cut into tokens. It comes before all others, and never for want of memory.
    Lex(LexFault),
    /// No chunk goes on at this token, or at the source's end.
    Unexpected {
        /// Its line.
        line: u32,
        /// How many bytes stand before it: all those of the source at its end.
        place: u32,
    },
    /// A `break` that no loop of its function is around (Lua 5.1 manual §2.4.4).
    BreakOutside {
        /// Its line.
        line: u32,
    },
    /// `...` in a function that has none (Lua 5.1 manual §2.5.9).
    VarargOutside {
        /// Its line.
        line: u32,
    },
    /// Blocks and expressions nest over 200 deep from this token on.
    TooDeep {
        /// Its line.
        line: u32,
    },
    /// Over 200 locals of one function are in scope from this name on.
    TooManyLocals {
        /// Its line.
        line: u32,
    },
    /// A `(` that would open arguments, on a later line than the token before it (Lua 5.1 manual
    /// §2.5.8).
    AmbiguousCall {
        /// Its line.
        line: u32,
    },
    /// Want of memory.
    Memory,
}

use love_base::Memory;

/// What is wrong with a source.
#[derive(Clone, Copy, Debug, PartialEq, Eq)]
pub enum LexWhat {
    /// A byte begins no token.
    BadByte = 1,
    /// A quoted string meets the end of its line or of the source.
    OpenString = 2,
    /// A long string or a long comment meets the end of the source.
    OpenLong = 3,
    /// A decimal escape is over 255.
    BadEscape = 4,
    /// A number's run is no numeral.
    BadNumber = 5,
    /// A numeral's exact value is no [`Num`](lua_value::Num).
    NotWhole = 6,
    /// The source has over 16,777,216 bytes.
    TooLong = 7,
    /// Want of memory.
    Memory,
}

/// The first fault of a source.
#[derive(Clone, Copy, Debug, PartialEq, Eq)]
pub struct LexFault {
    /// The line on which the faulty token or comment begins, from 1 on; 0 for want of memory.
    pub line: u32,
    /// What is wrong.
    pub what: LexWhat,
}

impl From<Memory> for LexFault {
    ghost use Rattle.std.specs.Prelude.{◌≡◌};
    ghost use Rattle.lua_token.specs.declared.fault.LexWhat.TheVariants as what;

    ghost from_gives = { λ _ fault. fault ≡ record { line = 0; what = what.Memory } };

    fn from(_want: Memory) -> LexFault {
        LexFault {
            line: 0,
            what: LexWhat::Memory,
        }
    }
}

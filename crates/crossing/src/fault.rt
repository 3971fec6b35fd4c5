ghost use Rattle.std.specs.Prelude.{◌≡◌};
ghost use Rattle.crossing.specs.declared.fault.PackFault.{PackFault};
ghost use Rattle.crossing.specs.declared.fault.PackFault.TheVariants.{Memory};
ghost use Rattle.crossing.specs.Fault.{type_bytes};

use love_base::Memory as WantOfMemory;
use std::alloc::{AllocError, AllocFailed};

/// The type of a value, as the text of a refusal names it: what `type` gives (Lua 5.1 manual §5.1),
/// but for a Thread.
#[derive(Clone, Copy, Debug, PartialEq, Eq)]
pub enum SentType {
    /// `nil`
    Nil,
    /// `boolean`
    Boolean,
    /// `number`
    Number,
    /// `string`
    String,
    /// `table`
    Table,
    /// `function`
    Function,
    /// `userdata`: a Channel or Data.
    Userdata,
    /// `Thread`
    Thread,
}

impl SentType {
    /// The type's name.
    pub fn name(self) -> &'static [u8]
        ensures { result.now ≡ type_bytes self }
    {
        match self {
            SentType::Nil => b"nil",
            SentType::Boolean => b"boolean",
            SentType::Number => b"number",
            SentType::String => b"string",
            SentType::Table => b"table",
            SentType::Function => b"function",
            SentType::Userdata => b"userdata",
            SentType::Thread => b"Thread",
        }
    }
}

/// Why a value is no message. A table is tested for [`PackFault::Cycle`], then for
/// [`PackFault::Depth`], then its pairs in the order of `next`, each by its key and then its value;
/// the first fault counts.
#[derive(Clone, Copy, Debug, PartialEq, Eq)]
pub enum PackFault {
    /// A function or a Thread.
    Kind(SentType),
    /// A table inside itself.
    Cycle,
    /// A key that isn't a boolean, a number or a string.
    Key(SentType),
    /// Tables nested over 128 deep.
    Depth,
    /// Want of memory.
    Memory,
}

impl From<WantOfMemory> for PackFault {
    ghost from_gives = { λ e fault. fault ≡ Memory };

    fn from(_refused: WantOfMemory) -> PackFault {
        PackFault::Memory
    }
}

impl From<AllocError> for PackFault {
    ghost from_gives = { λ e fault. fault ≡ Memory };

    fn from(_refused: AllocError) -> PackFault {
        PackFault::Memory
    }
}

impl<T: Drop> From<AllocFailed<T>> for PackFault {
    ghost from_gives = { λ e fault. fault ≡ Memory };

    fn from(_refused: AllocFailed<T>) -> PackFault {
        PackFault::Memory
    }
}

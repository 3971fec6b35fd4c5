ghost use Rattle.std.specs.Prelude.{◌≡◌};
ghost use Rattle.lua_value.specs.declared.arithmetic.NumFault.{NumFault};
ghost use Rattle.lua_lib.specs.declared.fault.Fault.{Fault};
ghost use Rattle.lua_lib.specs.declared.fault.Fault.TheVariants.{Memory};
ghost use Rattle.lua_lib.specs.FromNumbers.{of_numbers};

use love_base::Memory as WantOfMemory;
use lua_value::NumFault;
use std::alloc::{AllocError, AllocFailed};

/// Why a function of the library gives no values.
#[derive(Clone, Copy, Debug, PartialEq, Eq)]
pub enum Fault {
    /// `select` asks for an argument that isn't there.
    IndexOutOfRange,
    /// A base that isn't from 2 to 36.
    BaseOutOfRange,
    /// An argument, counted from 0, that isn't from 0 to 255.
    NoByte(usize),
    /// An argument, counted from 0, that is negative.
    Negative(usize),
    /// The result isn't whole.
    NotWhole,
    /// The result is whole and outside the range of numbers.
    OutOfRange,
    /// A string of over 16,777,216 bytes.
    StringTooLong,
    /// Over 1,000,000 values at once.
    TooManyValues,
    /// A text with a byte that means something in a pattern.
    PatternsNotAvailable,
    /// An item that `string.format` doesn't have.
    InvalidFormat,
    /// `next` goes on behind a key that was never set.
    NoSuchKey,
    /// nil as the key of a value.
    KeyIsNil,
    /// `assert` of nil or false, without a message.
    AssertionFailed,
    /// A metatable that is neither a table nor nil.
    NoMetatable,
    /// A metatable with a field `__metatable` is to be changed.
    Protected,
    /// A position below 1 at which a table is to get an item.
    PositionOutOfBounds,
    /// Values to be sorted that are neither all numbers nor all strings.
    NoOrder,
    /// `table.sort` with a function.
    TakesNoFunction,
    /// An argument, counted from 0, that is an offset or a size and doesn't lie within.
    OutOfBounds(usize),
    /// An argument, counted from 0, that isn't a number of seconds from 0 to 1,000,000.
    NotSeconds(usize),
    /// An argument, counted from 0, that isn't an exit status from 0 to 63.
    NoStatus(usize),
    /// Want of memory.
    Memory,
}

impl From<NumFault> for Fault {
    ghost from_gives = { λ e fault. fault ≡ of_numbers e };

    fn from(fault: NumFault) -> Fault {
        match fault {
            NumFault::NotWhole => Fault::NotWhole,
            NumFault::OutOfRange => Fault::OutOfRange,
        }
    }
}

impl From<WantOfMemory> for Fault {
    ghost from_gives = { λ _ fault. fault ≡ Memory };

    fn from(_refused: WantOfMemory) -> Fault {
        Fault::Memory
    }
}

impl From<AllocError> for Fault {
    ghost from_gives = { λ _ fault. fault ≡ Memory };

    fn from(_refused: AllocError) -> Fault {
        Fault::Memory
    }
}

impl<T: Drop> From<AllocFailed<T>> for Fault {
    ghost from_gives = { λ _ fault. fault ≡ Memory };

    fn from(_refused: AllocFailed<T>) -> Fault {
        Fault::Memory
    }
}

//! Why a function of the library gives no values.

ghost use Rattle.std.specs.Prelude.{◌≡◌};
ghost use Rattle.lua_lib.specs.declared.fault.Fault.TheVariants.{Memory as WantOfMemory};
ghost use Rattle.lua_lib.specs.declared.call.cause.Cause.{Cause};
ghost use Rattle.lua_lib.specs.declared.call.cause.Cause.TheVariants.{By};
ghost use Rattle.lua_lib.specs.Causes.{expected_text};

use crate::Fault;
use love_base::Memory;
use lua_heap::Value;
use lua_value::Num;
use std::alloc::{AllocError, AllocFailed};

/// What is wanted of an argument.
#[derive(Clone, Copy, Debug, PartialEq, Eq)]
pub enum Expected {
    Number,
    Text,
    Table,
    Data,
    FileData,
    Object,
    Channel,
    Thread,
    Function,
}

impl Expected {
    /// Its name in errors.
    pub fn text(self) -> &'static [u8]
        ensures { result.now ≡ expected_text self }
    {
        match self {
            Expected::Number => b"number",
            Expected::Text => b"string",
            Expected::Table => b"table",
            Expected::Data => b"Data",
            Expected::FileData => b"FileData",
            Expected::Object => b"Object",
            Expected::Channel => b"Channel",
            Expected::Thread => b"Thread",
            Expected::Function => b"function",
        }
    }
}

/// Why a function gives no values.
#[derive(Clone, Copy, Debug, PartialEq, Eq)]
pub enum Cause {
    /// An argument, counted from 0, that isn't what is wanted.
    Wants(usize, Expected, Value),
    /// A fault of the function itself.
    By(Fault),
    /// A table's value at a number, which `table.concat` can't take as a text.
    NoText(Num, Value),
    /// A value that a program gave as the error.
    Raises(Value),
}

/// Why a call gives no values.
#[derive(Clone, Copy, Debug, PartialEq, Eq)]
pub enum LibFault {
    /// The function fails.
    Fails(Cause),
    /// The function is one of the machine.
    Elsewhere,
}

impl From<Fault> for Cause {
    ghost from_gives = { λ fault cause. cause ≡ By fault };

    fn from(fault: Fault) -> Cause {
        Cause::By(fault)
    }
}

impl From<Memory> for Cause {
    ghost from_gives = { λ _ cause. cause ≡ By WantOfMemory };

    fn from(_refused: Memory) -> Cause {
        Cause::By(Fault::Memory)
    }
}

impl From<AllocError> for Cause {
    ghost from_gives = { λ _ cause. cause ≡ By WantOfMemory };

    fn from(_refused: AllocError) -> Cause {
        Cause::By(Fault::Memory)
    }
}

impl<T: Drop> From<AllocFailed<T>> for Cause {
    ghost from_gives = { λ _ cause. cause ≡ By WantOfMemory };

    fn from(_refused: AllocFailed<T>) -> Cause {
        Cause::By(Fault::Memory)
    }
}

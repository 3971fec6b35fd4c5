ghost use Rattle.std.specs.Prelude.{◌≡◌};
ghost use Rattle.lua_compile.specs.declared.fault.CompileFault.TheVariants.{Memory as OutOfMemory};
ghost use Rattle.lua_compile.specs.Fault.{from_upvalues};

use love_base::Memory;
use lua_upvalues::UpvalueFault;

/// Why a chunk has no code.
#[derive(Clone, Copy, Debug, PartialEq, Eq)]
pub enum CompileFault {
    /// A function uses over 255 locals of the functions around it, where those that a function
    /// inside it uses count too. It is the first such function in the source.
    TooManyUpvalues {
        /// The line of its `function`.
        line: u32,
    },
    /// The code that was made isn't in order.
    NotInOrder,
    /// Want of memory.
    Memory,
}

impl From<Memory> for CompileFault {
    ghost from_gives = { λ _ fault. fault ≡ OutOfMemory };

    fn from(_refused: Memory) -> CompileFault {
        CompileFault::Memory
    }
}

impl From<UpvalueFault> for CompileFault {
    ghost from_gives = { λ found fault. fault ≡ from_upvalues found };

    fn from(found: UpvalueFault) -> CompileFault {
        match found {
            UpvalueFault::TooMany { line } => CompileFault::TooManyUpvalues { line },
            UpvalueFault::Memory => CompileFault::Memory,
        }
    }
}

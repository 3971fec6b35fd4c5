ghost use Rattle.std.specs.Prelude.{◌≡◌};
ghost use Rattle.lua_upvalues.specs.declared.fault.UpvalueFault.TheVariants.{Memory as OutOfMemory};

use love_base::Memory;

/// Why a check of a block didn't come to its end.
#[derive(Clone, Copy, Debug, PartialEq, Eq)]
pub enum UpvalueFault {
    /// A function uses over 255 locals of the functions around it, where those that a function
    /// inside it uses count too. It is the first such function in the source.
    TooMany {
        /// The line of its `function`.
        line: u32,
    },
    /// Want of memory.
    Memory,
}

impl From<Memory> for UpvalueFault {
    ghost from_gives = { λ _ fault. fault ≡ OutOfMemory };

    fn from(_refused: Memory) -> UpvalueFault {
        UpvalueFault::Memory
    }
}

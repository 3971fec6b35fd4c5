ghost use Rattle.std.specs.Prelude.{◌≡◌};
ghost use Rattle.std.specs.Option.{option_copied};

use love_base::Text;
use lua_value::Num;

/// How a state ended.
#[derive(Debug, Drop)]
pub enum EndKind {
    /// Its code ran to its end. The number is the first value that it returned, where that is one.
    Done(Option<Num>),
    /// An error that nothing caught, with its text.
    Error(Text),
    /// It used up the ticks that it was given.
    OutOfSteps,
    /// It was stopped at a wait, since state 0 had ended.
    Stopped,
    /// Want of memory.
    Memory,
}

impl EndKind {
    ghost use Rattle.variant.specs.End.{end_text};

    /// The text that tells of a failure (LÖVE wiki, `Thread:getError`): that of the error,
    /// `out of steps` or `out of memory`; `None` exactly at [`EndKind::Done`] and
    /// [`EndKind::Stopped`]. It takes no memory.
    pub fn text(&self) -> Option<&[u8]>
        ensures { option_copied result ≡ end_text self.now }
    {
        match self {
            EndKind::Done(_) | EndKind::Stopped => None,
            EndKind::Error(text) => Some(text.bytes()),
            EndKind::OutOfSteps => Some(b"out of steps"),
            EndKind::Memory => Some(b"out of memory"),
        }
    }
}

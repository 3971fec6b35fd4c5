ghost use Rattle.std.specs.Prelude.{◌≡◌};

use crate::logged::Logged;

/// An object in the keeping of one pass, from the take until it is released. One that is dropped
/// instead is lost: its turn never comes free again, and the desk can't be closed.
#[derive(Drop)]
pub struct Held<O: Logged> {
    /// Which of the desk's objects it is, counted from 0.
    pub object: u32,
    /// The object.
    pub value: O,
}

impl<O: Logged> Held<O> {
    ghost use Rattle.std.specs.Borrow.{sem};
    ghost use Rattle.turn_desk.specs.Lending.{LendsValue};

    /// Which of the desk's objects it is, counted from 0.
    pub fn object(&self) -> u32
        ensures { result ≡ self.now.object }
    {
        self.object
    }

    /// The object.
    pub fn value(&self) -> &O
        ensures { result.now ≡ self.now.value }
    {
        &self.value
    }

    /// The object, to be changed.
    pub fn value_mut(&mut self) -> &mut O
        ensures* writes_back { sem 𝓛 (LendsValue O.row O.Entry.row self.entry result) }
        ensures value { result.now ≡ self.old.value }
    {
        &mut self.value
    }
}

/// Another pass had the object when it was asked for.
#[derive(Clone, Copy, Debug, PartialEq, Eq)]
pub struct Busy {
    /// The number of the pass that the turn word had, from 1 to the number of passes.
    pub seat: u32,
}

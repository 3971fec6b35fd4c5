//! Laws of the definitions, each the contract of a function that does nothing.

ghost use Rattle.crossing.specs.Laws.{PacksAgain};

/// What a message that a state packed comes to in any state packs to the same message, where no
/// table of the sending state has a key twice or nil as a value.
pub fn packs_again()
    ensures { PacksAgain }
{}

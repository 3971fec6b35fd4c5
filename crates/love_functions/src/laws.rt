//! Laws of the definitions, each the contract of a function that does nothing.

ghost use Rattle.love_functions.specs.Serves.{AllServe, AllGive};

/// What these functions come to is what the library of `lua_code`'s machine does.
pub fn serves()
    ensures { AllServe }
{}

/// What a reply gives is what that machine gives for it.
pub fn gives()
    ensures { AllGive }
{}

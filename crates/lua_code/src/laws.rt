//! Laws of the definitions, each the contract of a function that does nothing.

ghost use Rattle.lua_code.specs.Follows.{Follows};
ghost use Rattle.lua_code.specs.Growing.{AllGrow};
ghost use Rattle.lua_code.specs.Sound.{AllKeep};
ghost use Rattle.lua_code.specs.Talks.{AllTalk};
ghost use Rattle.lua_code.specs.Trees.{AllSound};

/// The code of a state's main function, run by the machine, comes to the end that the function
/// means, with its asks, output, ticks and cells, for every program, list of replies and budget.
pub fn follows()
    ensures { Follows }
{}

/// The machine knows no reply before it comes; what it asks, and its end whatever replies are still
/// to come, are those of the meaning.
pub fn talks()
    ensures { AllTalk }
{}

/// What a machine has done is a beginning of what its run means, whatever replies are still to come,
/// and each run comes to an end.
pub fn grows()
    ensures { AllGrow }
{}

/// Sound code of a sound program is never stuck, and each step goes down; it goes on from each reply.
pub fn keeps()
    ensures { AllKeep }
{}

/// What the code of a valid list of functions stands for is sound.
pub fn valid_is_sound()
    ensures { AllSound }
{}

//! The words of the command line, as one line of the command.

ghost use Rattle.std.specs.Prelude.{◌≡◌, ◌≤◌, IfSome, option_and_then, option_map};
ghost use Rattle.love_run.specs.Command.{ended, hears_all, line_of, said_of, settings};

use crate::said::Said;
use love_base::Text;

// What a line of the command says.
#[derive(Clone, Copy)]
pub(crate) struct Command<'a> {
    // The folder of the game.
    pub(crate) folder: &'a Text,
    // How often the game's turn is taken. It has no effect yet.
    pub(crate) frames: u32,
    // The ticks of each state.
    pub(crate) steps: u32,
    // How many Threads run at once. It has no effect yet.
    pub(crate) workers: u32,
}

// What the words say, where they are a line of the command.
pub(crate) fn read_command(words: &[Text]) -> Option<Command<'_>>
    ensures line { option_map line_of result ≡ settings words.now }
    ensures steps { IfSome result (λ command. command.steps ≤ 1000000000) }
{
    read_behind(Said::nothing(), words)
}

// The same of the words behind those that said this much. A line has eight words at most, so that
// no more calls stand in one another than those and the one that refuses the ninth.
fn read_behind<'a>(said: Said<'a>, words: &'a [Text]) -> Option<Command<'a>>
    ensures { option_map line_of result
        ≡ option_and_then ended (hears_all words.now (said_of said.entry)) }
{
    match words {
        [] => said.end(),
        [word, rest @ ..] => read_behind(said.hear(word)?, rest),
    }
}

//! What the words of the command line said so far.

ghost use Rattle.std.specs.Prelude.{◌≡◌, option_map};
ghost use Rattle.std.specs.Str.{is_utf8};
ghost use Rattle.love_run.specs.Command.{ended, gives, hears, hears_as, line_of, names_folder, names_option, nothing_said, said_of, says};

use crate::command::Command;
use crate::command_option::{CommandOption, Numbers};
use love_base::Text;

// What the next word is to be.
#[derive(Clone, Copy, Debug, PartialEq, Eq)]
pub(crate) enum Next {
    // An option or a folder.
    Any,
    // The number of this option.
    Number(CommandOption),
    // A folder, whatever it begins with: `--` came before.
    Folder,
}

// What the words said so far.
#[derive(Clone, Copy)]
pub(crate) struct Said<'a> {
    folder: Option<&'a Text>,
    numbers: Numbers,
    next: Next,
}

impl<'a> Said<'a> {
    // What no word says.
    pub(crate) fn nothing() -> Said<'a>
        ensures { said_of result ≡ nothing_said }
    {
        Said {
            folder: None,
            numbers: Numbers {
                frames: None,
                steps: None,
                workers: None,
            },
            next: Next::Any,
        }
    }

    // One word more; nothing where no line of the command goes on so.
    pub(crate) fn hear(self, word: &'a Text) -> Option<Said<'a>>
        ensures { option_map said_of result ≡ hears word.now (said_of self.entry) }
    {
        if !is_utf8(word.bytes()) {
            return None;
        }
        match self.next {
            Next::Any => self.plainly(word),
            Next::Number(option) => self.give(option, word.bytes()),
            Next::Folder => self.name(word),
        }
    }

    // A word where an option or a folder may stand.
    fn plainly(self, word: &'a Text) -> Option<Said<'a>>
        ensures { option_map said_of result ≡ says word.now (said_of self.entry) }
    {
        let bytes = word.bytes();
        if bytes == b"--".as_slice() {
            return Some(Said {
                next: Next::Folder,
                ..self
            });
        }
        if bytes.len() < 2 || !bytes.starts_with(b"-") {
            return self.name(word);
        }
        match CommandOption::of_word(bytes) {
            Some((option, rest)) => self.choose(option, rest),
            None => None,
        }
    }

    // An option, with what stands behind it in its word.
    fn choose(self, option: CommandOption, rest: &[u8]) -> Option<Said<'a>>
        ensures { option_map said_of result ≡ names_option option rest.now (said_of self.entry) }
    {
        let Some((first, text)) = rest.split_first() else {
            return Some(Said {
                next: Next::Number(option),
                ..self
            });
        };
        if *first != b'=' {
            return None;
        }
        self.give(option, text)
    }

    // The number of an option.
    fn give(self, option: CommandOption, text: &[u8]) -> Option<Said<'a>>
        ensures { option_map said_of result ≡ gives option text.now (said_of self.entry) }
    {
        let numbers = self.numbers.giving(option, text)?;
        Some(Said {
            folder: self.folder,
            numbers,
            next: Next::Any,
        })
    }

    // The folder.
    fn name(self, word: &'a Text) -> Option<Said<'a>>
        ensures { option_map said_of result ≡ names_folder word.now (said_of self.entry) }
    {
        if self.folder.is_some() || word.bytes().is_empty() {
            return None;
        }
        Some(Said {
            folder: Some(word),
            ..self
        })
    }

    // The whole line, where the words end here.
    pub(crate) fn end(self) -> Option<Command<'a>>
        ensures { option_map line_of result ≡ ended (said_of self.entry) }
    {
        if matches!(self.next, Next::Number(_)) {
            return None;
        }
        Some(Command {
            folder: self.folder?,
            frames: self.numbers.frames.unwrap_or(60),
            steps: self.numbers.steps.unwrap_or(10_000_000),
            workers: self.numbers.workers.unwrap_or(8),
        })
    }
}

#[tactic(auto, using(crate::proofs::Digits::is_text, crate::proofs::Digits::is_no_text))]
fn is_utf8(word: &[u8]) -> bool
    ensures { result ≡ is_utf8 word.now }
{
    match str::from_utf8(word) {
        Ok(_) => true,
        Err(_) => false,
    }
}

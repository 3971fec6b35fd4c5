use crate::ending::Ending;
use love_base::Text;
use std::rt::Env;
use std::{env, io};

// Why the words of the command line aren't there.
#[derive(Clone, Copy, Debug, PartialEq, Eq)]
pub(crate) enum WordsFault {
    // One of them isn't UTF-8, so that they are no command line.
    NotText,
    Memory,
}

impl WordsFault {
    // How the program ends.
    pub(crate) fn ending(self) -> Ending {
        match self {
            WordsFault::NotText => Ending::Usage,
            WordsFault::Memory => Ending::OutOfMemory,
        }
    }
}

// The words of the command line behind the program's name.
pub(crate) fn of_program<R: Env + AllocGlobal>(rt: &R) -> Result<Vec<Text>, WordsFault> {
    let all = match env::args(rt) {
        Ok(all) => all,
        Err(fault) if fault.kind() == io::ErrorKind::OutOfMemory => return Err(WordsFault::Memory),
        Err(_) => return Err(WordsFault::NotText),
    };
    let mut words = Vec::new(rt.alloc());
    for word in all.skip(1) {
        if words.push(Text::from_vec(word.into_bytes())).is_err() {
            return Err(WordsFault::Memory);
        }
    }
    Ok(words)
}

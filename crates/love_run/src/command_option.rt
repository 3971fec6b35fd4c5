//! The options of the command, which take numbers.

ghost use Rattle.std.specs.Prelude.{◌≡◌, option_map};
ghost use Rattle.std.specs.Option.{option_copied};
ghost use Rattle.std.specs.Str.{all_ascii_digits};
ghost use Rattle.love_run.specs.Command.{behind, giving, least, most, number_in, number_of, option_in, spelling};

use lua_value::Num;

// An option that takes a number.
#[derive(Clone, Copy, Debug, PartialEq, Eq)]
pub(crate) enum CommandOption {
    // How often the game's turn is taken.
    Frames,
    // The ticks of each state.
    Steps,
    // How many Threads run at once.
    Workers,
}

// The most digits of a number.
const MOST_DIGITS: usize = 10;

impl CommandOption {
    // How it is written.
    fn spelling(self) -> &'static [u8]
        ensures { result.now ≡ spelling self }
    {
        match self {
            CommandOption::Frames => b"--frames",
            CommandOption::Steps => b"--steps",
            CommandOption::Workers => b"--workers",
        }
    }

    // The least number that it takes.
    fn least(self) -> u32
        ensures { result ≡ least self }
    {
        match self {
            CommandOption::Frames => 0,
            CommandOption::Steps | CommandOption::Workers => 1,
        }
    }

    // The greatest one.
    fn most(self) -> u32
        ensures { result ≡ most self }
    {
        match self {
            CommandOption::Frames => 1_000_000,
            CommandOption::Steps => 1_000_000_000,
            CommandOption::Workers => 16,
        }
    }

    // What a word has behind the option, where it begins with that.
    fn behind(self, word: &[u8]) -> Option<&[u8]>
        ensures { option_copied result ≡ behind self word.now }
    {
        word.strip_prefix(self.spelling())
    }

    // The option with which a word begins, and what stands behind it.
    pub(crate) fn of_word(word: &[u8]) -> Option<(CommandOption, &[u8])>
        ensures { option_map (λ named. (named.0, named.1.now)) result ≡ option_in word.now }
    {
        if let Some(rest) = CommandOption::Frames.behind(word) {
            return Some((CommandOption::Frames, rest));
        }
        if let Some(rest) = CommandOption::Steps.behind(word) {
            return Some((CommandOption::Steps, rest));
        }
        match CommandOption::Workers.behind(word) {
            Some(rest) => Some((CommandOption::Workers, rest)),
            None => None,
        }
    }

    // The number that a text gives the option.
    fn number(self, text: &[u8]) -> Option<u32>
        ensures { result ≡ number_of self text.now }
    {
        let number = read_number(text)?;
        if number < u64::from(self.least()) || number > u64::from(self.most()) {
            return None;
        }
        Some(number as u32)
    }
}

// The number that one to ten decimal digits write.
fn read_number(text: &[u8]) -> Option<u64>
    ensures { result ≡ number_in text.now }
{
    if text.is_empty() || text.len() > MOST_DIGITS || !all_digits(text) {
        return None;
    }
    match Num::numeral(text) {
        Ok(number) => Some(number.get().unsigned_abs()),
        Err(_) => None,
    }
}

fn all_digits(text: &[u8]) -> bool
    ensures { result ≡ all_ascii_digits text.now }
{
    for byte in text {
        if !byte.is_ascii_digit() {
            return false;
        }
    }
    true
}

// The numbers that were given to the options so far.
#[derive(Clone, Copy)]
pub(crate) struct Numbers {
    pub(crate) frames: Option<u32>,
    pub(crate) steps: Option<u32>,
    pub(crate) workers: Option<u32>,
}

impl Numbers {
    // One number more, as the text says, where the option has none yet.
    pub(crate) fn giving(self, option: CommandOption, text: &[u8]) -> Option<Numbers>
        ensures { result ≡ giving option text.now self }
    {
        let number = Some(option.number(text)?);
        match option {
            CommandOption::Frames if self.frames.is_none() => Some(Numbers {
                frames: number,
                ..self
            }),
            CommandOption::Steps if self.steps.is_none() => Some(Numbers {
                steps: number,
                ..self
            }),
            CommandOption::Workers if self.workers.is_none() => Some(Numbers {
                workers: number,
                ..self
            }),
            _ => None,
        }
    }
}

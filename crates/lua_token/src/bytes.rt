ghost use Rattle.std.specs.Prelude.{◌≡◌, ◌≤◌, length};
ghost use Rattle.std.specs.List.{prefix_len};
ghost use Rattle.lua_token.specs.Bytes.{is_letter, is_of, newlines};

// The classes of bytes of which longest runs are taken.
#[derive(Clone, Copy, Debug, PartialEq, Eq)]
pub(crate) enum Class {
    InName,
    Digit,
    DigitOrDot,
    Equals,
    InLine,
}

// An ASCII letter or an underscore.
pub(crate) fn is_letter(b: u8) -> bool
    ensures { result ≡ is_letter b }
{
    b'A' <= b && b <= b'Z' || b'a' <= b && b <= b'z' || b == b'_'
}

impl Class {
    // Whether a byte is of the class.
    fn has(self, b: u8) -> bool
        ensures { result ≡ is_of self b }
    {
        match self {
            Class::InName => is_letter(b) || b.is_ascii_digit(),
            Class::Digit => b.is_ascii_digit(),
            Class::DigitOrDot => b.is_ascii_digit() || b == b'.',
            Class::Equals => b == b'=',
            Class::InLine => b != b'\n',
        }
    }
}

// How many bytes at the front are of the class.
pub(crate) fn run_length(bytes: &[u8], class: Class) -> usize
    ensures value { result ≡ prefix_len (is_of class) bytes.now }
    ensures fits { result ≤ length bytes.now }
{
    let mut n = 0;
    while n < bytes.len() && class.has(bytes[n]) {
        n += 1;
    }
    n
}

// How many newlines a text has.
pub(crate) fn newlines(text: &[u8]) -> usize
    ensures { result ≡ newlines text.now }
{
    text.iter().filter(|b| **b == b'\n').count()
}

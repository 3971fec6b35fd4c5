ghost use Rattle.std.specs.Prelude.{◌≡◌, ◌≤◌, length};
ghost use Rattle.std.specs.List.{prefix_len, list_any};
ghost use Rattle.lua_pattern.specs.Class.{named_takes, member_takes, takes};

use love_base::List;

/// A class of bytes that has a letter of its own, all in ASCII.
#[derive(Clone, Copy, Debug, PartialEq, Eq)]
pub enum Named {
    /// `%a`: letters.
    Letter,
    /// `%c`: control characters.
    Control,
    /// `%d`: digits.
    Digit,
    /// `%l`: lower case letters.
    Lower,
    /// `%p`: punctuation.
    Punctuation,
    /// `%s`: blanks.
    Space,
    /// `%u`: upper case letters.
    Upper,
    /// `%w`: letters and digits.
    Alphanumeric,
    /// `%x`: hexadecimal digits.
    Hexadecimal,
    /// `%z`: byte 0.
    Zero,
}

/// What stands in a set, or alone.
#[derive(Clone, Copy, Debug, PartialEq, Eq)]
pub enum Member {
    /// A byte that stands for itself.
    Byte(u8),
    /// The bytes from one up to another, as they follow each other.
    Range(u8, u8),
    /// The bytes of a class.
    Named(Named),
    /// All bytes but those of a class.
    NotNamed(Named),
}

/// A class of bytes.
#[derive(Debug, Drop)]
pub enum Class {
    /// `.`: every byte.
    Any,
    /// A byte, or a class that has a letter.
    One(Member),
    /// `[set]`: what one of the members takes.
    Set(List<Member>),
    /// `[^set]`: what none of the members takes.
    NotSet(List<Member>),
}

impl Named {
    // Whether a byte is of the class.
    fn takes(self, byte: u8) -> bool
        ensures { result ≡ named_takes self byte }
    {
        match self {
            Named::Letter => byte.is_ascii_alphabetic(),
            Named::Control => byte.is_ascii_control(),
            Named::Digit => byte.is_ascii_digit(),
            Named::Lower => byte.is_ascii_lowercase(),
            Named::Punctuation => byte.is_ascii_punctuation(),
            Named::Space => byte == b' ' || b'\t' <= byte && byte <= b'\r',
            Named::Upper => byte.is_ascii_uppercase(),
            Named::Alphanumeric => byte.is_ascii_alphanumeric(),
            Named::Hexadecimal => byte.is_ascii_hexdigit(),
            Named::Zero => byte == 0,
        }
    }
}

impl Member {
    // Whether it takes a byte.
    fn takes(self, byte: u8) -> bool
        ensures { result ≡ member_takes self byte }
    {
        match self {
            Member::Byte(own) => byte == own,
            Member::Range(low, high) => low <= byte && byte <= high,
            Member::Named(class) => class.takes(byte),
            Member::NotNamed(class) => !class.takes(byte),
        }
    }
}

// Whether one of the members takes a byte.
fn one_takes(members: &[Member], byte: u8) -> bool
    ensures { result ≡ list_any (λ m. member_takes m byte) members.now }
{
    members.iter().any(|member| member.takes(byte))
}

impl Class {
    // Whether it takes a byte.
    pub(crate) fn takes(&self, byte: u8) -> bool
        ensures { result ≡ takes self.now byte }
    {
        match self {
            Class::Any => true,
            Class::One(member) => member.takes(byte),
            Class::Set(members) => one_takes(members.as_slice(), byte),
            Class::NotSet(members) => !one_takes(members.as_slice(), byte),
        }
    }

    // How many bytes in a row from the front on it takes.
    pub(crate) fn run_length(&self, text: &[u8]) -> usize
        ensures value { result ≡ prefix_len (takes self.now) text.now }
        ensures fits { result ≤ length text.now }
    {
        let mut length = 0;
        while length < text.len() && self.takes(text[length]) {
            length += 1;
        }
        length
    }
}

//! Items of a format.

ghost use Rattle.std.specs.Prelude.{◌≡◌, IsTrue};
ghost use Rattle.lua_meaning.specs.Format as meaning;

use std::marker::Model;

/// An item up to its letter: its flags and its width.
#[derive(Clone, Copy, Debug, PartialEq, Eq)]
pub struct Item {
    pub(crate) left: bool,
    pub(crate) zeros: bool,
    pub(crate) width: usize,
    pub(crate) digits: usize,
}

impl Model for Item {
    ghost use Rattle.lua_meaning.specs.Format.{Item as FormatItem};
    ghost use Rattle.lua_lib.specs.Width.{HasDigits};

    ghost Value = { FormatItem };

    ghost view = { λ item. record {
      left = item.left;
      zeros = item.zeros;
      width = item.width;
      digits = item.digits;
    } };

    ghost invariant = { λ item. HasDigits item.width item.digits };

    ghost inverse = { λ item. record {
      left = item.left;
      zeros = item.zeros;
      width = item.width;
      digits = item.digits;
    } };
}

impl Item {
    // An item of which nothing was read behind its `%`.
    pub(crate) fn plain() -> Item
        ensures { result ≡ meaning.plain_item }
    {
        Item {
            left: false,
            zeros: false,
            width: 0,
            digits: 0,
        }
    }

    pub(crate) fn is_plain(self) -> bool
        ensures { result ≡ meaning.is_plain self }
    {
        !self.left && !self.zeros && self.digits == 0
    }

    // Whether a byte is a flag: flags stand before the width.
    pub(crate) fn is_flag(self, byte: u8) -> bool
        ensures { result ≡ meaning.is_flag self byte }
    {
        self.digits == 0 && (byte == b'-' || byte == b'0')
    }

    // Whether a byte is a digit of the width, which has at most two.
    pub(crate) fn is_width(self, byte: u8) -> bool
        ensures { result ≡ meaning.is_width self byte }
    {
        self.digits < 2 && byte.is_ascii_digit()
    }

    pub(crate) fn with_flag(self, byte: u8) -> Item
        ensures { result ≡ meaning.with_flag self byte }
    {
        if byte == b'-' {
            Item {
                left: true,
                zeros: self.zeros,
                width: self.width,
                digits: self.digits,
            }
        } else {
            Item {
                left: self.left,
                zeros: true,
                width: self.width,
                digits: self.digits,
            }
        }
    }

    pub(crate) fn with_digit(self, byte: u8) -> Item
        requires { IsTrue (meaning.is_width self byte) }
        ensures { result ≡ meaning.with_digit self byte }
    {
        Item {
            left: self.left,
            zeros: self.zeros,
            width: self.width * 10 + (byte - b'0') as usize,
            digits: self.digits + 1,
        }
    }
}

//! The type of a number, how it is made and how it is shown.

ghost use Rattle.std.specs.Prelude.{◌≡◌, SomeIff};
ghost use Rattle.std.specs.Fmt.{signed_decimal};
ghost use Rattle.lua_value.specs.Num.{IsNum};

use itoa::Buffer;
use std::marker::Model;

// The greatest number; the least one is its negative.
const GREATEST: i64 = 99_999_999_999_999;

/// A whole number from -99,999,999,999,999 to 99,999,999,999,999.
///
/// The range is this project's own: each number prints with at most fourteen digits, as Lua 5.1
/// prints a whole number (Lua 5.1 manual §2.2, §2.2.1), and every operation on two of them is exact
/// or refused.
#[derive(Clone, Copy, Debug, PartialEq, Eq, PartialOrd, Ord, Hash)]
pub struct Num {
    value: i64,
}

impl Model for Num {
    ghost use Rattle.std.specs.Prelude.{ℤ};
    ghost use Rattle.lua_value.specs.Num.{IsNum};

    ghost Value = { ℤ };

    ghost view = { λ n. n.value };

    ghost invariant = { λ n. IsNum n.value };

    ghost inverse = { λ z. record { value = z } };
}

impl Num {
    /// The number `n`, or `None` outside the range.
    pub fn new(n: i64) -> Option<Num>
        ensures { SomeIff result (IsNum n) n }
    {
        if -GREATEST <= n && n <= GREATEST {
            Some(Num { value: n })
        } else {
            None
        }
    }

    /// The number as a machine word.
    pub fn get(self) -> i64
        ensures value { result ≡ self }
        ensures in_range { IsNum result }
    {
        self.value
    }

    /// The number's decimal digits, behind `-` where it is negative, written into `buffer`: at most
    /// fifteen bytes.
    pub fn text(self, buffer: &mut Buffer) -> &str
        ensures { result.now ≡ signed_decimal self }
    {
        buffer.format(self.value)
    }
}

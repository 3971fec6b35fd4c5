//! A number apart from its sign.

ghost use Rattle.std.specs.Prelude.{◌≡◌, pos};
ghost use Rattle.lua_meaning.specs.Number.{kept};
ghost use Rattle.lua_lib.specs.Signed.{IsSigned};

use lua_value::Num;

// The greatest number.
pub(crate) const GREATEST: u64 = 99_999_999_999_999;

// A number: n, or -(n + 1).
#[derive(Clone, Copy, Debug, PartialEq, Eq)]
pub(crate) enum Signed {
    Plus(u64),
    Minus(u64),
}

pub(crate) fn split_sign(number: Num) -> Signed
    ensures { IsSigned number result }
{
    let size = number.get().unsigned_abs();
    if number.get() < 0 {
        Signed::Minus(size - 1)
    } else {
        Signed::Plus(size)
    }
}

// A natural number, where it is one of the range.
pub(crate) fn natural(size: u64) -> Option<Num>
    ensures { result ≡ kept (pos size) }
{
    if size > GREATEST {
        return None;
    }
    Num::new(size as i64)
}

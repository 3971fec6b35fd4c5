//! Powers, by squares: a power of the base's square has half the exponent.

ghost use Rattle.std.specs.Prelude.{◌≡◌, ◌-◌, ◌^◌, min, pos, SomeIff};
ghost use Rattle.lua_value.specs.Arithmetic.{power};
ghost use Rattle.lua_value.specs.Num.{IsNum};

use crate::Num;

// The base to the exponent, or `None` where it is out of range.
pub(crate) fn signed_power(base: i64, exponent: u64) -> Option<Num>
    ensures { SomeIff result (IsNum (power base exponent)) (power base exponent) }
{
    let size = unsigned_power(base.unsigned_abs(), exponent)?;
    if base < 0 && exponent % 2 == 1 {
        Some(size.neg())
    } else {
        Some(size)
    }
}

// The base to the exponent, or `None` where it is out of range.
fn unsigned_power(base: u64, exponent: u64) -> Option<Num>
    ensures { SomeIff result (IsNum (pos (base ^ exponent))) (pos (base ^ exponent)) }
{
    let size = saturating_power(base, exponent);
    Num::new(i64::try_from(size).ok()?)
}

// The base to the exponent, or the greatest word where the power is above it, in a step for each
// binary digit of the exponent.
fn saturating_power(base: u64, exponent: u64) -> u64
    ensures { result ≡ min (base ^ exponent) (2 ^ 64 - 1) }
{
    let mut value = 1u64;
    let mut factor = base;
    let mut left = exponent;
    while left > 0 {
        if left % 2 == 1 {
            value = value.saturating_mul(factor);
        }
        factor = factor.saturating_mul(factor);
        left /= 2;
    }
    value
}

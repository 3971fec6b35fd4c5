//! Division of machine words, rounded down.

ghost use Rattle.std.specs.Prelude.{◌≡◌, ◌≢◌, ◌≤◌, pos, unsigned_abs};
ghost use Rattle.lua_value.specs.Arithmetic.{floor_quotient, floor_remainder};
ghost use Rattle.lua_value.specs.Num.{IsNum};

// The quotient rounded down, and what is left, which has the divisor's sign.
pub(crate) fn floor_division(dividend: i64, divisor: i64) -> (i64, i64)
    requires dividend { IsNum dividend }
    requires divisor { IsNum divisor }
    requires nonzero { divisor ≢ pos 0 }
    ensures quotient { result.0 ≡ floor_quotient dividend divisor }
    ensures quotient_size { unsigned_abs result.0 ≤ unsigned_abs dividend }
    ensures rest { result.1 ≡ floor_remainder dividend divisor }
    ensures rest_size { unsigned_abs result.1 ≤ unsigned_abs divisor }
{
    let quotient = rounded_down(dividend, divisor);
    (quotient, dividend - quotient * divisor)
}

// The quotient rounded down: `div_euclid` rounds so where the divisor isn't negative.
fn rounded_down(dividend: i64, divisor: i64) -> i64
    requires dividend { IsNum dividend }
    requires divisor { IsNum divisor }
    requires nonzero { divisor ≢ pos 0 }
    ensures { result ≡ floor_quotient dividend divisor }
{
    if divisor < 0 {
        (-dividend).div_euclid(-divisor)
    } else {
        dividend.div_euclid(divisor)
    }
}

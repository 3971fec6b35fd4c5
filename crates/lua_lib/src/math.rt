//! The functions of `math` on whole numbers (Lua 5.1 manual §5.6).

ghost use Rattle.std.specs.Prelude.{[], ◌∷◌, IfOk, IfErr};
ghost use Rattle.lua_meaning.specs.Value.{num};
ghost use Rattle.lua_meaning.specs.Math as meaning;
ghost use Rattle.lua_lib.specs.Outcome.{Gives};
ghost use Rattle.lua_lib.specs.Faults.{FailsBy};

use crate::Fault;
use crate::signed::{Signed, split_sign};
use lua_value::Num;

/// `math.abs(x)`: the number without its sign.
pub fn abs(x: Num) -> Num
    ensures { Gives (meaning.abs (num x ∷ [])) (num result ∷ []) }
{
    match split_sign(x) {
        Signed::Plus(_) => x,
        Signed::Minus(_) => x.neg(),
    }
}

/// `math.ceil(x)` and `math.floor(x)`: every number is whole.
pub fn whole(x: Num) -> Num
    ensures { Gives (meaning.whole (num x ∷ [])) (num result ∷ []) }
{
    x
}

/// `math.max(x, y)`: the greater of two numbers.
pub fn max(x: Num, y: Num) -> Num
    ensures { Gives (meaning.greatest (num x ∷ num y ∷ [])) (num result ∷ []) }
{
    if x.get() <= y.get() { y } else { x }
}

/// `math.min(x, y)`: the less of two numbers.
pub fn min(x: Num, y: Num) -> Num
    ensures { Gives (meaning.least (num x ∷ num y ∷ [])) (num result ∷ []) }
{
    if x.get() <= y.get() { x } else { y }
}

/// `math.pow(x, y)`: the power.
///
/// # Errors
///
/// [`Fault::NotWhole`] where the exponent is negative, [`Fault::OutOfRange`] where the power is
/// outside the range; Lua 5.1 gives a fraction or rounds.
pub fn pow(x: Num, y: Num) -> Result<Num, Fault>
    ensures ok { IfOk result (λ power.
        Gives (meaning.pow (num x ∷ num y ∷ [])) (num power ∷ [])) }
    ensures fault { IfErr result (FailsBy (meaning.pow (num x ∷ num y ∷ []))) }
{
    match x.pow(y) {
        Ok(power) => Ok(power),
        Err(fault) => Err(Fault::from(fault)),
    }
}

/// `math.fmod(a, b)`: the remainder of a division rounded towards 0, with the sign of `a`.
///
/// # Errors
///
/// [`Fault::NotWhole`] where `b` is 0; Lua 5.1 gives not-a-number.
pub fn fmod(a: Num, b: Num) -> Result<Num, Fault>
    ensures ok { IfOk result (λ rest.
        Gives (meaning.fmod (num a ∷ num b ∷ [])) (num rest ∷ [])) }
    ensures fault { IfErr result (FailsBy (meaning.fmod (num a ∷ num b ∷ []))) }
{
    let divisor = b.get();
    if divisor == 0 {
        return Err(Fault::NotWhole);
    }
    Ok(Num::new(a.get() % divisor).unwrap())
}

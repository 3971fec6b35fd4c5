//! Arithmetic (Lua 5.1 manual §2.5.1), exact or refused.

ghost use Rattle.std.specs.Prelude.{◌≡◌, neg_ℤ};

use crate::Num;
use crate::division::floor_division;
use crate::powers::signed_power;
use thiserror::Error;

/// Why an operation has no number as its answer.
#[derive(Clone, Copy, Debug, PartialEq, Eq, Error)]
pub enum NumFault {
    /// The quotient isn't whole, the divisor is 0 or the exponent is negative.
    #[error("the result isn't a whole number")]
    NotWhole = 1,
    /// The exact result is whole and outside the range.
    #[error("the result is out of range")]
    OutOfRange = 2,
}

impl Num {
    ghost use Rattle.lua_value.specs.Arithmetic.{add, sub, mul, div, rem, pow};

    /// The sum.
    ///
    /// # Errors
    ///
    /// [`NumFault::OutOfRange`] where it lies outside the range.
    pub fn add(self, other: Num) -> Result<Num, NumFault>
        ensures { result ≡ add self other }
    {
        Num::new(self.get() + other.get()).ok_or(NumFault::OutOfRange)
    }

    /// The difference.
    ///
    /// # Errors
    ///
    /// [`NumFault::OutOfRange`] where it lies outside the range.
    pub fn sub(self, other: Num) -> Result<Num, NumFault>
        ensures { result ≡ sub self other }
    {
        Num::new(self.get() - other.get()).ok_or(NumFault::OutOfRange)
    }

    /// The product.
    ///
    /// # Errors
    ///
    /// [`NumFault::OutOfRange`] where it lies outside the range.
    pub fn mul(self, other: Num) -> Result<Num, NumFault>
        ensures { result ≡ mul self other }
    {
        let product = self.get().checked_mul(other.get());
        product.and_then(Num::new).ok_or(NumFault::OutOfRange)
    }

    /// The quotient where it is whole.
    ///
    /// # Errors
    ///
    /// [`NumFault::NotWhole`] where it isn't, or where the divisor is 0; Lua 5.1 gives a fraction
    /// or an infinity.
    pub fn div(self, other: Num) -> Result<Num, NumFault>
        ensures { result ≡ div self other }
    {
        let (dividend, divisor) = (self.get(), other.get());
        if divisor == 0 {
            return Err(NumFault::NotWhole);
        }
        let (quotient, rest) = floor_division(dividend, divisor);
        if rest != 0 {
            return Err(NumFault::NotWhole);
        }
        Ok(Num::new(quotient).unwrap())
    }

    /// The remainder `a - floor(a / b) * b`, with the divisor's sign.
    ///
    /// # Errors
    ///
    /// [`NumFault::NotWhole`] where the divisor is 0.
    pub fn rem(self, other: Num) -> Result<Num, NumFault>
        ensures { result ≡ rem self other }
    {
        let (dividend, divisor) = (self.get(), other.get());
        if divisor == 0 {
            return Err(NumFault::NotWhole);
        }
        let (_, rest) = floor_division(dividend, divisor);
        Ok(Num::new(rest).unwrap())
    }

    /// The power; 1 where the exponent is 0, also of 0.
    ///
    /// Takes time in the number of the exponent's binary digits.
    ///
    /// # Errors
    ///
    /// [`NumFault::NotWhole`] where the exponent is negative, where Lua 5.1 gives a fraction;
    /// [`NumFault::OutOfRange`] where the power lies outside the range.
    pub fn pow(self, other: Num) -> Result<Num, NumFault>
        ensures { result ≡ pow self other }
    {
        let (base, exponent) = (self.get(), other.get());
        if exponent < 0 {
            return Err(NumFault::NotWhole);
        }
        signed_power(base, exponent as u64).ok_or(NumFault::OutOfRange)
    }

    /// The negative.
    pub fn neg(self) -> Num
        ensures { result ≡ neg_ℤ self }
    {
        Num::new(-self.get()).unwrap()
    }
}

//! Laws of the definitions, each the contract of a function that does nothing.

ghost use Rattle.std.specs.Prelude.{◌≡◌, ◌≢◌, ℕ, ℤ, pos, neg_ℤ, ◌+ℤ◌, ◌*ℤ◌, List};
ghost use Rattle.lua_value.specs.Arithmetic.{add, mul, div, rem, in_range, LiesBefore};
ghost use Rattle.lua_value.specs.Numeral.{Denotes};
ghost use Rattle.lua_value.specs.NumberText.{ReadsAs};

/// Sums and products don't depend on the order of their operands.
pub fn operations_commute()
    ensures sum { (a b : ℤ) → add a b ≡ add b a }
    ensures product { (a b : ℤ) → mul a b ≡ mul b a }
{}

/// There is a quotient exactly where a number times the divisor is the dividend, and it is that
/// number.
pub fn quotient_divides()
    ensures value { (a b q : ℤ) → div a b ≡ Ok q → q *ℤ b ≡ a }
    ensures complete { (a b q : ℤ) → b ≢ pos 0 → q *ℤ b ≡ a → div a b ≡ in_range q }
{}

/// A remainder is what a multiple of the divisor leaves of the dividend; it has the divisor's sign
/// and is smaller.
pub fn remainder_is_left()
    ensures parts { (a b r : ℤ) → rem a b ≡ Ok r → (q : ℤ) × (q *ℤ b +ℤ r ≡ a) }
    ensures sign { (a b r : ℤ) → rem a b ≡ Ok r → LiesBefore r b }
{}

/// The negative of the negative is the number.
pub fn negation_undoes_itself()
    ensures { (a : ℤ) → neg_ℤ (neg_ℤ a) ≡ a }
{}

/// A text has at most one value, as a numeral and as a number with blanks around it.
pub fn texts_have_one_value()
    ensures numeral { (text : List ℕ) (y z : ℤ) → Denotes text y → Denotes text z → y ≡ z }
    ensures number { (text : List ℕ) (y z : ℤ) → ReadsAs text y → ReadsAs text z → y ≡ z }
{}

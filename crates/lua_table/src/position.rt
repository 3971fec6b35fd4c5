//! The keys 1, 2, 3 and so on.

ghost use Rattle.std.specs.Prelude.{◌≡◌, ℕ, ◌≤◌, ◌↔◌, Option, Some, IsTrue, IsSome};

/// A type of keys that has a key for each of the numbers 1, 2, 3 up to a last one.
///
/// Two keys that `==` calls equal are one and the same value.
pub trait Position: Sized + Copy + Eq {
    /// The last number that has a key.
    ghost last_position: { ℕ };

    /// The key for a number, where it has one.
    ghost at_position: { ℕ → Option Self };

    /// The number of a key, where it has one.
    ghost position_of: { Self → Option ℕ };

    /// The key for `n`; `None` for 0 and for a number past the last one.
    fn at(n: u64) -> Option<Self>
        ensures { result ≡ at_position n };

    /// The number whose key this is; `None` for every other key.
    fn position(&self) -> Option<u64>
        ensures { result ≡ position_of self.now };

    /// Equal keys are the same value.
    ghost equal_is_same: { (a b : Self) → IsTrue (Self.eq a b) → a ≡ b };

    /// There is a key for each number from 1 to the last one, and for no other.
    ghost numbered: { (n : ℕ) → IsSome (at_position n) ↔ ((1 ≤ n) × (n ≤ last_position)) };

    /// The key for n is the one whose number is n.
    ghost inverse: { (key : Self) (n : ℕ) →
        (position_of key ≡ Some n) ↔ (at_position n ≡ Some key) };
}

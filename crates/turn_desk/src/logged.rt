ghost use Rattle.std.specs.Prelude.{◌≡◌, ◌<◌, ◌^◌, ℕ, List, Bool, length};
ghost use Rattle.love_base.specs.declared.stamp.Stamp.{Stamp as StampValue};

use love_base::Stamp;

/// An object that a desk can share: it keeps the history of its own changes, and is what that
/// history makes of it.
///
/// No change of such an object alters its fixed number or the entries that it had before; who
/// changes one by a [`crate::Held`] owes that to [`crate::Desk::release`].
pub trait Logged: Drop {
    /// One change of the object.
    type Entry;

    /// The changes so far, the oldest first.
    ghost history: { Self → List Self.Entry };

    /// What `fixed` tells.
    ghost fixed_number: { Self → ℕ };

    /// The object of a fixed number and a history.
    ghost replay: { ℕ → List Self.Entry → Self };

    /// What `summary` tells of an object with this history.
    ghost summed: { List Self.Entry → ℕ };

    /// Whether nobody is inside a section after this history.
    ghost between: { List Self.Entry → Bool };

    /// What `stamp` tells.
    ghost stamped: { Self.Entry → StampValue };

    /// The number of entries of the history, below 2^22.
    fn length(&self) -> u32
        ensures length { result ≡ length (history self.now) }
        ensures fits { result < 2 ^ 22 };

    /// What a look at the object's tally shows beside the length, below 2^42.
    fn summary(&self) -> u64
        ensures summary { result ≡ summed (history self.now) }
        ensures fits { result < 2 ^ 42 };

    /// Whether the object may be given back: no caller is inside a section on it.
    fn is_between(&self) -> bool
        ensures { result ≡ between (history self.now) };

    /// A number that tells the object's kind, and never changes.
    fn fixed(&self) -> u64
        ensures { result ≡ fixed_number self.now };

    /// Who wrote an entry.
    fn stamp(entry: &Self::Entry) -> Stamp
        ensures { result ≡ stamped entry.now };

    /// An object is nothing but its fixed number and its history.
    ghost replays: { (x : Self) → replay (fixed_number x) (history x) ≡ x };
}

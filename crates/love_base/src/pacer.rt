ghost use Rattle.std.specs.Prelude.{ℕ};

/// A clock by which waits are limited, and a way to let others run meanwhile. Nothing is promised
/// of how its readings go on.
pub trait Pacer {
    /// Whether a number can be a reading of this pacer.
    ghost shows: { Self → ℕ → Type 0 };

    /// A reading, in milliseconds.
    fn now(&self) -> u64
        ensures { shows self.now result };

    /// Lets others run for a moment.
    fn pause(&self);
}

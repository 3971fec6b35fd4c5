//! What the holder of a pass knows. These types stand in proofs alone: no value of them is made.
use std::collections::LinkedList;
use variant::Sent;

/// A pass that was joined into another.
pub struct Joined {
    pub number: u64,
    /// What was sent through it.
    pub sent: LinkedList<Sent>,
}

/// All that a pass knows.
pub struct View {
    /// The pass's number, from 1; 0 in a pass that is spent.
    pub number: u64,
    /// What was sent through the pass and isn't kept in it.
    pub sent: LinkedList<Sent>,
    /// What was polled through it.
    pub polled: LinkedList<Sent>,
    /// The greatest number that a pass was given, as the pass knows that makes the others.
    pub made: u64,
    /// The passes that were joined into it.
    pub joined: LinkedList<Joined>,
}

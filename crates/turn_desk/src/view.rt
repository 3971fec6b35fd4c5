//! What the holder of a pass knows. These types stand in proofs alone: no value of them is made.
use std::collections::LinkedList;

/// Where a pass stands at one object.
pub enum Phase {
    /// It doesn't have the object.
    Free,
    /// It has the object, and has published nothing since it took it.
    Taken,
    /// It has the object, and has published its new history.
    Published,
}

/// A place of a history that a pass filled, counted from 1.
pub struct Own {
    /// The number of the pass that filled it.
    pub seat: u64,
    pub place: u64,
    /// What the entry carries, a number for each object: at its own object its place, at each other
    /// the front that the pass had when it published the entry.
    pub carries: LinkedList<u64>,
}

/// What a pass that was joined in knew of an object's history.
pub struct Told<E> {
    /// The number of the pass that was joined in.
    pub seat: u64,
    pub known: LinkedList<E>,
}

/// A take that found another pass's number in the turn word.
pub struct Refusal {
    /// The number of the pass that was refused.
    pub seat: u64,
    pub object: u64,
    /// The number that it found.
    pub found: u64,
}

/// A look at an object's tally.
pub struct Look {
    /// The number of the pass that looked.
    pub seat: u64,
    pub object: u64,
    /// The length of the history that it found.
    pub place: u64,
    /// The summary that it found.
    pub summary: u64,
}

/// A take, a look or a change: a step by which a pass met an object at a place of its history.
pub struct Action {
    /// The number of the pass that made it.
    pub seat: u64,
    pub object: u64,
    pub place: u64,
    /// Whether it filled the place.
    pub changed: bool,
    /// The fronts that the pass had just before the step, one for each object.
    pub fronts: LinkedList<u64>,
}

/// What a pass knows of one object.
pub struct Spot<E> {
    pub phase: Phase,
    /// The beginning of the object's history that the pass has seen.
    pub known: LinkedList<E>,
    /// The greatest length of the history that the pass has seen.
    pub front: u64,
    pub own: LinkedList<Own>,
    pub told: LinkedList<Told<E>>,
}

/// All that a pass knows.
pub struct View<E> {
    /// The pass's own number, from 1; 0 once the pass is joined into another.
    pub number: u64,
    /// Its number and those of the passes joined into it.
    pub numbers: LinkedList<u64>,
    /// How many passes the desk has; 0 until it is brought.
    pub seats: u64,
    /// The number of the next pass to be made; 0 in a pass that makes none.
    pub next: u64,
    /// The objects below this number haven't been put in yet.
    pub awaited: u64,
    /// The fixed number of each object.
    pub fixed: LinkedList<u64>,
    /// The same, as each pass that was joined in had them.
    pub handed: LinkedList<LinkedList<u64>>,
    pub spots: LinkedList<Spot<E>>,
    pub refused: LinkedList<Refusal>,
    pub looks: LinkedList<Look>,
    pub actions: LinkedList<Action>,
}

//! A set of numbers that knows its least one: the gaps of a table.

ghost use Rattle.std.specs.Prelude.{◌≡◌, ◌≢◌, ℕ, ◌+◌, ◌*◌, ◌/◌, ◌^◌, ◌<◌, ◌≤◌, ◌==◌, Bool, true, false, length, slice_index, vec_len, IfSome, IfNone, OnOk, IfOk, if◌then◌else◌};
ghost use Rattle.lua_table.specs.Gaps.{has_gap, leaves, IsFirst, IsLesser, IsNode};

use love_base::Memory;
use std::alloc::Global;
use std::marker::Model;

// So many numbers have one leaf of the tree.
const BLOCK: usize = 8;

// Room for more numbers is refused.
pub(crate) const MOST_ROOM: usize = 1 << 31;

// Stands for no number.
const NONE: u32 = 0xffff_ffff;

// A set of the numbers below its room: a flag for each, and a tree over blocks of eight in which
// each leaf has the least number of its block and each node the least below it.
#[derive(Debug, Drop)]
pub(crate) struct Gaps {
    flags: Vec<bool>,
    // The root at 1, the children of the node i at 2i and 2i + 1, and the leaves in the second
    // half. What stands at 0 isn't used.
    tree: Vec<u32>,
    alloc: Global,
}

impl Model for Gaps {
    ghost use Rattle.std.specs.Prelude.{List, Bool};
    ghost use Rattle.lua_table.specs.Gaps.{IsTree};

    ghost Value = { List Bool };

    ghost view = { λ g. g.flags.items };

    ghost invariant = { λ g. IsTree g.flags.items g.tree.items };
}

impl Gaps {
    // A set without numbers and without room. Takes no memory.
    pub(crate) fn new(alloc: Global) -> Gaps
        ensures empty { (k : ℕ) → has_gap result k ≡ false }
        ensures room { length result ≡ 0 }
    {
        Gaps {
            flags: Vec::new(alloc),
            tree: Vec::new(alloc),
            alloc,
        }
    }

    // A set without numbers that has room for eight times as many as it has leaves.
    fn with_leaves(alloc: Global, leaves: usize) -> Result<Gaps, Memory>
        requires { leaves ≤ 2 ^ 28 }
        ensures empty { IfOk result (λ gaps. (k : ℕ) → has_gap gaps k ≡ false) }
        ensures room { IfOk result (λ gaps. length gaps ≡ 8 * leaves) }
    {
        let mut flags = Vec::new(alloc);
        flags.resize(BLOCK * leaves, false)?;
        let mut tree = Vec::new(alloc);
        tree.resize(2 * leaves, NONE)?;
        Ok(Gaps { flags, tree, alloc })
    }

    // For how many numbers there is room.
    #[inline]
    pub(crate) fn room(&self) -> usize
        ensures room { result ≡ length self.now }
        ensures most { result ≤ 2 ^ 31 }
    {
        self.flags.len()
    }

    // The least number. Takes constant time.
    #[inline]
    pub(crate) fn least(&self) -> Option<usize>
        ensures none { IfNone result ((k : ℕ) → has_gap self.now k ≡ false) }
        ensures has { IfSome result (λ n. has_gap self.now n ≡ true) }
        ensures least { IfSome result (λ n. (k : ℕ) → has_gap self.now k ≡ true → n ≤ k) }
    {
        if self.tree.len() < 2 {
            return None;
        }
        let least = self.tree[1];
        if least == NONE {
            None
        } else {
            Some(least as usize)
        }
    }

    #[inline]
    pub(crate) fn insert(&mut self, number: usize)
        requires { number < length self.old }
        ensures has { (k : ℕ) →
            has_gap self.new k ≡ (if k == number then true else has_gap self.old k) }
        ensures room { length self.new ≡ length self.old }
    {
        self.mark(number, true);
    }

    #[inline]
    pub(crate) fn remove(&mut self, number: usize)
        requires { number < length self.old }
        ensures has { (k : ℕ) →
            has_gap self.new k ≡ (if k == number then false else has_gap self.old k) }
        ensures room { length self.new ≡ length self.old }
    {
        self.mark(number, false);
    }

    // Puts a number in or takes it out, in time in the logarithm of the room.
    fn mark(&mut self, number: usize, is_in: bool)
        requires { number < length self.old }
        ensures has { (k : ℕ) →
            has_gap self.new k ≡ (if k == number then is_in else has_gap self.old k) }
        ensures room { length self.new ≡ length self.old }
    {
        if self.flags[number] == is_in {
            return;
        }
        self.flags[number] = is_in;
        let block = number / BLOCK;
        let leaf = self.tree.len() / 2 + block;
        self.tree[leaf] = first_of_block(&self.flags, block);
        update_above(&mut self.tree, leaf);
    }

    // Makes room for the numbers below one, and where there isn't, twice as much as before at least.
    pub(crate) fn make_room(&mut self, least: usize) -> Result<(), Memory>
        ensures same { (k : ℕ) → has_gap self.new k ≡ has_gap self.old k }
        ensures room { OnOk result (least ≤ length self.new) }
        ensures kept { length self.old ≤ length self.new }
    {
        if least <= self.room() {
            return Ok(());
        }
        if least > MOST_ROOM {
            return Err(Memory);
        }
        let twice = (2 * self.room()).min(MOST_ROOM);
        let leaves = (least.max(twice) + (BLOCK - 1)) / BLOCK;
        let mut wider = Gaps::with_leaves(self.alloc, leaves)?;
        for number in 0..self.room() {
            if self.flags[number] {
                wider.insert(number);
            }
        }
        *self = wider;
        Ok(())
    }
}

// The first number of a block whose flag is set, or none.
fn first_of_block(flags: &[bool], block: usize) -> u32
    requires within { 8 * block + 8 ≤ length flags.now }
    requires small { length flags.now ≤ 2 ^ 31 }
    ensures { IsFirst flags.now block result }
{
    let start = BLOCK * block;
    for number in start..start + BLOCK {
        if flags[number] {
            return number as u32;
        }
    }
    NONE
}

// Puts the nodes above one right, up to the first that is right already.
fn update_above(tree: &mut [u32], below: usize)
    requires even { length tree.old ≡ 2 * leaves tree.old }
    requires low { 1 ≤ below }
    requires high { below < length tree.old }
    requires others { (i : ℕ) → 1 ≤ i → i < leaves tree.old → i ≢ below / 2 → IsNode tree.old i }
    ensures nodes { (i : ℕ) → 1 ≤ i → i < leaves tree.new → IsNode tree.new i }
    ensures leaves { (i : ℕ) → leaves tree.old ≤ i → slice_index tree.new i ≡ slice_index tree.old i }
{
    let mut node = below;
    while node > 1 {
        node /= 2;
        let least = lesser(tree[2 * node], tree[2 * node + 1]);
        if tree[node] == least {
            return;
        }
        tree[node] = least;
    }
}

fn lesser(left: u32, right: u32) -> u32
    ensures { IsLesser result left right }
{
    if left <= right { left } else { right }
}

//! Where the values at the positions end.

ghost use Rattle.std.specs.Prelude.{◌≡◌, ◌≢◌, ℕ, ◌+◌, ◌<◌, ◌≤◌, true, false, length, IfOk, IsOk};
ghost use Rattle.lua_table.specs.Gaps.{has_gap, had, vacant};

use crate::Position;
use crate::gaps::{Gaps, MOST_ROOM};
use crate::places::Places;
use love_base::Memory;
use std::alloc::Global;
use std::hash::Hash;

// The least border of a table, by the positions without a value among the first ones that have had
// one.
#[derive(Debug, Drop)]
pub(crate) struct Border {
    // Each position up to here has had a value, and the next one hasn't.
    pub(crate) reached: u64,
    // The numbers k below `reached` where the position k + 1 has no value.
    pub(crate) gaps: Gaps,
}

impl Border {
    pub(crate) fn new(alloc: Global) -> Border
        ensures reached { result.reached ≡ 0 }
        ensures gaps { (k : ℕ) → has_gap result.gaps k ≡ false }
    {
        Border {
            reached: 0,
            gaps: Gaps::new(alloc),
        }
    }

    // The least border: the positions up to here have values.
    #[inline]
    pub(crate) fn least(&self) -> u64
        ensures before { (k : ℕ) → k < result → has_gap self.now.gaps k ≡ false }
        ensures behind { result ≢ self.now.reached → has_gap self.now.gaps result ≡ true }
    {
        match self.gaps.least() {
            Some(gap) => gap as u64,
            None => self.reached,
        }
    }

    // Up to where all positions will have had values once `n` has one, with room for all of them.
    #[inline]
    pub(crate) fn make_room<K: Position + Hash + Drop, V>(
        &mut self,
        places: &Places<K, V>,
        n: u64,
    ) -> Result<u64, Memory>
        requires { 1 ≤ n }
        ensures reached { self.new.reached ≡ self.old.reached }
        ensures gaps { (k : ℕ) → has_gap self.new.gaps k ≡ has_gap self.old.gaps k }
        ensures kept { length self.old.gaps ≤ length self.new.gaps }
        ensures room { IfOk result (λ end. end ≢ self.old.reached → end ≤ length self.new.gaps) }
        ensures same { n ≢ self.old.reached + 1 → IsOk result }
        ensures elsewhere { IfOk result (λ end. n ≢ self.old.reached + 1
            → end ≡ self.old.reached) }
        ensures from { IfOk result (λ end. n ≡ self.old.reached + 1 → n ≤ end) }
        ensures run { IfOk result (λ end. n ≡ self.old.reached + 1
            → (k : ℕ) → n < k → k ≤ end → had K.eq K.at_position places.now k ≡ true) }
        ensures ended { IfOk result (λ end. n ≡ self.old.reached + 1
            → had K.eq K.at_position places.now (end + 1) ≡ false) }
    {
        if n - 1 != self.reached {
            return Ok(self.reached);
        }
        let end = run_end(places, n)?;
        self.gaps.make_room(end as usize)?;
        Ok(end)
    }

    // The position `n` has a value now.
    #[inline]
    pub(crate) fn fill(&mut self, n: u64)
        requires one { 1 ≤ n }
        requires inside { (k : ℕ) → has_gap self.old.gaps k ≡ true → k < self.old.reached }
        requires room { self.old.reached ≤ length self.old.gaps }
        ensures reached { self.new.reached ≡ self.old.reached }
        ensures filled { (k : ℕ) → k + 1 ≡ n → has_gap self.new.gaps k ≡ false }
        ensures others { (k : ℕ) → k + 1 ≢ n → has_gap self.new.gaps k ≡ has_gap self.old.gaps k }
        ensures room { length self.new.gaps ≡ length self.old.gaps }
    {
        if n <= self.reached {
            self.gaps.remove((n - 1) as usize);
        }
    }

    // All positions up to `end` have had values now, and the first one that hadn't has one.
    #[inline]
    pub(crate) fn reach<K: Position + Hash + Drop, V>(&mut self, places: &Places<K, V>, end: u64)
        requires ahead { self.old.reached ≤ end }
        requires room { end ≢ self.old.reached → end ≤ length self.old.gaps }
        ensures reached { self.new.reached ≡ end }
        ensures before { (k : ℕ) → k ≤ self.old.reached
            → has_gap self.new.gaps k ≡ has_gap self.old.gaps k }
        ensures between { (k : ℕ) → self.old.reached < k → k < end
            → has_gap self.old.gaps k ≡ false
            → has_gap self.new.gaps k ≡ vacant K.eq K.at_position places.now (k + 1) }
        ensures behind { (k : ℕ) → end ≤ k
            → has_gap self.new.gaps k ≡ has_gap self.old.gaps k }
        ensures room { length self.new.gaps ≡ length self.old.gaps }
    {
        if end > self.reached {
            for k in self.reached + 1..end {
                if is_vacant(places, k + 1) {
                    self.gaps.insert(k as usize);
                }
            }
            self.reached = end;
        }
    }

    // The position `n` has no value now.
    #[inline]
    pub(crate) fn empty(&mut self, n: u64)
        requires one { 1 ≤ n }
        requires room { self.old.reached ≤ length self.old.gaps }
        ensures reached { self.new.reached ≡ self.old.reached }
        ensures emptied { (k : ℕ) → k + 1 ≡ n → n ≤ self.old.reached
            → has_gap self.new.gaps k ≡ true }
        ensures others { (k : ℕ) → k + 1 ≢ n → has_gap self.new.gaps k ≡ has_gap self.old.gaps k }
        ensures behind { self.old.reached < n
            → (k : ℕ) → has_gap self.new.gaps k ≡ has_gap self.old.gaps k }
        ensures room { length self.new.gaps ≡ length self.old.gaps }
    {
        if n <= self.reached {
            self.gaps.insert((n - 1) as usize);
        }
    }
}

// Whether a position has no value.
#[inline]
fn is_vacant<K: Position + Hash + Drop, V>(places: &Places<K, V>, n: u64) -> bool
    ensures { result ≡ vacant K.eq K.at_position places.now n }
{
    match K::at(n) {
        Some(key) => places.get(&key).is_none(),
        None => true,
    }
}

// Whether a position ever had a value.
#[inline]
fn had_value<K: Position + Hash + Drop, V>(places: &Places<K, V>, n: u64) -> bool
    ensures { result ≡ had K.eq K.at_position places.now n }
{
    match K::at(n) {
        Some(key) => places.has(&key),
        None => false,
    }
}

// Up to where all positions behind `from` have had values. A run that is longer than the gaps could
// have room for is refused.
fn run_end<K: Position + Hash + Drop, V>(places: &Places<K, V>, from: u64) -> Result<u64, Memory>
    ensures from { IfOk result (λ end. from ≤ end) }
    ensures run { IfOk result (λ end. (k : ℕ) → from < k → k ≤ end
        → had K.eq K.at_position places.now k ≡ true) }
    ensures ended { IfOk result (λ end. had K.eq K.at_position places.now (end + 1) ≡ false) }
{
    for end in from..MOST_ROOM as u64 {
        if !had_value(places, end + 1) {
            return Ok(end);
        }
    }
    Err(Memory)
}

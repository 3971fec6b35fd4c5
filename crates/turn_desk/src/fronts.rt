ghost use Rattle.std.specs.Prelude.{◌≡◌, ◌-◌, ◌<◌, ◌≤◌, [], length, slice_index_or};
ghost use Rattle.turn_desk.specs.Closing.{front_of};

use std::marker::Model;

/// The fronts with which the passes of a desk were given back: how much of each object's history
/// each of them had seen.
#[derive(Debug, Drop)]
pub struct Fronts {
    pub(crate) rows: Vec<Vec<u32>>,
}

impl Model for Fronts {
    ghost use Rattle.std.specs.Prelude.{ℕ, List, map};
    ghost use Rattle.std.specs.Coded.{coded_list, coded_ℕ};

    ghost Value = { List (List ℕ) };

    ghost coded = { coded_list (coded_list coded_ℕ) };

    ghost view = { λ f. map (λ r. r.items) f.rows.items };
}

impl Fronts {
    /// The front of a pass, by its number from 1, at an object, by its number from 0: the greatest
    /// length of the object's history that the pass had seen. Constant time.
    pub fn of(&self, seat: u32, object: u32) -> u32
        requires seat { (0 < seat) × (seat ≤ length self.now) }
        requires object { object < length (slice_index_or self.now (seat - 1) []) }
        ensures { result ≡ front_of self.now seat object }
    {
        self.rows[seat as usize - 1][object as usize]
    }
}

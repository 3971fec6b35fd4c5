//! Closing a desk: all passes are joined into one, and then no object is out with any.
ghost use Rattle.std.specs.Prelude.{◌≡◌, ℕ, ◌⊎◌, ◌<◌, ◌≤◌, [], true, All, Some, length, map, vec_len, vec_capacity};
ghost use Rattle.std.specs.Slots.{slots_items, slots_len, IsFull};
ghost use Rattle.turn_desk.specs.Closing.{views_of, HoldsNothing, own_total, front_of, Gathers, AreAllBack, AtEachObject, AllFilled, LooksStand, EntriesStand, EntriesCarry, ActionsStand, ActionsFollow};
ghost use Rattle.turn_desk.specs.Passes.{fixed_at, object_count};
ghost use Rattle.love_base.specs.Prefix.{IsPrefix};
ghost use Rattle.turn_desk.specs.View.{spot};

use crate::desk::Desk;
use crate::fronts::Fronts;
use crate::logged::Logged;
use crate::pass::Pass;
use crate::plays::{DeskTable, GiveUp, TurnSeat};
use atomic_table::Closed;
use std::alloc::Global;

// Joins all passes into the seat of the last, and puts each one's fronts into its row.
fn join_all<O: Logged>(
    table: &DeskTable<O>,
    rows: &mut Vec<Vec<u32>>,
    mut passes: Vec<Pass<O>>,
) -> TurnSeat<O>
    requires own { All
        (λ p. p.desk ≡ record { table = table.now.shared.table_id; seats = vec_len rows.old })
        passes.items }
    requires free { All (λ p. HoldsNothing p.view) passes.items }
    requires some { 0 < vec_len passes }
    requires words { 0 < table.now.shared.table_id.words }
    ensures own { result.table_id ≡ table.now.shared.table_id }
    ensures rows { vec_len rows.new ≡ vec_len rows.old }
    ensures gathered { Gathers (vec_len rows.old) table.now.shared.table_id.slots
        (views_of passes.items) []
        (map (λ r. r.items) rows.old.items) (map (λ r. r.items) rows.new.items) result.me }
{
    let Some(last) = passes.pop() else {
        unreachable!()
    };
    let Pass {
        mut seat,
        number,
        fronts,
        kept: _,
    } = last;
    rows[number as usize - 1] = fronts;
    while let Some(pass) = passes.pop() {
        let Pass {
            seat: other,
            number,
            fronts,
            kept: _,
        } = pass;
        table.shared.join_seat::<GiveUp>(&mut seat, other);
        rows[number as usize - 1] = fronts;
    }
    seat
}

// Takes the objects out of their slots, in order.
fn take_all<O>(mut closed: Closed<Option<O>, Global>, mut objects: Vec<O>) -> Vec<O>
    requires full { IsFull closed.slots }
    requires home { AllFilled (slots_items closed.slots) }
    requires room { (objects.items ≡ []) × (slots_len closed.slots ≤ vec_capacity objects) }
    ensures { map Some result.items ≡ slots_items closed.slots }
{
    for object in 0..closed.slot_count() {
        objects.push_reserved(closed.take(object).unwrap());
    }
    closed.free();
    objects
}

impl<O: Logged> Desk<O> {
    /// Gives each object back, in order, and the front of each pass at each object. Takes no
    /// memory.
    ///
    /// All of the desk's passes are given back to it, in any order, and none of them has an object.
    pub fn close(self, passes: Vec<Pass<O>>) -> (Vec<O>, Fronts)
        requires own { All (λ p. p.desk ≡ self) passes.items }
        requires free { All (λ p. HoldsNothing p.view) passes.items }
        requires all { AreAllBack self passes.items }
        ensures count { vec_len result.0 ≡ object_count self }
        ensures replay { AtEachObject result.0.items
            (λ o x. All (λ p. x ≡ O.replay (fixed_at p.view o) (O.history x)) passes.items) }
        ensures fixed { AtEachObject result.0.items
            (λ o x. All (λ p. O.fixed_number x ≡ fixed_at p.view o) passes.items) }
        ensures between { AtEachObject result.0.items (λ o x. O.between (O.history x) ≡ true) }
        ensures seen { AtEachObject result.0.items
            (λ o x. All (λ p. IsPrefix (spot p.view o).known (O.history x)) passes.items) }
        ensures once { AtEachObject result.0.items (λ o x. (place : ℕ) → 0 < place
            → place ≤ length (O.history x) → own_total o place passes.items ≡ 1) }
        ensures no_other { AtEachObject result.0.items (λ o x. (place : ℕ)
            → (place ≡ 0) ⊎ (length (O.history x) < place) → own_total o place passes.items ≡ 0) }
        ensures looks { AtEachObject result.0.items (λ o x. All
            (λ p. LooksStand O.summed O.between p.view o (O.history x)) passes.items) }
        ensures entries { AtEachObject result.0.items
            (λ o x. All (λ p. EntriesStand p.view o (O.history x)) passes.items) }
        ensures carried { AtEachObject result.0.items
            (λ o x. All (λ p. EntriesCarry p.view o (O.history x)) passes.items) }
        ensures actions { All (λ p. ActionsStand p.view) passes.items }
        ensures followed { All
            (λ p. All (λ q. ActionsFollow p.view q.view) passes.items) passes.items }
        ensures rows { (length result.1 ≡ self.seats)
            × All (λ row. length row ≡ object_count self) result.1 }
        ensures fronts { All (λ p. (o : ℕ)
            → front_of result.1 p.view.number o ≡ (spot p.view o).front) passes.items }
        ensures within { AtEachObject result.0.items
            (λ o x. All (λ p. front_of result.1 p.view.number o ≤ length (O.history x))
            passes.items) }
    {
        let Desk {
            table,
            room,
            mut rows,
            sleepers: _,
        } = self;
        let seat = join_all(&table, &mut rows, passes);
        let objects = take_all(table.close_with(seat), room);
        (objects, Fronts { rows })
    }
}

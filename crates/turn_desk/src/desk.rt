ghost use Rattle.std.specs.Prelude.{◌≡◌, ◌*◌, ◌<◌, ◌≤◌, ◌^◌, true, IfOk, IfErr, length};
ghost use Rattle.turn_desk.specs.declared.view.Phase.TheVariants.{Free, Taken};
ghost use Rattle.love_base.specs.Prefix.{IsPrefix};
ghost use Rattle.turn_desk.specs.Grew.{Grew, nothing, released_at};
ghost use Rattle.turn_desk.specs.View.{spot, refused, published, freed};
ghost use Rattle.turn_desk.specs.Steps.{Continues, HasTaken, IsOther, TakesAfterRefusals, took};
ghost use Rattle.turn_desk.specs.Passes.{IsPassOf, fixed_at, object_count};

use crate::held::{Busy, Held};
use crate::kept::{forget, place_of, turn_by};
use crate::logged::Logged;
use crate::pass::Pass;
use crate::plays::{DeskTable, Give, Publish, Said, Take, TurnSeat};
use std::marker::{Brand, Model};
use std::sync::Wait;
use std::sync::atomic::{AtomicU64, Ordering};

/// Objects that threads take in turn: 1 to 1,026, numbered from 0. Threads share the desk by
/// reference.
#[derive(Drop)]
pub struct Desk<O: Logged> {
    pub(crate) table: DeskTable<O>,
    // Room for the objects that `close` gives.
    pub(crate) room: Vec<O>,
    // Room for the fronts that `close` gives: a row for each pass.
    pub(crate) rows: Vec<Vec<u32>>,
    // How many threads sleep in `hold` at each object, or are about to.
    pub(crate) sleepers: Vec<AtomicU64>,
}

impl<O: Logged> Model for Desk<O> {
    ghost use Rattle.std.specs.Prelude.{◌≡◌, ◌<◌, ◌≤◌, ◌*◌, [], length, vec_capacity};
    ghost use Rattle.turn_desk.specs.Passes.{DeskId};

    ghost Value = { DeskId };

    ghost view = { λ d. record { table = d.table.shared.table_id; seats = length d.rows.items } };

    ghost invariant = { λ d.
        (d.table.shared.table_id.words ≡ 8 * d.table.shared.table_id.slots)
        × (d.room.items ≡ [])
        × (d.table.shared.table_id.slots ≤ vec_capacity d.room)
        × (0 < length d.rows.items)
        × (length d.sleepers.items ≡ d.table.shared.table_id.slots)
        × (0 < d.table.shared.table_id.slots) };
}

// The turn word of an object; its tally word is the next one. The words of two objects share no
// line of the cache.
pub(crate) fn turn_word(object: usize) -> usize
    requires { object < 2 ^ 32 }
    ensures { result ≡ 8 * object }
{
    object * 8
}

impl<O: Logged> Desk<O> {
    // Takes the object's turn, if no other pass has it, and tells what was found.
    fn take(&self, seat: &mut TurnSeat<O>, object: u32, number: u64) -> u64
        requires own { seat.old.table_id ≡ self.now.table }
        requires object { object < object_count self.now }
        requires number { (number ≡ seat.old.me.0.number) × (0 < number) }
        requires ready { (0 < seat.old.me.0.seats) × (seat.old.me.0.awaited ≡ 0) }
        requires free { (spot seat.old.me.0 object).phase ≡ Free }
        ensures own { (seat.new.table_id ≡ seat.old.table_id) × (seat.new.id ≡ seat.old.id) }
        ensures took { took O.history O.fixed_number O.summed O.between
            object seat.old.me result seat.new.me }
    {
        let word = turn_word(object as usize);
        self.table
            .shared
            .compare_exchange::<Take>(seat, word, 0, number)
    }

    /// Takes an object, if no other pass has it, in one atomic step. Its history is neither copied
    /// nor walked. The pass is one of this desk, and doesn't have the object.
    ///
    /// # Errors
    ///
    /// The number of the pass that had it when this one asked. The refusal is noted, and nothing
    /// else changes.
    pub fn try_hold(&self, pass: &mut Pass<O>, object: u32) -> Result<Held<O>, Busy>
        requires own { pass.old.desk ≡ self.now }
        requires object { object < object_count self.now }
        requires free { (spot pass.old.view object).phase ≡ Free }
        ensures own { pass.new.desk ≡ pass.old.desk }
        ensures was_member { IsPassOf self.now pass.old }
        ensures member { IsPassOf self.now pass.new }
        ensures grew { Grew nothing pass.old.view pass.new.view }
        ensures object { IfOk result (λ h. h.object ≡ object) }
        ensures taken { IfOk result (λ h. TakesAfterRefusals
            pass.old.view object (O.history h.value) pass.new.view) }
        ensures at_once { IfOk result (λ h. pass.new.view.refused ≡ pass.old.view.refused) }
        ensures kept { IfOk result (λ h. HasTaken pass.new.view object (O.history h.value)) }
        ensures seen { IfOk result (λ h. Continues O.summed O.between
            pass.old.view object (O.history h.value)) }
        ensures replay { IfOk result
            (λ h. h.value ≡ O.replay (fixed_at pass.old.view object) (O.history h.value)) }
        ensures fixed { IfOk result (λ h. O.fixed_number h.value ≡ fixed_at pass.old.view object) }
        ensures between { IfOk result (λ h. O.between (O.history h.value) ≡ true) }
        ensures busy { IfErr result (λ b. pass.new.view ≡ refused object b.seat pass.old.view) }
        ensures other { IfErr result (λ b. IsOther pass.old.view b.seat) }
    {
        let slot = object as usize;
        let number = pass.number as u64;
        let found = self.take(&mut pass.seat, object, number);
        if found != 0 {
            return Err(Busy { seat: found as u32 });
        }
        let value = self
            .table
            .shared
            .exchange(&mut pass.seat, slot, None)
            .unwrap();
        pass.seat.turn();
        pass.kept.push_reserved(object);
        pass.fronts[slot] = value.length();
        Ok(Held { object, value })
    }

    /// Takes an object, and waits while another pass has it. Whether a wait ends is up to the other
    /// threads. Each pass that it waits for is noted, as `try_hold` notes a refusal.
    pub fn hold<R: Wait>(&self, rt: &R, pass: &mut Pass<O>, object: u32) -> Held<O>
        requires own { pass.old.desk ≡ self.now }
        requires object { object < object_count self.now }
        requires free { (spot pass.old.view object).phase ≡ Free }
        ensures own { pass.new.desk ≡ pass.old.desk }
        ensures was_member { IsPassOf self.now pass.old }
        ensures member { IsPassOf self.now pass.new }
        ensures grew { Grew nothing pass.old.view pass.new.view }
        ensures object { result.object ≡ object }
        ensures taken { TakesAfterRefusals
            pass.old.view object (O.history result.value) pass.new.view }
        ensures kept { HasTaken pass.new.view object (O.history result.value) }
        ensures seen { Continues O.summed O.between
            pass.old.view object (O.history result.value) }
        ensures replay { result.value
            ≡ O.replay (fixed_at pass.old.view object) (O.history result.value) }
        ensures fixed { O.fixed_number result.value ≡ fixed_at pass.old.view object }
        ensures between { O.between (O.history result.value) ≡ true }
    {
        for _ in rt.forever() {
            match self.try_hold(pass, object) {
                Ok(held) => return held,
                Err(busy) => self.sleep(rt, object, busy.seat),
            }
        }
        unreachable!()
    }

    // Sleeps while the object's turn word has this number. A thread is counted before it looks at
    // the word for the last time, and `release` frees the word before it looks at the count.
    fn sleep<R: Wait>(&self, rt: &R, object: u32, seat: u32)
        requires { object < object_count self.now }
    {
        let slot = object as usize;
        self.sleepers[slot].fetch_add(1, Ordering::SeqCst);
        self.table.shared.park(rt, turn_word(slot), seat);
        self.sleepers[slot].fetch_sub(1, Ordering::SeqCst);
    }

    // Writes the new tally. From this step on the object's history is published.
    fn publish<W: Said<O::Entry>>(&self, seat: &mut TurnSeat<O>, object: u32, value: &O)
        requires own { seat.old.table_id ≡ self.now.table }
        requires object { object < object_count self.now }
        requires said { W.log ≡ O.history value.now }
        requires taken { (spot seat.old.me.0 object).phase ≡ Taken }
        requires ready { seat.old.me.0.awaited ≡ 0 }
        requires grown { IsPrefix (spot seat.old.me.0 object).known (O.history value.now) }
        requires between { O.between (O.history value.now) ≡ true }
        ensures own { (seat.new.table_id ≡ seat.old.table_id) × (seat.new.id ≡ seat.old.id) }
        ensures published { seat.new.me ≡ (
          published object (O.history value.now) seat.old.me.0,
          seat.old.me.1,
        ) }
        ensures front { (spot seat.old.me.0 object).front ≤ length (O.history value.now) }
    {
        let tally = value.length() as u64 * (1 << 42) + value.summary();
        let word = turn_word(object as usize) + 1;
        self.table.shared.swap::<Publish<W>>(seat, word, tally);
    }

    /// Publishes what was changed in one atomic step, gives the object back in another, and wakes
    /// those that wait for it, by a call of the system where any thread sleeps at this object. The
    /// objects that this pass has are searched for this one, the last taken first.
    ///
    /// The object is one that this pass has. The history that it was taken with begins its history
    /// now, its fixed number is the same, and nobody is inside a section.
    pub fn release(&self, pass: &mut Pass<O>, held: Held<O>)
        requires own { pass.old.desk ≡ self.now }
        requires object { held.object < object_count self.now }
        requires taken { (spot pass.old.view held.object).phase ≡ Taken }
        requires grown { IsPrefix (spot pass.old.view held.object).known (O.history held.value) }
        requires fixed { O.fixed_number held.value ≡ fixed_at pass.old.view held.object }
        requires between { O.between (O.history held.value) ≡ true }
        ensures own { pass.new.desk ≡ pass.old.desk }
        ensures was_member { IsPassOf self.now pass.old }
        ensures member { IsPassOf self.now pass.new }
        ensures grew { Grew
            (released_at held.object (O.history held.value) pass.old.view)
            pass.old.view pass.new.view }
        ensures released { pass.new.view
            ≡ freed held.object (published held.object (O.history held.value) pass.old.view) }
        ensures front { (spot pass.old.view held.object).front ≤ length (O.history held.value) }
    {
        let Held { object, value } = held;
        let slot = object as usize;
        let word = turn_word(slot);
        let shared = &self.table.shared;
        self.publish::<Brand>(&mut pass.seat, object, &value);
        pass.fronts[slot] = value.length();
        let place = place_of(pass.kept.as_slice(), object);
        turn_by(&mut pass.seat, place);
        drop(shared.exchange(&mut pass.seat, slot, Some(value)));
        shared.swap::<Give>(&mut pass.seat, word, 0);
        forget(&mut pass.kept, place);
        turn_by(&mut pass.seat, pass.kept.len() - place);
        if self.sleepers[slot].load(Ordering::SeqCst) > 0 {
            shared.wake_all(word);
        }
    }
}

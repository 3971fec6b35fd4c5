//! Making a desk: its table is vacant at first, the number of passes is brought, then each object
//! is put in with its fixed number, and then the passes are made.
ghost use Rattle.std.specs.Prelude.{◌≡◌, ◌<◌, ◌≤◌, ◌+◌, ◌*◌, true, [], All, IfOk, length, map, replicate, vec_len};
ghost use Rattle.turn_desk.specs.declared.view.Phase.TheVariants.{Free};
ghost use Rattle.turn_desk.specs.Passes.{object_count};
ghost use Rattle.turn_desk.specs.View.{spot, received, brought, freed, seated, opening};
ghost use Rattle.turn_desk.specs.Opening.{AreFree, IsNew, opening_passes};
ghost use Rattle.turn_desk.specs.Passes.{IsPassOf};

use crate::desk::{Desk, turn_word};
use crate::logged::Logged;
use crate::pass::Pass;
use crate::plays::{BringNumber, BringSeats, DeskTable, Give, MakeOne, Said, TakeVacant, TurnSeat};
use atomic_table::Table;
use love_base::Memory;
use std::alloc::Global;
use std::marker::Brand;
use std::sync::atomic::AtomicU64;

// The words of a desk of free objects with empty histories: all 0 but the tallies.
fn free_words(alloc: Global, objects: usize, summary: u64) -> Result<Vec<u64>, Memory>
    requires { objects ≤ 1026 }
    ensures { IfOk result (λ words. AreFree objects summary words.items) }
{
    let mut words = Vec::from_elem(alloc, 0, objects * 8)?;
    for object in 0..objects {
        words[turn_word(object) + 1] = summary;
    }
    Ok(words)
}

// A count of sleepers for each object.
fn no_sleepers(alloc: Global, objects: usize) -> Result<Vec<AtomicU64>, Memory>
    ensures { IfOk result (λ counts. vec_len counts ≡ objects) }
{
    let mut counts = Vec::with_capacity(alloc, objects)?;
    for _ in 0..objects {
        counts.push(AtomicU64::new(0))?;
    }
    Ok(counts)
}

// An empty row for the fronts of each pass.
fn empty_rows(alloc: Global, seats: usize) -> Result<Vec<Vec<u32>>, Memory>
    ensures { IfOk result (λ rows. vec_len rows ≡ seats) }
{
    let mut rows = Vec::with_capacity(alloc, seats)?;
    for _ in 0..seats {
        rows.push(Vec::new(alloc))?;
    }
    Ok(rows)
}

// Brings the number of passes into the first view. It is passed for the proof alone.
fn bring_seats<O: Logged, W: Said<O::Entry>>(
    table: &DeskTable<O>,
    seat: &mut TurnSeat<O>,
    _seats: u32,
)
    requires own { seat.old.table_id ≡ table.now.shared.table_id }
    requires word { 0 < table.now.shared.table_id.words }
    requires said { W.number ≡ _seats }
    requires few { (0 < _seats) × (_seats ≤ 17) }
    requires first { (0 < seat.old.me.0.number) × (seat.old.me.0.next ≡ 2)
        × (seat.old.me.0.seats ≡ 0) }
    ensures own { seat.new.table_id ≡ seat.old.table_id }
    ensures brought { seat.new.me ≡ (seated _seats seat.old.me.0, seat.old.me.1) }
{
    table.shared.load::<BringSeats<W>>(seat, 0);
}

// Puts an object in, with its fixed number.
fn put_in<O: Logged, W: Said<O::Entry>>(
    table: &DeskTable<O>,
    seat: &mut TurnSeat<O>,
    object: usize,
    value: O,
)
    requires own { seat.old.table_id ≡ table.now.shared.table_id }
    requires object { (object < table.now.shared.table_id.slots) × (object < 1026)
        × (table.now.shared.table_id.words ≡ 8 * table.now.shared.table_id.slots) }
    requires said { (W.object ≡ object) × (W.number ≡ O.fixed_number value) }
    requires fresh { O.history value ≡ [] }
    requires first { (seat.old.me.0.number ≡ 1) × (seat.old.me.0.next ≡ 2)
        × (seat.old.me.0.awaited ≡ object + 1) × (seat.old.me.0.handed ≡ []) }
    requires wide { (length seat.old.me.0.spots ≡ table.now.shared.table_id.slots)
        × (length seat.old.me.0.fixed ≡ table.now.shared.table_id.slots) }
    requires free { (spot seat.old.me.0 object).phase ≡ Free }
    ensures own { seat.new.table_id ≡ seat.old.table_id }
    ensures put { seat.new.me
        ≡ (
          freed object (brought object (O.fixed_number value) (received object [] seat.old.me.0)),
          seat.old.me.1,
        ) }
{
    let word = turn_word(object);
    table
        .shared
        .compare_exchange::<TakeVacant>(seat, word, 0, 1);
    table.shared.load::<BringNumber<W>>(seat, 0);
    drop(table.shared.exchange(seat, object, Some(value)));
    table.shared.swap::<Give>(seat, word, 0);
}

// Puts all objects in, the last first.
fn put_all<O: Logged>(table: &DeskTable<O>, seat: &mut TurnSeat<O>, mut objects: Vec<O>)
    requires own { seat.old.table_id ≡ table.now.shared.table_id }
    requires count { (vec_len objects ≡ table.now.shared.table_id.slots)
        × (vec_len objects ≤ 1026)
        × (table.now.shared.table_id.words ≡ 8 * table.now.shared.table_id.slots) }
    requires fresh { All (λ x. O.history x ≡ []) objects.items }
    requires first { seat.old.me ≡ (
      opening 1 2
          seat.old.me.0.seats (vec_len objects) (replicate (vec_len objects) 0),
      [],
    ) }
    ensures own { seat.new.table_id ≡ seat.old.table_id }
    ensures full { seat.new.me ≡ (
      opening 1 2 seat.old.me.0.seats 0
          (map O.fixed_number objects.items),
      [],
    ) }
{
    while let Some(value) = objects.pop() {
        put_in::<O, Brand>(table, seat, objects.len(), value);
    }
}

// The pass of a seat that was just made, with room for what it will have.
fn make_pass<O: Logged>(
    alloc: Global,
    seat: TurnSeat<O>,
    number: u32,
    objects: usize,
) -> Result<Pass<O>, Memory>
    requires made { IsNew number seat.table_id seat.me }
    requires objects { objects ≡ seat.table_id.slots }
    ensures { IfOk result
        (λ p. p ≡ record {
          desk = record {
            table = seat.table_id;
            seats =
                seat.me.0.seats;
          };
          view = seat.me.0;
        }) }
{
    let fronts = Vec::from_elem(alloc, 0, objects)?;
    let kept = Vec::with_capacity(alloc, objects)?;
    Ok(Pass {
        seat,
        number,
        fronts,
        kept,
    })
}

// Makes the passes. The first one's seat makes the others.
fn deal<O: Logged>(
    alloc: Global,
    table: &DeskTable<O>,
    mut seat: TurnSeat<O>,
    seats: u32,
) -> Result<Vec<Pass<O>>, Memory>
    requires own { (seat.table_id ≡ table.now.shared.table_id)
        × (0 < table.now.shared.table_id.words) }
    requires few { (0 < seats) × (seats ≤ 17) }
    requires first { seat.me ≡ (opening 1 2 seats 0 seat.me.0.fixed, []) }
    requires wide { length seat.me.0.fixed ≡ table.now.shared.table_id.slots }
    ensures { IfOk result
        (λ passes. passes.items ≡ opening_passes (record {
          table =
              seat.table_id;
          seats = seats;
        }) seat.me.0.fixed) }
{
    let objects = table.slot_count();
    let mut passes = Vec::with_capacity(alloc, seats as usize)?;
    for others in 0..seats - 1 {
        let other = table.shared.split_seat::<MakeOne>(&mut seat);
        let pass = make_pass(alloc, other, others + 2, objects)?;
        passes.push(pass)?;
    }
    let first = make_pass(alloc, seat, 1, objects)?;
    passes.insert(0, first)?;
    Ok(passes)
}

impl<O: Logged> Desk<O> {
    /// A desk of 1 to 1,026 objects and its 1 to 17 passes, numbered from 1, in order. The objects
    /// have empty histories and stay in their order, and `seats` is the number of passes.
    ///
    /// Takes the room for all that the desk's other calls need.
    ///
    /// # Errors
    ///
    /// There was no memory for that. The objects are dropped then.
    pub fn new(
        alloc: Global,
        objects: Vec<O>,
        seats: u32,
    ) -> Result<(Desk<O>, Vec<Pass<O>>), Memory>
        requires objects { (0 < vec_len objects) × (vec_len objects ≤ 1026) }
        requires seats { (0 < seats) × (seats ≤ 17) }
        requires fresh { All (λ x. O.history x ≡ []) objects.items }
        requires between { All (λ x. O.between (O.history x) ≡ true) objects.items }
        ensures objects { IfOk result (λ made. object_count made.0 ≡ vec_len objects) }
        ensures seats { IfOk result (λ made. made.0.seats ≡ seats) }
        ensures passes { IfOk result
            (λ made. made.1.items ≡ opening_passes made.0 (map O.fixed_number objects.items)) }
        ensures members { IfOk result (λ made. All (IsPassOf made.0) made.1.items) }
    {
        let count = objects.len();
        let words = free_words(alloc, count, objects[0].summary())?;
        let room = Vec::with_capacity(alloc, count)?;
        let rows = empty_rows(alloc, seats as usize)?;
        let sleepers = no_sleepers(alloc, count)?;
        let (table, mut seat) = Table::vacant(alloc, words.as_slice(), count, &count)?;
        bring_seats::<O, Brand>(&table, &mut seat, seats);
        put_all(&table, &mut seat, objects);
        let passes = deal(alloc, &table, seat, seats)?;
        Ok((
            Desk {
                table,
                room,
                rows,
                sleepers,
            },
            passes,
        ))
    }
}

//! Where the locals in scope stand (Lua 5.1 manual §2.6).

ghost use Rattle.std.specs.Prelude.{◌≡◌, [], ◌∷◌, None, OnOk, OnErr, IfSome};
ghost use Rattle.lua_code.specs.Scope.{slot_count, cell_count, seat_of};
ghost use Rattle.lua_assembler.specs.Seats.{entry_view, seat_view, seat_place, has_name, place_behind};

use love_base::{Memory, Text};
use std::alloc::Global;
use std::marker::Model;

/// An entry of a scope.
#[derive(Clone, Copy)]
pub enum Entry<'a> {
    /// A local of the running function, in a slot.
    Slot(&'a Text),
    /// A local of the running function that functions inside it use, in a cell beside its slot.
    Cell(&'a Text),
    /// A local of a function around the running one, in a cell.
    Outside(&'a Text),
    /// A slot of a loop that has no name.
    Hidden,
}

/// Where a local is found.
#[derive(Clone, Copy, PartialEq, Eq)]
pub enum Seat {
    /// In a slot, counted from the frame's first one.
    Slot(u32),
    /// In a cell, counted from the running function's first one.
    Cell(u32),
}

/// The locals in scope, the last one last (Lua 5.1 manual §2.6). Contracts see it as the scope that
/// it is.
#[derive(Drop)]
pub struct Scope<'a> {
    entries: Vec<Entry<'a>>,
    slots: u32,
    cells: u32,
}

impl<'a> Model for Scope<'a> {
    ghost use Rattle.std.specs.Prelude.{◌≡◌, map, reverse};
    ghost use Rattle.lua_code.specs.Scope.{Scope as Locals, slot_count, cell_count};
    ghost use Rattle.lua_assembler.specs.Seats.{entry_view};

    ghost Value = { Locals };

    ghost view = { λ s. reverse (map entry_view s.entries.items) };

    ghost invariant = { λ s.
        (s.slots ≡ slot_count (reverse (map entry_view s.entries.items)))
        × (s.cells ≡ cell_count (reverse (map entry_view s.entries.items))) };
}

impl<'a> Scope<'a> {
    /// No locals.
    pub fn new(alloc: Global) -> Scope<'a>
        ensures { result ≡ [] }
    {
        Scope {
            entries: Vec::new(alloc),
            slots: 0,
            cells: 0,
        }
    }

    /// How many slots the locals in scope have, in constant time.
    pub fn slots(&self) -> u32
        ensures { result ≡ slot_count self.now }
    {
        self.slots
    }

    /// How many cells the running function has, in constant time.
    pub fn cells(&self) -> u32
        ensures { result ≡ cell_count self.now }
    {
        self.cells
    }

    /// With one more local, or a slot without a name, in amortised constant time.
    ///
    /// # Errors
    ///
    /// [`Memory`] where there is no room for it, or no number. The scope is then as it was.
    pub fn add(&mut self, entry: Entry<'a>) -> Result<(), Memory>
        ensures ok { OnOk result (self.new ≡ entry_view entry.entry ∷ self.old) }
        ensures refused { OnErr result (self.new ≡ self.old) }
    {
        let (Some(slots), Some(cells)) = (
            self.slots.checked_add(slots_of(entry)),
            self.cells.checked_add(cells_of(entry)),
        ) else {
            return Err(Memory);
        };
        self.entries.push(entry)?;
        self.slots = slots;
        self.cells = cells;
        Ok(())
    }

    /// Takes the last entry out of scope; none where there is none.
    pub fn pop(&mut self) -> Option<Entry<'a>>
        ensures none { result ≡ None → self.old ≡ [] }
        ensures some { IfSome result (λ entry. self.old ≡ entry_view entry ∷ self.new) }
        ensures stays { result ≡ None → self.new ≡ self.old }
    {
        let Some(entry) = self.entries.pop() else {
            return None;
        };
        self.slots -= slots_of(entry);
        self.cells -= cells_of(entry);
        Some(entry)
    }

    /// Where the local of a name is, the last one of that name; none where it is a field of the
    /// globals. Takes time in proportion to the locals behind it.
    pub fn seat(&self, name: &Text) -> Option<Seat>
        ensures { seat_view result ≡ seat_of self.now name.now }
    {
        let mut at = self.entries.len();
        let mut slots = self.slots;
        let mut cells = self.cells;
        'entries: while at > 0 {
            at -= 1;
            let entry = self.entries[at];
            slots -= slots_of(entry);
            cells -= cells_of(entry);
            if is_named(entry, name) {
                return Some(seat_behind(entry, slots, cells));
            }
        }
        None
    }
}

// How many slots an entry has.
fn slots_of(entry: Entry) -> u32
    ensures { result ≡ slot_count (entry_view entry.entry ∷ []) }
{
    match entry {
        Entry::Outside(_) => 0,
        _ => 1,
    }
}

// How many cells an entry has.
fn cells_of(entry: Entry) -> u32
    ensures { result ≡ cell_count (entry_view entry.entry ∷ []) }
{
    match entry {
        Entry::Cell(_) | Entry::Outside(_) => 1,
        _ => 0,
    }
}

// Whether an entry is the local of a name.
fn is_named(entry: Entry, name: &Text) -> bool
    ensures { result ≡ has_name (entry_view entry.entry) name.now }
{
    match entry {
        Entry::Slot(own) | Entry::Cell(own) | Entry::Outside(own) => own.bytes() == name.bytes(),
        Entry::Hidden => false,
    }
}

// Where a local is that has so many slots and cells before it.
fn seat_behind(entry: Entry, slots: u32, cells: u32) -> Seat
    ensures { seat_place result ≡ place_behind (entry_view entry.entry) slots cells }
{
    match entry {
        Entry::Cell(_) | Entry::Outside(_) => Seat::Cell(cells),
        _ => Seat::Slot(slots),
    }
}

//! The desk rule as the rule of a table, and what each kind of step tells the pass that makes it.
ghost use Rattle.std.specs.Prelude.{ℕ, List, [], replicate};
ghost use Rattle.turn_desk.specs.Rule.{Desked};
ghost use Rattle.turn_desk.specs.Steps.{at_turn, at_tally, took, took_vacant, seats_brought, number_brought, put_out, gave, saw};
ghost use Rattle.turn_desk.specs.View.{makes_one, newcomer, both, spent, opening};

use crate::logged::Logged;
use crate::view::View;
use atomic_table::{Join, Play, Seat, Split, Table, TableRule};
use std::alloc::Global;
use std::marker::{Brand, PhantomData};

// The rule of a desk. The key is the number of objects.
pub(crate) struct Turns;

pub(crate) type DeskTable<O> = Table<Option<O>, View<<O as Logged>::Entry>, usize, Turns, Global>;

pub(crate) type TurnSeat<O> = Seat<Option<O>, View<<O as Logged>::Entry>>;

impl<O: Logged> TableRule<Option<O>, View<O::Entry>, usize> for Turns {
    ghost holds = { λ _. Desked O.history O.fixed_number O.summed O.between };

    ghost first = { λ objects. opening 1 2 0 objects (replicate objects 0) };
}

// What a step says beside the number that it writes, for the proof alone.
pub(crate) trait Said<E> {
    ghost object: { ℕ };

    ghost number: { ℕ };

    ghost log: { List E };
}

impl<E> Said<E> for Brand {
    ghost object = { 0 };

    ghost number = { 0 };

    ghost log = { [] };
}

// Set up: the number of passes is brought into the first view.
pub(crate) struct BringSeats<W> {
    said: PhantomData<W>,
}

impl<O: Logged, W: Said<O::Entry>> Play<Option<O>, View<O::Entry>> for BringSeats<W> {
    ghost then = { seats_brought W.number };
}

// Set up: the fixed number of an object is brought into the first view.
pub(crate) struct BringNumber<W> {
    said: PhantomData<W>,
}

impl<O: Logged, W: Said<O::Entry>> Play<Option<O>, View<O::Entry>> for BringNumber<W> {
    ghost then = { number_brought W.object W.number };
}

// The take of an object that hasn't been put in yet.
pub(crate) struct TakeVacant;

impl<O: Logged> Play<Option<O>, View<O::Entry>> for TakeVacant {
    ghost then = { at_turn took_vacant };
}

// Take.
pub(crate) struct Take;

impl<O: Logged> Play<Option<O>, View<O::Entry>> for Take {
    ghost then = { at_turn (took O.history O.fixed_number O.summed O.between) };
}

// Publish.
pub(crate) struct Publish<W> {
    said: PhantomData<W>,
}

impl<O: Logged, W: Said<O::Entry>> Play<Option<O>, View<O::Entry>> for Publish<W> {
    ghost then = { at_tally (put_out W.log) };
}

// Give.
pub(crate) struct Give;

impl<O: Logged> Play<Option<O>, View<O::Entry>> for Give {
    ghost then = { at_turn gave };
}

// Look.
pub(crate) struct Glimpse;

impl<O: Logged> Play<Option<O>, View<O::Entry>> for Glimpse {
    ghost then = { at_tally (saw O.summed O.between) };
}

// Split: a pass is made.
pub(crate) struct MakeOne;

impl<E> Split<View<E>> for MakeOne {
    ghost left = { makes_one };

    ghost right = { newcomer };
}

// Join: a pass is given up.
pub(crate) struct GiveUp;

impl<E> Join<View<E>> for GiveUp {
    ghost both = { both };

    ghost spent = { spent };
}

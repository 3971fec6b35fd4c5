use crate::logged::Logged;
use crate::plays::TurnSeat;
use std::marker::Model;

/// The right to take turns at one desk. Each thread has its own. One that is dropped can't be given
/// back, and then the desk can't be closed.
#[derive(Drop)]
pub struct Pass<O: Logged> {
    pub(crate) seat: TurnSeat<O>,
    // From 1 to the desk's number of passes.
    pub(crate) number: u32,
    // The greatest length of each object's history that this pass has seen.
    pub(crate) fronts: Vec<u32>,
    // The objects that this pass has, in the order in which their slots lie in its seat.
    pub(crate) kept: Vec<u32>,
}

impl<O: Logged> Model for Pass<O> {
    ghost use Rattle.std.specs.Prelude.{vec_capacity};
    ghost use Rattle.turn_desk.specs.Passes.{Standing, Keeps};

    ghost Value = { Standing O.Entry };

    ghost view = { λ p. record {
      desk = record { table = p.seat.table_id; seats = p.seat.me.0.seats };
      view = p.seat.me.0;
    } };

    ghost invariant = { λ p.
        Keeps p.number p.fronts.items p.kept.items
        (vec_capacity p.kept) p.seat.table_id p.seat.me };
}

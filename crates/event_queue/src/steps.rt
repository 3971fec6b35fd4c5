//! The queue's rule as the rule of the ruled queue, and what each kind of step tells the pass that
//! makes it.
ghost use Rattle.std.specs.Prelude.{◌≡◌, List, [], ◌∷◌};
ghost use Rattle.variant.specs.declared.event.Event.TheVariants.{ThreadError};
ghost use Rattle.variant.specs.declared.event.Sent.{Sent};
ghost use Rattle.event_queue.specs.Rule.{Queued, Stood};
ghost use Rattle.event_queue.specs.Views.{both, first_view, gave, makes_one, newcomer, popped, pushed, spent};

use crate::view::View;
use crossbeam_queue::protocol::{Join, Lesson, Outcome, Protocol, Split};
use crossbeam_queue::{RuledSegQueue, SegPass};
use std::marker::{Brand, PhantomData};
use variant::Sent;

// The rule of an event queue.
pub(crate) struct Routes;

pub(crate) type RuledQueue = RuledSegQueue<Sent, View, Routes>;

pub(crate) type RuledPass = SegPass<Sent, View>;

impl Protocol<Sent, View> for Routes {
    ghost holds = { Queued };

    ghost first = { first_view };
}

// An event that a step speaks of, for the proof alone.
pub(crate) trait Spoken {
    ghost event: { Sent };
}

impl Spoken for Brand {
    ghost event = { record { from = 0; number = 0; event = ThreadError 0 [] } };
}

// An event is pushed to the ruled queue.
pub(crate) struct Push;

impl Outcome<Sent, View> for Push {
    ghost then = { λ v x w. w ≡ pushed x v };
}

// The oldest event is popped from it, or nothing is there.
pub(crate) struct Pop;

impl Outcome<Sent, View> for Pop {
    ghost then = { λ v x w. (w ≡ popped x v) × ((rest : List Sent) × Stood (x ∷ rest) v) };
}

impl Lesson<Sent, View> for Pop {
    ghost fact = { λ v items. Stood items v };
}

// An event that the pass kept is given.
pub(crate) struct Give<W> {
    spoken: PhantomData<W>,
}

impl<W: Spoken> Split<View> for Give<W> {
    ghost left = { gave W.event };

    ghost right = { λ _. spent };
}

// A pass is made.
pub(crate) struct MakeOne;

impl Split<View> for MakeOne {
    ghost left = { makes_one };

    ghost right = { newcomer };
}

// A pass is given up.
pub(crate) struct GiveUp;

impl Join<View> for GiveUp {
    ghost both = { both };

    ghost spent = { spent };
}

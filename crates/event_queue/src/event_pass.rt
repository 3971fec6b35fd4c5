ghost use Rattle.std.specs.Prelude.{◌≡◌, ◌<◌, ◌≤◌};

use crate::steps::RuledPass;
use std::collections::VecDeque;
use std::marker::Model;
use variant::Sent;

/// The right to send events to one queue, and with pass 1 to poll them. Each thread has its own.
/// One that is dropped can't be given back, and then the queue can't tell what is left.
#[derive(Drop)]
pub struct EventPass {
    pub(crate) seat: RuledPass,
    // From 1 to the queue's number of passes.
    pub(crate) number: u32,
    // The queue's number of passes.
    pub(crate) passes: u32,
    pub(crate) empties: u64,
    // What was sent through pass 1 and not polled yet. Other passes keep nothing.
    pub(crate) kept: VecDeque<Sent>,
}

impl Model for EventPass {
    ghost use Rattle.std.specs.Prelude.{◌≡◌, None};
    ghost use Rattle.std.specs.Coded.{codes};
    ghost use Rattle.variant.specs.contracts.message.Variant as message;
    ghost use Rattle.event_queue.specs.Passes.{PassView, seen};
    ghost use Rattle.event_queue.specs.Ready.{IsReady};

    ghost Value = { PassView };

    ghost coded = { Prim.hlevel (codes, message.the_row.coded) };

    ghost view = { λ p.
        seen (record {
          ruled = record { web = p.seat.web; heap = p.seat.heap };
          passes = p.passes;
        }) p.number p.empties p.kept.items p.seat.me.view.client };

    ghost invariant = { λ p.
        IsReady p.number p.passes p.kept.items p.seat.me.view.client
        × (p.seat.me.hand ≡ None) × (p.seat.me.spare ≡ None) };
}

impl EventPass {
    /// The pass's number, from 1. Takes no memory.
    pub fn number(&self) -> u32
        ensures number { result ≡ self.now.number }
        ensures least { 0 < result }
        ensures most { result ≤ self.now.queue.passes }
    {
        self.number
    }

    /// How many of the polls through this pass found nothing; `u64::MAX` stands for that many or
    /// more. Takes no memory.
    pub fn empties(&self) -> u64
        ensures { result ≡ self.now.empties }
    {
        self.empties
    }
}

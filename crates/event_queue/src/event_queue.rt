ghost use Rattle.std.specs.Prelude.{◌≡◌, ◌⊎◌, ◌++◌, OnOk, OnErr, IfErr, IfSome, IfNone};
ghost use Rattle.std.specs.Option.{option_to_list};
ghost use Rattle.crossbeam_queue.specs.SegTies.{IsSegPassOf};
ghost use Rattle.event_queue.specs.Views.{gave};
ghost use Rattle.event_queue.specs.Passes.{after_send, empties_after, GivesFront, GivesKept, FindsNothing};

use crate::event_pass::EventPass;
use crate::steps::{Give, Pop, Push, RuledPass, RuledQueue, Spoken};
use love_base::Memory;
use std::alloc::Global;
use std::marker::{Brand, Model};
use std::sync::Wait;
use variant::Sent;

/// A queue of events, with 1 to 17 passes. Threads share it by reference.
pub struct EventQueue {
    pub(crate) ruled: RuledQueue,
    pub(crate) passes: u32,
    pub(crate) alloc: Global,
}

impl Model for EventQueue {
    ghost use Rattle.std.specs.Prelude.{◌<◌};
    ghost use Rattle.event_queue.specs.Passes.{QueueId};

    ghost Value = { QueueId };

    ghost view = { λ q. record { ruled = q.ruled; passes = q.passes } };

    ghost invariant = { λ q. 0 < q.passes };
}

impl Drop for EventQueue {
    fn drop(self) {
        let EventQueue {
            ruled,
            passes: _,
            alloc: _,
        } = self;
        ruled.destroy();
    }
}

impl EventQueue {
    /// Sends an event. Through pass 1 it is put behind those that the pass keeps; through any other
    /// pass it is pushed to the ruled queue, which may try a step again where other threads push.
    ///
    /// # Errors
    ///
    /// The event again, with [`Memory`], where there is no room for it, or where nearly 2^62 events
    /// were pushed.
    pub fn send<R: Wait>(
        &self,
        rt: &R,
        pass: &mut EventPass,
        sent: Sent,
    ) -> Result<(), (Sent, Memory)>
        requires own { pass.old.queue ≡ self.now }
        ensures sent { OnOk result (pass.new ≡ after_send sent pass.old) }
        ensures unchanged { OnErr result (pass.new ≡ pass.old) }
        ensures returned { IfErr result (λ refused. refused.0 ≡ sent) }
    {
        if pass.number == 1 {
            return match pass.kept.push_back(sent) {
                Ok(()) => Ok(()),
                Err(refused) => Err((refused.value, Memory)),
            };
        }
        match self.ruled.push_as::<Push, R>(rt, &mut pass.seat, sent) {
            Ok(()) => Ok(()),
            Err(sent) => Err((sent, Memory)),
        }
    }

    // Notes that an event is given that pass 1 kept. It is passed for the proof alone.
    fn note_given<W: Spoken>(&self, seat: &mut RuledPass, _event: &Sent)
        requires own { IsSegPassOf self.now.ruled seat.old }
        requires spoken { W.event ≡ _event.now }
        requires first { seat.old.me.view.client.number ≡ 1 }
        ensures own { IsSegPassOf self.now.ruled seat.new }
        ensures given { seat.new.me.view.client ≡ gave _event.now seat.old.me.view.client }
    {
        self.ruled.another::<Give<W>>(seat);
    }

    /// Polls an event through pass 1: the oldest in the ruled queue, or where that gave nothing the
    /// oldest that the pass keeps. `None` comes only where the ruled queue was empty at a step of
    /// this call and the pass keeps nothing. Takes no memory, and may try a step again where other
    /// threads push.
    pub fn poll<R: Wait>(&self, rt: &R, pass: &mut EventPass) -> Option<Sent>
        requires own { pass.old.queue ≡ self.now }
        requires first { pass.old.number ≡ 1 }
        ensures own { pass.new.queue ≡ pass.old.queue }
        ensures number { pass.new.number ≡ pass.old.number }
        ensures sent { pass.new.sent ≡ pass.old.sent }
        ensures polled { pass.new.polled ≡ pass.old.polled ++ option_to_list result }
        ensures given { IfSome result
            (λ x. GivesFront pass.old x pass.new ⊎ GivesKept pass.old x pass.new) }
        ensures nothing { IfNone result (FindsNothing pass.old pass.new) }
        ensures empties { pass.new.empties ≡ empties_after result pass.old.empties }
    {
        if let Some(event) = self.ruled.pop_as::<Pop, R>(rt, &mut pass.seat) {
            return Some(event);
        }
        let Some(event) = pass.kept.pop_front() else {
            pass.empties = pass.empties.saturating_add(1);
            return None;
        };
        self.note_given::<Brand>(&mut pass.seat, &event);
        Some(event)
    }
}

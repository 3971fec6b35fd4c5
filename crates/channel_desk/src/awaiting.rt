//! The wait for the receipt of a message.
ghost use Rattle.std.specs.Prelude.{◌≡◌, ◌≢◌, ◌+◌, ◌<◌, ◌≤◌, ◌^◌, IfOk, IfSome, IfNone, OnOk, OnErr, OnSome, Err};
ghost use Rattle.variant.specs.declared.action.Stop.{Stop as AStop};
ghost use Rattle.variant.specs.declared.ask.Ask.TheVariants.{Await as AskAwait};
ghost use Rattle.channel_desk.specs.declared.fault.ActFault.TheVariants.{Stopped as WasStopped, Memory as OutOfMemory};
ghost use Rattle.channel_desk.specs.Awaiting.{Awaited, IsStoppedAwaiting};
ghost use Rattle.channel_desk.specs.Holding.{IsHolding};
ghost use Rattle.channel_desk.specs.Turns.{Waited};

use crate::acting::asked;
use crate::fault::ActFault;
use crate::given::only;
use crate::pacing::{first_reading, readings_past, wait_on};
use crate::sections::{Section, Sections};
use crate::unanswered::unanswered;
use love_base::{ChannelNo, Pacer};
use std::sync::Wait;
use variant::{Action, Ask, Reply};

impl Sections<'_, Vec<Section>> {
    // One look at whether the message was received.
    fn await_round<R: Wait, P: Pacer>(
        &mut self,
        rt: &R,
        pacer: &P,
        first: Option<u64>,
        channel: ChannelNo,
        id: u32,
        limit: Option<u32>,
    ) -> Result<Option<Action>, ActFault>
        requires holding { IsHolding self.old.desk.now self.old.state self.old.next
            self.old.pass.now self.old.held.items }
        requires next { self.old.next + 1 < 2 ^ 32 }
        requires shown { IfSome first (λ n. P.shows pacer.now n) }
        ensures same { self.new.pass.ghost_name ≡ self.old.pass.ghost_name }
        ensures desk { self.new.desk.now ≡ self.old.desk.now }
        ensures state { self.new.state ≡ self.old.state }
        ensures items { self.new.held.items ≡ self.old.held.items }
        ensures holding { IsHolding self.new.desk.now self.new.state self.new.next
            self.new.pass.now self.new.held.items }
        ensures waited { Waited self.old.pass.now.view self.new.pass.now.view }
        ensures next { IfOk result (λ found. OnSome found (self.new.next ≡ self.old.next + 1)) }
        ensures stays { IfOk result (λ found. IfNone found (self.new.next ≡ self.old.next)) }
        ensures kept { OnErr result (self.new.next ≡ self.old.next) }
        ensures awaited { IfOk result (λ found. IfSome found (λ a. Awaited (P.shows pacer.now)
            (record { state = self.old.state; number = self.old.next })
            self.old.pass.now.view self.new.pass.now.view
            self.old.held.items (AskAwait channel id limit) a)) }
        ensures stopped { (stop : AStop) → result ≡ Err (WasStopped stop)
            → IsStoppedAwaiting self.old.state
            self.old.pass.now.view self.new.pass.now.view self.old.held.items
            (AskAwait channel id limit) stop }
        ensures no_memory { result ≢ Err OutOfMemory }
    {
        let late = readings_past(pacer, first, limit);
        let ended = self.end_seen(rt);
        let object = channel.get();
        let sight = self.sight(object);
        let by = self.stamp();
        let ask = Ask::Await(channel, id, limit);
        if id <= sight.received {
            self.next += 1;
            let given = only(Reply::Flag(true));
            return Ok(Some(asked(by, object, sight.place, ask, given)));
        }
        match unanswered(by, object, sight.place, ask, ended, late) {
            Ok(Some(action)) => {
                self.next += 1;
                Ok(Some(action))
            }
            Ok(None) => Ok(None),
            Err(fault) => Err(fault),
        }
    }

    /// Waits until the message of this id was received from the Channel, and answers true then. With
    /// a limit, in seconds, it answers false where none of the readings of the pacer is in time any
    /// more: it carries the first reading and the last. It takes no memory, and no turn at the
    /// Channel. Whether a wait ends is up to the other threads.
    ///
    /// # Errors
    ///
    /// [`ActFault::Stopped`] where state 0 has ended, and the message wasn't received.
    pub fn await_read<R: Wait, P: Pacer>(
        &mut self,
        rt: &R,
        pacer: &P,
        channel: ChannelNo,
        id: u32,
        limit: Option<u32>,
    ) -> Result<Action, ActFault>
        requires holding { IsHolding self.old.desk.now self.old.state self.old.next
            self.old.pass.now self.old.held.items }
        requires next { self.old.next + 1 < 2 ^ 32 }
        ensures same { self.new.pass.ghost_name ≡ self.old.pass.ghost_name }
        ensures desk { self.new.desk.now ≡ self.old.desk.now }
        ensures state { self.new.state ≡ self.old.state }
        ensures items { self.new.held.items ≡ self.old.held.items }
        ensures holding { IsHolding self.new.desk.now self.new.state self.new.next
            self.new.pass.now self.new.held.items }
        ensures waited { Waited self.old.pass.now.view self.new.pass.now.view }
        ensures next { OnOk result (self.new.next ≡ self.old.next + 1) }
        ensures kept { OnErr result (self.new.next ≡ self.old.next) }
        ensures awaited { IfOk result (λ a. Awaited (P.shows pacer.now)
            (record { state = self.old.state; number = self.old.next })
            self.old.pass.now.view self.new.pass.now.view
            self.old.held.items (AskAwait channel id limit) a) }
        ensures stopped { (stop : AStop) → result ≡ Err (WasStopped stop)
            → IsStoppedAwaiting self.old.state
            self.old.pass.now.view self.new.pass.now.view self.old.held.items
            (AskAwait channel id limit) stop }
        ensures no_memory { result ≢ Err OutOfMemory }
    {
        let first = first_reading(pacer, limit);
        for _ in rt.forever() {
            let heard = self.bell.number(rt);
            match self.await_round(rt, pacer, first, channel, id, limit) {
                Ok(Some(action)) => return Ok(action),
                Ok(None) => wait_on(rt, self.bell, heard, pacer, limit),
                Err(fault) => return Err(fault),
            }
        }
        unreachable!()
    }
}

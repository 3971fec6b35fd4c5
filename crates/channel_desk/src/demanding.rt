//! Demands: a message is received, after a wait where there is none.
ghost use Rattle.std.specs.Prelude.{◌≡◌, ◌≢◌, ◌+◌, ◌<◌, ◌≤◌, ◌^◌, true, false, IfOk, IfSome, IfNone, OnOk, OnErr, OnSome, Err};
ghost use Rattle.variant.specs.declared.action.Stop.{Stop as AStop};
ghost use Rattle.variant.specs.declared.ask.Ask.TheVariants.{Demand as AskDemand, Pop as AskPop};
ghost use Rattle.variant.specs.declared.reply.Reply.TheVariants.{Nothing as RepliedNothing, Refused as RepliedRefused};
ghost use Rattle.variant.specs.declared.reply.Refusal.TheVariants.{WouldWaitInside as WaitsInside};
ghost use Rattle.channel_desk.specs.declared.fault.ActFault.TheVariants.{Stopped as WasStopped};
ghost use Rattle.channel_desk.specs.declared.sections.Section.{Section as ASection};
ghost use Rattle.channel_desk.specs.Acting.{Acted, IsStopped};
ghost use Rattle.channel_desk.specs.Awaiting.{Demanded, IsStoppedDemanding};
ghost use Rattle.channel_desk.specs.Deeds.{IsPlaced, Outcome};
ghost use Rattle.channel_desk.specs.Shared.{channel_in, kind_of};
ghost use Rattle.channel_desk.specs.Holding.{IsHolding, sections_on};
ghost use Rattle.channel_desk.specs.Turns.{IsAt, Waited};

use crate::acting::{asked, stopped};
use crate::fault::ActFault;
use crate::given::{Given, only};
use crate::held::{answer_held, place_of};
use crate::nesting::answer_section;
use crate::pacing::{first_reading, readings_past, wait_on};
use crate::sections::{Section, Sections};
use crate::shared::Shared;
use crate::turns::give;
use crate::unanswered::unanswered;
use love_base::{ChannelNo, Memory, Pacer, Stamp};
use std::alloc::Global;
use std::sync::Wait;
use turn_desk::Held;
use variant::{Action, Ask, Refusal, Reply};

fn is_nothing(reply: &Reply) -> bool
    ensures yes { result ≡ true → reply.now ≡ RepliedNothing }
    ensures no { result ≡ false → reply.now ≢ RepliedNothing }
{
    matches!(reply, Reply::Nothing)
}

// What a pop comes to at the Channel that a pass has, and in which nobody is inside a section.
fn pop_held(
    alloc: Global,
    held: &mut Held<Shared>,
    by: Stamp,
    channel: ChannelNo,
) -> Result<Given, Memory>
    requires kind { kind_of held.old.value ≡ 0 }
    requires placed { IsPlaced (channel_in held.old.value) by 0 }
    ensures object { held.new.object ≡ held.old.object }
    ensures kind { kind_of held.new.value ≡ 0 }
    ensures outcome { Outcome (AskPop channel) by 0
        (channel_in held.old.value) (channel_in held.new.value) result }
{
    answer_held(alloc, held, by, &Ask::Pop(channel), 0, None)
}

// What a demand comes to where a state inside the Channel that pops it gets this: it can't wait.
fn demanded_inside(given: Given) -> Given
    ensures message { given.reply ≢ RepliedNothing → result ≡ given }
    ensures refused { given.reply ≡ RepliedNothing
        → (result.reply ≡ RepliedRefused WaitsInside) × (result.changed ≡ false) }
{
    if is_nothing(&given.reply) {
        only(Reply::Refused(Refusal::WouldWaitInside))
    } else {
        given
    }
}

impl Sections<'_, Vec<Section>> {
    // A demand inside the state's own section on the Channel.
    fn demand_inside(
        &mut self,
        at: usize,
        channel: ChannelNo,
        limit: Option<u32>,
    ) -> Result<Action, ActFault>
        requires holding { IsHolding self.old.desk.now self.old.state self.old.next
            self.old.pass.now self.old.held.items }
        requires section { (s : ASection) × IsAt self.old.held.items channel at s }
        requires next { self.old.next + 1 < 2 ^ 32 }
        ensures same { self.new.pass.ghost_name ≡ self.old.pass.ghost_name }
        ensures desk { self.new.desk.now ≡ self.old.desk.now }
        ensures state { self.new.state ≡ self.old.state }
        ensures holding { IsHolding self.new.desk.now self.new.state self.new.next
            self.new.pass.now self.new.held.items }
        ensures next { OnOk result (self.new.next ≡ self.old.next + 1) }
        ensures acted { IfOk result (λ a. Acted
            (record { state = self.old.state; number = self.old.next })
            self.old.pass.now.view self.new.pass.now.view
            self.old.held.items self.new.held.items (AskDemand channel limit) a) }
        ensures kept { OnErr result ((self.new.next ≡ self.old.next)
            × (self.new.held.items ≡ self.old.held.items)
            × Waited self.old.pass.now.view self.new.pass.now.view) }
        ensures never_stopped { (stop : AStop) → result ≢ Err (WasStopped stop) }
    {
        let by = self.stamp();
        let pop = Ask::Pop(channel);
        let given = answer_section(self.alloc, &mut self.held[at], by, &pop, None)?;
        let place = place_of(&self.held[at].held);
        self.next += 1;
        let ask = Ask::Demand(channel, limit);
        Ok(asked(by, channel.get(), place, ask, demanded_inside(given)))
    }

    // Takes the message that was seen to wait. There is no answer where another state was quicker.
    fn demand_now<R: Wait>(
        &mut self,
        rt: &R,
        channel: ChannelNo,
        limit: Option<u32>,
    ) -> Result<Option<Action>, ActFault>
        requires holding { IsHolding self.old.desk.now self.old.state self.old.next
            self.old.pass.now self.old.held.items }
        requires outside { sections_on channel self.old.held.items ≡ 0 }
        requires next { self.old.next + 1 < 2 ^ 32 }
        ensures same { self.new.pass.ghost_name ≡ self.old.pass.ghost_name }
        ensures desk { self.new.desk.now ≡ self.old.desk.now }
        ensures state { self.new.state ≡ self.old.state }
        ensures holding { IsHolding self.new.desk.now self.new.state self.new.next
            self.new.pass.now self.new.held.items }
        ensures next { IfOk result (λ found. OnSome found (self.new.next ≡ self.old.next + 1)) }
        ensures acted { IfOk result (λ found. IfSome found (λ a. Acted
            (record { state = self.old.state; number = self.old.next })
            self.old.pass.now.view self.new.pass.now.view
            self.old.held.items self.new.held.items (AskDemand channel limit) a)) }
        ensures unfound { IfOk result (λ found. IfNone found ((self.new.next ≡ self.old.next)
            × (self.new.held.items ≡ self.old.held.items)
            × Waited self.old.pass.now.view self.new.pass.now.view)) }
        ensures kept { OnErr result ((self.new.next ≡ self.old.next)
            × (self.new.held.items ≡ self.old.held.items)
            × Waited self.old.pass.now.view self.new.pass.now.view) }
        ensures stopped { (stop : AStop) → result ≡ Err (WasStopped stop) → IsStopped self.old.state
            self.old.pass.now.view self.new.pass.now.view self.old.held.items
            (AskDemand channel limit) stop }
    {
        let by = self.stamp();
        let mut held = match self.take_channel(rt, channel.get()) {
            Ok(held) => held,
            Err(halt) => {
                let ask = Ask::Demand(channel, limit);
                return Err(stopped(halt, channel.get(), ask));
            }
        };
        let given = pop_held(self.alloc, &mut held, by, channel);
        let place = place_of(&held);
        give(rt, self.desk, self.bell, self.pass, held);
        let Ok(given) = given else {
            return Err(ActFault::Memory);
        };
        if is_nothing(&given.reply) {
            return Ok(None);
        }
        self.next += 1;
        let ask = Ask::Demand(channel, limit);
        Ok(Some(asked(by, channel.get(), place, ask, given)))
    }

    // One try of a demand at a Channel that the state isn't inside.
    fn demand_round<R: Wait, P: Pacer>(
        &mut self,
        rt: &R,
        pacer: &P,
        first: Option<u64>,
        channel: ChannelNo,
        limit: Option<u32>,
    ) -> Result<Option<Action>, ActFault>
        requires holding { IsHolding self.old.desk.now self.old.state self.old.next
            self.old.pass.now self.old.held.items }
        requires outside { sections_on channel self.old.held.items ≡ 0 }
        requires next { self.old.next + 1 < 2 ^ 32 }
        requires shown { IfSome first (λ n. P.shows pacer.now n) }
        ensures same { self.new.pass.ghost_name ≡ self.old.pass.ghost_name }
        ensures desk { self.new.desk.now ≡ self.old.desk.now }
        ensures state { self.new.state ≡ self.old.state }
        ensures holding { IsHolding self.new.desk.now self.new.state self.new.next
            self.new.pass.now self.new.held.items }
        ensures next { IfOk result (λ found. OnSome found (self.new.next ≡ self.old.next + 1)) }
        ensures acted { IfOk result (λ found. IfSome found (λ a. Demanded (P.shows pacer.now)
            (record { state = self.old.state; number = self.old.next })
            self.old.pass.now.view self.new.pass.now.view
            self.old.held.items self.new.held.items (AskDemand channel limit) a)) }
        ensures unfound { IfOk result (λ found. IfNone found ((self.new.next ≡ self.old.next)
            × (self.new.held.items ≡ self.old.held.items)
            × Waited self.old.pass.now.view self.new.pass.now.view)) }
        ensures kept { OnErr result ((self.new.next ≡ self.old.next)
            × (self.new.held.items ≡ self.old.held.items)
            × Waited self.old.pass.now.view self.new.pass.now.view) }
        ensures stopped { (stop : AStop) → result ≡ Err (WasStopped stop)
            → IsStoppedDemanding self.old.state
            self.old.pass.now.view self.new.pass.now.view self.old.held.items
            (AskDemand channel limit) stop }
    {
        let late = readings_past(pacer, first, limit);
        let ended = self.end_seen(rt);
        let object = channel.get();
        let sight = self.sight(object);
        if sight.sent > sight.received {
            return self.demand_now(rt, channel, limit);
        }
        let by = self.stamp();
        let ask = Ask::Demand(channel, limit);
        match unanswered(by, object, sight.place, ask, ended, late) {
            Ok(Some(action)) => {
                self.next += 1;
                Ok(Some(action))
            }
            Ok(None) => Ok(None),
            Err(fault) => Err(fault),
        }
    }

    // A demand at a Channel that the state isn't inside.
    fn demand_outside<R: Wait, P: Pacer>(
        &mut self,
        rt: &R,
        pacer: &P,
        channel: ChannelNo,
        limit: Option<u32>,
    ) -> Result<Action, ActFault>
        requires holding { IsHolding self.old.desk.now self.old.state self.old.next
            self.old.pass.now self.old.held.items }
        requires outside { sections_on channel self.old.held.items ≡ 0 }
        requires next { self.old.next + 1 < 2 ^ 32 }
        ensures same { self.new.pass.ghost_name ≡ self.old.pass.ghost_name }
        ensures desk { self.new.desk.now ≡ self.old.desk.now }
        ensures state { self.new.state ≡ self.old.state }
        ensures holding { IsHolding self.new.desk.now self.new.state self.new.next
            self.new.pass.now self.new.held.items }
        ensures next { OnOk result (self.new.next ≡ self.old.next + 1) }
        ensures acted { IfOk result (λ a. Demanded (P.shows pacer.now)
            (record { state = self.old.state; number = self.old.next })
            self.old.pass.now.view self.new.pass.now.view
            self.old.held.items self.new.held.items (AskDemand channel limit) a) }
        ensures kept { OnErr result ((self.new.next ≡ self.old.next)
            × (self.new.held.items ≡ self.old.held.items)
            × Waited self.old.pass.now.view self.new.pass.now.view) }
        ensures stopped { (stop : AStop) → result ≡ Err (WasStopped stop)
            → IsStoppedDemanding self.old.state
            self.old.pass.now.view self.new.pass.now.view self.old.held.items
            (AskDemand channel limit) stop }
    {
        let first = first_reading(pacer, limit);
        for _ in rt.forever() {
            let heard = self.bell.number(rt);
            match self.demand_round(rt, pacer, first, channel, limit) {
                Ok(Some(action)) => return Ok(action),
                Ok(None) => wait_on(rt, self.bell, heard, pacer, limit),
                Err(fault) => return Err(fault),
            }
        }
        unreachable!()
    }

    /// Receives the message that has waited longest, and waits where there is none (LÖVE wiki,
    /// `Channel:demand`). With a limit, in seconds, it answers nothing where no message came in
    /// time: that action carries the first reading of the pacer and the last. Inside the state's own
    /// section on the Channel it can't wait, and is refused where there is no message. While it
    /// waits it takes no turn at the Channel. Whether a wait ends is up to the other threads.
    ///
    /// # Errors
    ///
    /// [`ActFault::Stopped`] where state 0 has ended, and no message was there after that, or
    /// another pass had the Channel while the state is inside a section; [`ActFault::Memory`] where
    /// there is no memory, or where the state did something later at that Channel.
    pub fn demand<R: Wait, P: Pacer>(
        &mut self,
        rt: &R,
        pacer: &P,
        channel: ChannelNo,
        limit: Option<u32>,
    ) -> Result<Action, ActFault>
        requires holding { IsHolding self.old.desk.now self.old.state self.old.next
            self.old.pass.now self.old.held.items }
        requires next { self.old.next + 1 < 2 ^ 32 }
        ensures same { self.new.pass.ghost_name ≡ self.old.pass.ghost_name }
        ensures desk { self.new.desk.now ≡ self.old.desk.now }
        ensures state { self.new.state ≡ self.old.state }
        ensures holding { IsHolding self.new.desk.now self.new.state self.new.next
            self.new.pass.now self.new.held.items }
        ensures next { OnOk result (self.new.next ≡ self.old.next + 1) }
        ensures acted { IfOk result (λ a. Demanded (P.shows pacer.now)
            (record { state = self.old.state; number = self.old.next })
            self.old.pass.now.view self.new.pass.now.view
            self.old.held.items self.new.held.items (AskDemand channel limit) a) }
        ensures kept { OnErr result ((self.new.next ≡ self.old.next)
            × (self.new.held.items ≡ self.old.held.items)
            × Waited self.old.pass.now.view self.new.pass.now.view) }
        ensures stopped { (stop : AStop) → result ≡ Err (WasStopped stop)
            → IsStoppedDemanding self.old.state
            self.old.pass.now.view self.new.pass.now.view self.old.held.items
            (AskDemand channel limit) stop }
    {
        match self.section_on(channel.get()) {
            Some(at) => self.demand_inside(at, channel, limit),
            None => self.demand_outside(rt, pacer, channel, limit),
        }
    }
}

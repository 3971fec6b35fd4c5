//! Asks by which a state begins and ends sections, and those inside of them.
ghost use Rattle.std.specs.Prelude.{◌≡◌, ◌≢◌, ℕ, ◌+◌, ◌<◌, ◌≤◌, ◌^◌, length, IfOk, OnOk, OnErr, Err};
ghost use Rattle.variant.specs.declared.action.Stop.{Stop as AStop};
ghost use Rattle.variant.specs.declared.ask.Ask.TheVariants.{Enter as AskEnter, Leave as AskLeave};
ghost use Rattle.channel_desk.specs.declared.fault.ActFault.TheVariants.{Stopped as WasStopped};
ghost use Rattle.channel_desk.specs.Acting.{Acted, IsStopped};
ghost use Rattle.channel_desk.specs.Deeds.{IsDeed, IsPlaced, Outcome, StaysInside, message_of, object_of};
ghost use Rattle.channel_desk.specs.Holding.{IsHolding, sections_on};
ghost use Rattle.channel_desk.specs.Shared.{channel_in, kind_of};
ghost use Rattle.channel_desk.specs.Turns.{IsAt, Waited, depth_after};
ghost use Rattle.channel_desk.specs.declared.sections.Section.{Section as ASection};

use crate::acting::{asked, stopped};
use crate::fault::ActFault;
use crate::given::{Given, adds};
use crate::held::{answer_held, leave_held, place_of};
use crate::sections::{Section, Sections};
use crate::turns::give;
use love_base::{Memory, Stamp};
use std::alloc::Global;
use std::sync::Wait;
use variant::{Action, Ask, Reply, Variant};

// What an ask comes to in a section, in which the state stays.
pub(crate) fn answer_section(
    alloc: Global,
    section: &mut Section,
    by: Stamp,
    ask: &Ask,
    message: Option<Variant>,
) -> Result<Given, Memory>
    requires kind { kind_of section.old.held.value ≡ 0 }
    requires placed { IsPlaced (channel_in section.old.held.value) by section.old.depth }
    requires ask { IsDeed ask.now }
    requires inside { StaysInside ask.now section.old.depth }
    requires message { message ≡ message_of ask.now }
    requires few { section.old.depth + 1 < 2 ^ 32 }
    ensures object { section.new.held.object ≡ section.old.held.object }
    ensures kind { kind_of section.new.held.value ≡ 0 }
    ensures outcome { Outcome ask.now by section.old.depth
        (channel_in section.old.held.value) (channel_in section.new.held.value) result }
    ensures depth { OnOk result (section.new.depth ≡ depth_after ask.now section.old.depth) }
    ensures kept { OnErr result (section.new.depth ≡ section.old.depth) }
{
    let depth = section.depth;
    let given = answer_held(alloc, &mut section.held, by, ask, depth, message)?;
    match ask {
        Ask::Enter(_) => section.depth = depth + 1,
        Ask::Leave(_) => section.depth = depth - 1,
        _ => {}
    }
    Ok(given)
}

impl Sections<'_, Vec<Section>> {
    // The outermost section on a Channel begins.
    pub(crate) fn act_enter<R: Wait>(
        &mut self,
        rt: &R,
        channel: u32,
        ask: Ask,
    ) -> Result<Action, ActFault>
        requires holding { IsHolding self.old.desk.now self.old.state self.old.next
            self.old.pass.now self.old.held.items }
        requires channel { (0 < channel) × (channel ≤ 1024) }
        requires outside { sections_on channel self.old.held.items ≡ 0 }
        requires ask { ask ≡ AskEnter channel }
        requires next { self.old.next + 1 < 2 ^ 32 }
        ensures same { self.new.pass.ghost_name ≡ self.old.pass.ghost_name }
        ensures desk { self.new.desk.now ≡ self.old.desk.now }
        ensures state { self.new.state ≡ self.old.state }
        ensures holding { IsHolding self.new.desk.now self.new.state self.new.next
            self.new.pass.now self.new.held.items }
        ensures next { OnOk result (self.new.next ≡ self.old.next + 1) }
        ensures acted { IfOk result (λ a. Acted
            (record { state = self.old.state; number = self.old.next })
            self.old.pass.now.view self.new.pass.now.view
            self.old.held.items self.new.held.items ask a) }
        ensures kept { OnErr result ((self.new.next ≡ self.old.next)
            × (self.new.held.items ≡ self.old.held.items)
            × Waited self.old.pass.now.view self.new.pass.now.view) }
        ensures stopped { (stop : AStop) → result ≡ Err (WasStopped stop) → IsStopped self.old.state
            self.old.pass.now.view self.new.pass.now.view self.old.held.items ask stop }
    {
        self.held.reserve(1)?;
        let by = self.stamp();
        let mut held = match self.take_channel(rt, channel) {
            Ok(held) => held,
            Err(halt) => return Err(stopped(halt, channel, ask)),
        };
        let given = answer_held(self.alloc, &mut held, by, &ask, 0, None);
        let place = place_of(&held);
        let Ok(given) = given else {
            give(rt, self.desk, self.bell, self.pass, held);
            return Err(ActFault::Memory);
        };
        self.next += 1;
        if given.changed {
            self.held.push_reserved(Section { held, depth: 1 });
            return Ok(asked(by, channel, place, ask, given));
        }
        give(rt, self.desk, self.bell, self.pass, held);
        Ok(asked(by, channel, place, ask, given))
    }

    // An ask about a Channel that the state is inside, and stays inside of.
    pub(crate) fn act_inside(
        &mut self,
        at: usize,
        channel: u32,
        ask: Ask,
        message: Option<Variant>,
    ) -> Result<Action, ActFault>
        requires holding { IsHolding self.old.desk.now self.old.state self.old.next
            self.old.pass.now self.old.held.items }
        requires channel { channel ≡ object_of ask }
        requires inside { (s : ASection) × IsAt self.old.held.items channel at s
            × StaysInside ask s.depth }
        requires ask { IsDeed ask }
        requires message { message ≡ message_of ask }
        requires next { self.old.next + 1 < 2 ^ 32 }
        ensures same { self.new.pass.ghost_name ≡ self.old.pass.ghost_name }
        ensures desk { self.new.desk.now ≡ self.old.desk.now }
        ensures state { self.new.state ≡ self.old.state }
        ensures holding { IsHolding self.new.desk.now self.new.state self.new.next
            self.new.pass.now self.new.held.items }
        ensures next { OnOk result (self.new.next ≡ self.old.next + 1) }
        ensures acted { IfOk result (λ a. Acted
            (record { state = self.old.state; number = self.old.next })
            self.old.pass.now.view self.new.pass.now.view
            self.old.held.items self.new.held.items ask a) }
        ensures kept { OnErr result ((self.new.next ≡ self.old.next)
            × (self.new.held.items ≡ self.old.held.items)
            × Waited self.old.pass.now.view self.new.pass.now.view) }
        ensures never_stopped { (stop : AStop) → result ≢ Err (WasStopped stop) }
    {
        let by = self.stamp();
        let given = answer_section(self.alloc, &mut self.held[at], by, &ask, message)?;
        let place = place_of(&self.held[at].held);
        self.next += 1;
        Ok(asked(by, channel, place, ask, given))
    }

    // The last section, an outermost one, ends.
    pub(crate) fn act_leave<R: Wait>(&mut self, rt: &R, channel: u32, ask: Ask) -> Action
        requires holding { IsHolding self.old.desk.now self.old.state self.old.next
            self.old.pass.now self.old.held.items }
        requires last { (k : ℕ) × (s : ASection) × IsAt self.old.held.items channel k s
            × (k + 1 ≡ length self.old.held.items) × (s.depth ≡ 1) }
        requires ask { ask ≡ AskLeave channel }
        requires next { self.old.next + 1 < 2 ^ 32 }
        ensures same { self.new.pass.ghost_name ≡ self.old.pass.ghost_name }
        ensures desk { self.new.desk.now ≡ self.old.desk.now }
        ensures state { self.new.state ≡ self.old.state }
        ensures holding { IsHolding self.new.desk.now self.new.state self.new.next
            self.new.pass.now self.new.held.items }
        ensures next { self.new.next ≡ self.old.next + 1 }
        ensures acted { Acted
            (record { state = self.old.state; number = self.old.next })
            self.old.pass.now.view self.new.pass.now.view
            self.old.held.items self.new.held.items ask result }
    {
        let by = self.stamp();
        let Some(mut section) = self.held.pop() else {
            unreachable!()
        };
        let place = leave_held(&mut section.held, by);
        give(rt, self.desk, self.bell, self.pass, section.held);
        self.next += 1;
        asked(by, channel, place, ask, adds(Reply::Done))
    }
}

//! Asks about a Channel.
ghost use Rattle.std.specs.Prelude.{◌≡◌, ◌≢◌, ℕ, false, ◌+◌, ◌<◌, ◌≤◌, ◌^◌, true, length, IfOk, OnOk, IfErr, OnErr, IfSome, IfNone, Some, None, Err, vec_len, vec_capacity, IsTrue, ◌↔◌};
ghost use Rattle.variant.specs.declared.action.Deed.TheVariants.{Asked};
ghost use Rattle.variant.specs.declared.action.Stop.{Stop as AStop};
ghost use Rattle.variant.specs.declared.ask.Ask.TheVariants.{Enter as AskEnter, Leave as AskLeave};
ghost use Rattle.channel_desk.specs.declared.fault.ActFault.TheVariants.{Stopped as WasStopped};
ghost use Rattle.channel_desk.specs.Acting.{Acted, Halted, IsStopped, MayLeave, action_of};
ghost use Rattle.channel_desk.specs.Deeds.{IsDeed, IsNoEnter, IsNoLeave, IsPlaced, Outcome, StaysInside, StaysOutside, message_of, object_of};
ghost use Rattle.channel_desk.specs.Holding.{IsHolding, sections_on};
ghost use Rattle.channel_desk.specs.Shared.{channel_in, history_of, kind_of, rests};
ghost use Rattle.channel_desk.specs.Turns.{IsAt, Took, Waited, depth_after};
ghost use Rattle.channel_desk.specs.declared.sections.Section.{Section as ASection};

use crate::fault::ActFault;
use crate::given::Given;
use crate::held::{answer_held, place_of};
use crate::sections::{Section, Sections};
use crate::shared::Shared;
use crate::turns::{Halt, give, take, take_or_halt};
use love_base::{ChannelNo, Memory, Stamp};
use std::alloc::Global;
use std::sync::Wait;
use turn_desk::Held;
use variant::{Action, Ask, Deed, Stop, Variant};

// The action of an ask.
pub(crate) fn asked(by: Stamp, object: u32, place: u32, ask: Ask, given: Given) -> Action
    ensures { result ≡ action_of by object place ask given }
{
    Action {
        number: by.number,
        object,
        place,
        changed: given.changed,
        deed: Deed::Asked(ask),
        reply: given.reply,
        readings: None,
    }
}

// A state is stopped at a Channel that another pass has.
pub(crate) fn stopped(halt: Halt, channel: u32, ask: Ask) -> ActFault
    ensures { result ≡ WasStopped (record {
      board_place = halt.board_place;
      main_end = halt.main_end;
      object = channel;
      place = 0;
      busy = Some halt.seat;
      ask = ask;
    }) }
{
    ActFault::Stopped(Stop {
        board_place: halt.board_place,
        main_end: halt.main_end,
        object: channel,
        place: 0,
        busy: Some(halt.seat),
        ask,
    })
}

// The object of an ask: its Channel, or the board.
pub(crate) fn object_by(ask: &Ask) -> u32
    ensures object { result ≡ object_of ask.now }
    ensures few { result ≤ 1024 }
    ensures real { IsDeed ask.now → 0 < result }
{
    match ask {
        Ask::Push(channel, _) | Ask::Supply(channel, _) => channel.get(),
        Ask::Pop(channel) | Ask::Peek(channel) | Ask::Clear(channel) => channel.get(),
        Ask::Count(channel) | Ask::HasRead(channel, _) => channel.get(),
        Ask::Demand(channel, _) | Ask::Await(channel, _, _) => channel.get(),
        Ask::Enter(channel) | Ask::Leave(channel) => channel.get(),
        _ => 0,
    }
}

// Whether the ask ends a section.
fn is_leave(ask: &Ask) -> bool
    ensures yes { result ≡ true → ask.now ≡ AskLeave (object_of ask.now) }
    ensures no { result ≡ false → IsNoLeave ask.now }
{
    matches!(ask, Ask::Leave(_))
}

// Whether it begins one.
fn is_enter(ask: &Ask) -> bool
    ensures yes { result ≡ true → ask.now ≡ AskEnter (object_of ask.now) }
    ensures no { result ≡ false → IsNoEnter ask.now }
{
    matches!(ask, Ask::Enter(_))
}

// The message that an ask sends, to be stored beside the ask itself.
fn message_by(alloc: Global, ask: &Ask) -> Result<Option<Variant>, Memory>
    ensures { IfOk result (λ message. message ≡ message_of ask.now) }
{
    match ask {
        Ask::Push(_, message) | Ask::Supply(_, message) => Ok(Some(message.copy(alloc)?)),
        _ => Ok(None),
    }
}

impl Sections<'_, Vec<Section>> {
    // The place of the section on a Channel, where the state is inside one.
    pub(crate) fn section_on(&self, channel: u32) -> Option<usize>
        ensures found { IfSome result (λ k. (s : ASection) × IsAt self.now.held.items channel k s) }
        ensures none { IfNone result (sections_on channel self.now.held.items ≡ 0) }
    {
        for (place, section) in self.held.iter().enumerate() {
            if section.held.object() == channel {
                return Some(place);
            }
        }
        None
    }

    // The stamp of the next action.
    pub(crate) fn stamp(&self) -> Stamp
        ensures { result ≡ record { state = self.now.state; number = self.now.next } }
    {
        Stamp {
            state: self.state,
            number: self.next,
        }
    }

    // Takes a Channel that the state isn't inside. A state that is inside another section doesn't
    // wait any longer once state 0 has ended.
    pub(crate) fn take_channel<R: Wait>(
        &mut self,
        rt: &R,
        channel: u32,
    ) -> Result<Held<Shared>, Halt>
        requires holding { IsHolding self.old.desk.now self.old.state self.old.next
            self.old.pass.now self.old.held.items }
        requires channel { (0 < channel) × (channel ≤ 1024) }
        requires outside { sections_on channel self.old.held.items ≡ 0 }
        ensures same { self.new.pass.ghost_name ≡ self.old.pass.ghost_name }
        ensures desk { self.new.desk.now ≡ self.old.desk.now }
        ensures state { self.new.state ≡ self.old.state }
        ensures next { self.new.next ≡ self.old.next }
        ensures items { self.new.held.items ≡ self.old.held.items }
        ensures room { (vec_len self.new.held ≡ vec_len self.old.held)
            × (vec_capacity self.new.held ≡ vec_capacity self.old.held) }
        ensures own { self.new.pass.now.desk ≡ self.old.pass.now.desk }
        ensures object { IfOk result (λ held. held.object ≡ channel) }
        ensures took { IfOk result (λ held. Took
            self.old.pass.now.view self.new.pass.now.view channel (history_of held.value)) }
        ensures kind { IfOk result (λ held. kind_of held.value ≡ 0) }
        ensures between { IfOk result (λ held. rests (history_of held.value) ≡ true) }
        ensures halted { IfErr result (λ halt. Halted self.old.state
            self.old.pass.now.view self.new.pass.now.view self.old.held.items
            channel halt.board_place halt.main_end halt.seat) }
    {
        if self.state == 0 || self.held.is_empty() {
            Ok(take(rt, self.desk, self.pass, channel))
        } else {
            take_or_halt(rt, self.desk, self.bell, self.pass, channel)
        }
    }

    // An ask about a Channel that the state isn't inside, and stays outside of.
    fn act_outside<R: Wait>(
        &mut self,
        rt: &R,
        channel: u32,
        ask: Ask,
        message: Option<Variant>,
    ) -> Result<Action, ActFault>
        requires holding { IsHolding self.old.desk.now self.old.state self.old.next
            self.old.pass.now self.old.held.items }
        requires channel { (channel ≡ object_of ask) × (0 < channel) × (channel ≤ 1024) }
        requires outside { sections_on channel self.old.held.items ≡ 0 }
        requires ask { IsDeed ask × StaysOutside ask }
        requires message { message ≡ message_of ask }
        requires next { self.old.next + 1 < 2 ^ 32 }
        ensures same { self.new.pass.ghost_name ≡ self.old.pass.ghost_name }
        ensures desk { self.new.desk.now ≡ self.old.desk.now }
        ensures state { self.new.state ≡ self.old.state }
        ensures holding { IsHolding self.new.desk.now self.new.state self.new.next
            self.new.pass.now self.new.held.items }
        ensures next { OnOk result (self.new.next ≡ self.old.next + 1) }
        ensures acted { IfOk result (λ a. Acted
            (record { state = self.old.state; number = self.old.next })
            self.old.pass.now.view self.new.pass.now.view
            self.old.held.items self.new.held.items ask a) }
        ensures kept { OnErr result ((self.new.next ≡ self.old.next)
            × (self.new.held.items ≡ self.old.held.items)
            × Waited self.old.pass.now.view self.new.pass.now.view) }
        ensures stopped { (stop : AStop) → result ≡ Err (WasStopped stop) → IsStopped self.old.state
            self.old.pass.now.view self.new.pass.now.view self.old.held.items ask stop }
    {
        let by = self.stamp();
        let mut held = match self.take_channel(rt, channel) {
            Ok(held) => held,
            Err(halt) => return Err(stopped(halt, channel, ask)),
        };
        let given = answer_held(self.alloc, &mut held, by, &ask, 0, message);
        let place = place_of(&held);
        give(rt, self.desk, self.bell, self.pass, held);
        let Ok(given) = given else {
            return Err(ActFault::Memory);
        };
        self.next += 1;
        Ok(asked(by, channel, place, ask, given))
    }

    // An ask about a Channel that is answered at once.
    pub(crate) fn act_on_channel<R: Wait>(&mut self, rt: &R, ask: Ask) -> Result<Action, ActFault>
        requires holding { IsHolding self.old.desk.now self.old.state self.old.next
            self.old.pass.now self.old.held.items }
        requires ask { IsDeed ask }
        requires leave { MayLeave ask self.old.held.items }
        requires next { self.old.next + 1 < 2 ^ 32 }
        ensures same { self.new.pass.ghost_name ≡ self.old.pass.ghost_name }
        ensures desk { self.new.desk.now ≡ self.old.desk.now }
        ensures state { self.new.state ≡ self.old.state }
        ensures holding { IsHolding self.new.desk.now self.new.state self.new.next
            self.new.pass.now self.new.held.items }
        ensures next { OnOk result (self.new.next ≡ self.old.next + 1) }
        ensures acted { IfOk result (λ a. Acted
            (record { state = self.old.state; number = self.old.next })
            self.old.pass.now.view self.new.pass.now.view
            self.old.held.items self.new.held.items ask a) }
        ensures kept { OnErr result ((self.new.next ≡ self.old.next)
            × (self.new.held.items ≡ self.old.held.items)
            × Waited self.old.pass.now.view self.new.pass.now.view) }
        ensures stopped { (stop : AStop) → result ≡ Err (WasStopped stop) → IsStopped self.old.state
            self.old.pass.now.view self.new.pass.now.view self.old.held.items ask stop }
    {
        let channel = object_by(&ask);
        let message = match message_by(self.alloc, &ask) {
            Ok(message) => message,
            Err(_) => return Err(ActFault::Memory),
        };
        match self.section_on(channel) {
            Some(at) => self.act_held(rt, at, channel, ask, message),
            None => self.act_free(rt, channel, ask, message),
        }
    }

    /// Whether the state may end the section on this Channel that it began last: it is inside one
    /// that isn't the outermost there, or that it entered last. It takes no memory.
    pub fn may_leave(&self, channel: ChannelNo) -> bool
        requires holding { IsHolding self.now.desk.now self.now.state self.now.next
            self.now.pass.now self.now.held.items }
        ensures { IsTrue result ↔ MayLeave (AskLeave channel) self.now.held.items }
    {
        match self.section_on(channel.get()) {
            Some(at) => self.held[at].depth > 1 || at + 1 == self.held.len(),
            None => false,
        }
    }

    // An ask about a Channel that the state is inside.
    fn act_held<R: Wait>(
        &mut self,
        rt: &R,
        at: usize,
        channel: u32,
        ask: Ask,
        message: Option<Variant>,
    ) -> Result<Action, ActFault>
        requires holding { IsHolding self.old.desk.now self.old.state self.old.next
            self.old.pass.now self.old.held.items }
        requires channel { channel ≡ object_of ask }
        requires section { (s : ASection) × IsAt self.old.held.items channel at s }
        requires ask { IsDeed ask }
        requires leave { MayLeave ask self.old.held.items }
        requires message { message ≡ message_of ask }
        requires next { self.old.next + 1 < 2 ^ 32 }
        ensures same { self.new.pass.ghost_name ≡ self.old.pass.ghost_name }
        ensures desk { self.new.desk.now ≡ self.old.desk.now }
        ensures state { self.new.state ≡ self.old.state }
        ensures holding { IsHolding self.new.desk.now self.new.state self.new.next
            self.new.pass.now self.new.held.items }
        ensures next { OnOk result (self.new.next ≡ self.old.next + 1) }
        ensures acted { IfOk result (λ a. Acted
            (record { state = self.old.state; number = self.old.next })
            self.old.pass.now.view self.new.pass.now.view
            self.old.held.items self.new.held.items ask a) }
        ensures kept { OnErr result ((self.new.next ≡ self.old.next)
            × (self.new.held.items ≡ self.old.held.items)
            × Waited self.old.pass.now.view self.new.pass.now.view) }
        ensures never_stopped { (stop : AStop) → result ≢ Err (WasStopped stop) }
    {
        let inner = self.held[at].depth > 1;
        if inner || !is_leave(&ask) {
            self.act_inside(at, channel, ask, message)
        } else {
            Ok(self.act_leave(rt, channel, ask))
        }
    }

    // An ask about a Channel that the state isn't inside.
    fn act_free<R: Wait>(
        &mut self,
        rt: &R,
        channel: u32,
        ask: Ask,
        message: Option<Variant>,
    ) -> Result<Action, ActFault>
        requires holding { IsHolding self.old.desk.now self.old.state self.old.next
            self.old.pass.now self.old.held.items }
        requires channel { (channel ≡ object_of ask) × (0 < channel) × (channel ≤ 1024) }
        requires outside { sections_on channel self.old.held.items ≡ 0 }
        requires ask { IsDeed ask }
        requires leave { MayLeave ask self.old.held.items }
        requires message { message ≡ message_of ask }
        requires next { self.old.next + 1 < 2 ^ 32 }
        ensures same { self.new.pass.ghost_name ≡ self.old.pass.ghost_name }
        ensures desk { self.new.desk.now ≡ self.old.desk.now }
        ensures state { self.new.state ≡ self.old.state }
        ensures holding { IsHolding self.new.desk.now self.new.state self.new.next
            self.new.pass.now self.new.held.items }
        ensures next { OnOk result (self.new.next ≡ self.old.next + 1) }
        ensures acted { IfOk result (λ a. Acted
            (record { state = self.old.state; number = self.old.next })
            self.old.pass.now.view self.new.pass.now.view
            self.old.held.items self.new.held.items ask a) }
        ensures kept { OnErr result ((self.new.next ≡ self.old.next)
            × (self.new.held.items ≡ self.old.held.items)
            × Waited self.old.pass.now.view self.new.pass.now.view) }
        ensures stopped { (stop : AStop) → result ≡ Err (WasStopped stop) → IsStopped self.old.state
            self.old.pass.now.view self.new.pass.now.view self.old.held.items ask stop }
    {
        if is_enter(&ask) {
            self.act_enter(rt, channel, ask)
        } else {
            self.act_outside(rt, channel, ask, message)
        }
    }

    /// The number of the state's next action, which is one at the event queue. It takes no memory.
    pub fn event_number(&mut self) -> u32
        requires holding { IsHolding self.old.desk.now self.old.state self.old.next
            self.old.pass.now self.old.held.items }
        requires next { self.old.next + 1 < 2 ^ 32 }
        ensures same { self.new.pass.ghost_name ≡ self.old.pass.ghost_name }
        ensures desk { self.new.desk.now ≡ self.old.desk.now }
        ensures state { self.new.state ≡ self.old.state }
        ensures holding { IsHolding self.new.desk.now self.new.state self.new.next
            self.new.pass.now self.new.held.items }
        ensures number { result ≡ self.old.next }
        ensures next { self.new.next ≡ self.old.next + 1 }
        ensures pass { self.new.pass.now ≡ self.old.pass.now }
        ensures items { self.new.held.items ≡ self.old.held.items }
    {
        let number = self.next;
        self.next += 1;
        number
    }
}

//! The objects that a state meets which runs alone.
ghost use Rattle.std.specs.Prelude.{◌≡◌, ◌&&◌, if◌then◌else◌, true, false, ◌+◌, ◌<◌, ◌≤◌, ◌^◌, ℕ, [], ◌∷◌, ◌++◌, length, vec_capacity, All, List, Some, OnOk};
ghost use Rattle.lua_state.specs.Answered.{IsBoardAsk, IsChannelOf, IsEventAsk, IsLastLeft};
ghost use Rattle.lua_state.specs.Kept.{Acts, ComesTo, HasActed, HeldBy, HasReplied, IsKept, IsOpen};
ghost use Rattle.variant.specs.Histories.{AtEach};
ghost use Rattle.lua_state.specs.Solo.{IsDone, channel_after, depth_after, makes_channel};
ghost use Rattle.variant.specs.declared.action.Action.{Action as AnAction};
ghost use Rattle.variant.specs.declared.action.Deed.TheVariants.{Asked};

use crate::answer::Answer;
use crate::at_board::at_board;
use crate::at_channel::at_channel;
use crate::at_events::at_events;
use channel_core::Channel;
use love_base::{ChannelNo, Memory, Stamp};
use std::alloc::Global;
use std::collections::VecDeque;
use thread_board::Board;
use variant::{Action, Ask, Deed, Reply, Sent, StateLog};

// The number of the event queue among the objects.
const EVENT_QUEUE: u32 = 1_025;

// The Channels, the board and the events of a state that runs alone, with the log of its actions.
#[derive(Debug, Drop)]
pub(crate) struct Objects {
    pub(crate) alloc: Global,
    pub(crate) board: Board,
    pub(crate) channels: Vec<Channel>,
    // How many sections are open on each Channel.
    pub(crate) depths: Vec<u32>,
    // The Channels on which some are, in the order in which they were entered.
    pub(crate) held: Vec<ChannelNo>,
    // The events that wait.
    pub(crate) events: VecDeque<Sent>,
    pub(crate) trace: StateLog,
}

// What an ask came to at an object: the object's number, and the length of its history now.
#[derive(Debug, Drop)]
pub(crate) struct Acted {
    pub(crate) answer: Answer,
    pub(crate) object: u32,
    pub(crate) place: u32,
}

// What an ask comes to.
#[derive(Debug, Drop)]
pub(crate) enum Outcome {
    // This is replied.
    Replied(Reply),
    // It has no answer, and waits.
    Waits(Ask),
    // There was no memory for it.
    NoMemory,
}

// The Channel that an ask is about, if it is about one.
fn channel_by(ask: &Ask) -> Option<ChannelNo>
    ensures { IsChannelOf ask.now result }
{
    match ask {
        Ask::Push(channel, _) => Some(*channel),
        Ask::Supply(channel, _) => Some(*channel),
        Ask::Pop(channel) => Some(*channel),
        Ask::Peek(channel) => Some(*channel),
        Ask::Count(channel) => Some(*channel),
        Ask::HasRead(channel, _) => Some(*channel),
        Ask::Clear(channel) => Some(*channel),
        Ask::Demand(channel, _) => Some(*channel),
        Ask::Await(channel, _, _) => Some(*channel),
        Ask::Enter(channel) => Some(*channel),
        Ask::Leave(channel) => Some(*channel),
        _ => None,
    }
}

// Whether an ask is about events.
fn is_event(ask: &Ask) -> bool
    ensures yes { result ≡ true → IsEventAsk ask.now }
    ensures no { result ≡ false → IsEventAsk ask.now → ⊥ }
{
    matches!(ask, Ask::EventPush(..) | Ask::EventPoll)
}

// How many sections are open on the Channel of an ask after it, where so many were before.
fn depth_by(ask: &Ask, answer: &Answer, depth: u32) -> u32
    requires few { depth + 1 < 2 ^ 32 }
    ensures { result ≡ depth_after depth (Asked ask.now) answer.now.reply }
{
    match (ask, &answer.reply) {
        (Ask::Enter(_), Reply::Done) => depth + 1,
        (Ask::Leave(_), _) => depth.saturating_sub(1),
        _ => depth,
    }
}

// Whether a Channel was made by an ask about the board.
fn makes_channel(ask: &Ask, answer: &Answer) -> bool
    ensures { result ≡ (makes_channel ask.now && answer.now.changed) }
{
    match ask {
        Ask::Name(_) | Ask::NewChannel => answer.changed,
        _ => false,
    }
}

// The Channels that are held, after an ask about this one. One that is left was the last one.
fn follow(held: &mut Vec<ChannelNo>, channel: ChannelNo, ask: &Ask, changed: bool)
    requires room { length held.old.items < vec_capacity held.old }
    ensures follows { HeldBy ask.now changed channel held.old.items held.new.items }
    ensures few { length held.new.items ≤ length held.old.items + 1 }
{
    if !changed {
        return;
    }
    match ask {
        Ask::Enter(_) => held.push_reserved(channel),
        Ask::Leave(_) => {
            held.pop();
        }
        _ => {}
    }
}

// A Channel is there that was made, if one was.
fn add_made(alloc: Global, channels: &mut Vec<Channel>, depths: &mut Vec<u32>, made: bool)
    requires channels { length channels.old.items < vec_capacity channels.old }
    requires depths { length depths.old.items < vec_capacity depths.old }
    ensures channels { channels.new.items
        ≡ (if made then channels.old.items ++ [] ∷ [] else channels.old.items) }
    ensures depths { depths.new.items
        ≡ (if made then depths.old.items ++ 0 ∷ [] else depths.old.items) }
{
    if made {
        channels.push_reserved(Channel::new(alloc));
        depths.push_reserved(0);
    }
}

// The length of a Channel's history.
#[tactic(auto, using(crate::proofs::Keeping::length_fits))]
fn length_of(channel: &Channel) -> u32
    ensures { result ≡ length channel.now }
{
    channel.history().len() as u32
}

impl Objects {
    // Nothing was done yet.
    pub(crate) fn new(alloc: Global) -> Objects
        ensures kept { IsKept result }
        ensures none { result.trace.actions ≡ [] }
    {
        Objects {
            alloc,
            board: Board::empty(alloc),
            channels: Vec::new(alloc),
            depths: Vec::new(alloc),
            held: Vec::new(alloc),
            events: VecDeque::new(alloc),
            trace: StateLog::new(alloc),
        }
    }

    // The stamp of the next action.
    pub(crate) fn stamp(&self) -> Stamp
        requires few { length self.now.trace.actions + 1 < 2 ^ 32 }
        ensures { result ≡ record { state = 0; number = length self.now.trace.actions + 1 } }
    {
        Stamp {
            state: 0,
            number: self.trace.len() as u32 + 1,
        }
    }

    // How many sections are open on a Channel that was made.
    fn depth_on(&self, channel: ChannelNo) -> u32
        requires kept { IsKept self.now }
        requires made { channel ≤ length self.now.channels.items }
        ensures depth { result ≡ (channel_after self.now.trace.actions channel).depth }
        ensures few { result ≤ length self.now.trace.actions }
    {
        let at = channel.get() as usize - 1;
        self.depths[at]
    }

    // How many Channels are held.
    fn held_count(&self) -> u32
        requires kept { IsKept self.now }
        requires few { length self.now.trace.actions + 1 < 2 ^ 32 }
        ensures count { result ≡ length self.now.held.items }
        ensures few { result ≤ length self.now.trace.actions }
    {
        self.held.len() as u32
    }

    // What an ask comes to at its Channel. No program asks about one that wasn't made, or ends a
    // section out of order; that isn't proved here, and so such an ask finds no memory.
    fn ask_channel(&mut self, channel: ChannelNo, ask: &Ask) -> Result<Option<Acted>, Memory>
        requires kept { IsKept self.old }
        requires ask { IsChannelOf ask.now (Some channel) }
        requires few { length self.old.trace.actions + 1 < 2 ^ 32 }
        ensures acts { Acts self.old.trace.actions ask.now self.new result }
        ensures trace { self.new.trace ≡ self.old.trace }
        ensures held { length self.new.held.items ≤ length self.old.held.items + 1 }
    {
        self.held.reserve(1)?;
        let by = self.stamp();
        let at = channel.get() as usize - 1;
        if at >= self.channels.len() {
            return Err(Memory);
        }
        let depth = self.depth_on(channel);
        if !self.may_leave(channel, depth, ask) {
            return Err(Memory);
        }
        let Some(answer) = at_channel(self.alloc, &mut self.channels[at], by, depth, ask)? else {
            return Ok(None);
        };
        self.depths[at] = depth_by(ask, &answer, depth);
        follow(&mut self.held, channel, ask, answer.changed);
        let place = length_of(&self.channels[at]);
        Ok(Some(Acted {
            answer,
            object: channel.get(),
            place,
        }))
    }

    // Whether an outermost section that the ask would end was the last one to begin, as it is in
    // every program.
    fn may_leave(&self, channel: ChannelNo, depth: u32, ask: &Ask) -> bool
        ensures { IsLastLeft self.now.held.items channel depth ask.now result }
    {
        match ask {
            Ask::Leave(_) => depth != 1 || self.held.last() == Some(&channel),
            _ => true,
        }
    }

    // What an ask comes to at the board.
    fn ask_board(&mut self, ask: &Ask) -> Result<Option<Acted>, Memory>
        requires kept { IsKept self.old }
        requires ask { IsBoardAsk ask.now }
        requires few { length self.old.trace.actions + 1 < 2 ^ 32 }
        ensures acts { Acts self.old.trace.actions ask.now self.new result }
        ensures trace { self.new.trace ≡ self.old.trace }
        ensures held { self.new.held.items ≡ self.old.held.items }
    {
        self.channels.reserve(1)?;
        self.depths.reserve(1)?;
        let by = self.stamp();
        let Some(answer) = at_board(self.alloc, &mut self.board, by, ask)? else {
            return Ok(None);
        };
        let made = makes_channel(ask, &answer);
        add_made(self.alloc, &mut self.channels, &mut self.depths, made);
        let place = self.board.history().len() as u32;
        Ok(Some(Acted {
            answer,
            object: 0,
            place,
        }))
    }

    // What an ask about events comes to.
    fn ask_events(&mut self, ask: &Ask) -> Result<Option<Acted>, Memory>
        requires kept { IsKept self.old }
        requires ask { IsEventAsk ask.now }
        requires few { length self.old.trace.actions + 1 < 2 ^ 32 }
        ensures acts { Acts self.old.trace.actions ask.now self.new result }
        ensures trace { self.new.trace ≡ self.old.trace }
        ensures held { self.new.held.items ≡ self.old.held.items }
    {
        let by = self.stamp();
        let answer = at_events(self.alloc, &mut self.events, by.number, ask)?;
        Ok(Some(Acted {
            answer,
            object: EVENT_QUEUE,
            place: 0,
        }))
    }

    // What an ask comes to at its object.
    fn act(&mut self, ask: &Ask) -> Result<Option<Acted>, Memory>
        requires kept { IsKept self.old }
        requires few { length self.old.trace.actions + 1 < 2 ^ 32 }
        ensures acts { Acts self.old.trace.actions ask.now self.new result }
        ensures trace { self.new.trace ≡ self.old.trace }
        ensures held { length self.new.held.items ≤ length self.old.held.items + 1 }
    {
        if let Some(channel) = channel_by(ask) {
            return self.ask_channel(channel, ask);
        }
        if is_event(ask) {
            return self.ask_events(ask);
        }
        self.ask_board(ask)
    }

    // The action of an ask that came to this, and what the state is told.
    fn put(&mut self, ask: Ask, acted: Acted) -> Reply
        requires acted { HasActed self.old.trace.actions ask acted self.old }
        requires done { AtEach IsDone self.old.trace.actions }
        requires goes_on { All (λ a. IsOpen a.deed) self.old.trace.actions }
        requires room { length self.old.held.items + 1 ≤ self.old.trace.spare }
        requires few { length self.old.trace.actions + 1 < 2 ^ 32 }
        ensures kept { IsKept self.new }
        ensures replied { HasReplied self.old.trace.actions self.new.trace.actions ask result }
    {
        let by = self.stamp();
        let Acted {
            answer,
            object,
            place,
        } = acted;
        let Answer {
            reply,
            copy,
            changed,
        } = answer;
        self.trace.put(Action {
            number: by.number,
            object,
            place,
            changed,
            deed: Deed::Asked(ask),
            reply,
            readings: None,
        });
        copy
    }

    // What an ask of the state comes to, whose action is put behind the others. Room for it, and for
    // leaving what is held then, is taken before.
    pub(crate) fn answer(&mut self, ask: Ask) -> Outcome
        requires kept { IsKept self.old }
        requires few { length self.old.trace.actions + 3 < 2 ^ 32 }
        ensures kept { IsKept self.new }
        ensures comes { ComesTo self.old.trace.actions self.new.trace.actions ask result }
    {
        let held = self.held_count();
        if self.trace.room(held + 2).is_err() {
            return Outcome::NoMemory;
        }
        match self.act(&ask) {
            Ok(Some(acted)) => Outcome::Replied(self.put(ask, acted)),
            Ok(None) => Outcome::Waits(ask),
            Err(Memory) => Outcome::NoMemory,
        }
    }
}

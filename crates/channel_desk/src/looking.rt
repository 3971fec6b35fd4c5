//! Looks: asks that are answered without a turn.
ghost use Rattle.std.specs.Prelude.{◌≡◌, ◌&&◌, ℕ, pos, int_le, ◌+◌, ◌<◌, ◌^◌, ◌≤◌, List, IfSome, OnSome, IfNone};
ghost use Rattle.variant.specs.declared.action.Deed.TheVariants.{Asked};
ghost use Rattle.channel_core.specs.declared.entry.Entry.{Entry as AnEntry};
ghost use Rattle.channel_core.specs.Answers.{answer, only};
ghost use Rattle.channel_core.specs.History.{sent, received};
ghost use Rattle.channel_core.specs.Lawful.{IsAdmitted};
ghost use Rattle.channel_desk.specs.Deeds.{object_of};
ghost use Rattle.channel_desk.specs.Holding.{IsHolding, sections_on};
ghost use Rattle.channel_desk.specs.Shared.{channel_in, kind_of, packed};
ghost use Rattle.channel_desk.specs.Turns.{IsAt, Waited};
ghost use Rattle.channel_desk.specs.declared.sections.Section.{Section as ASection};
ghost use Rattle.channel_desk.specs.Looking.{AreCounts, Glanced, IsLook, IsOpen, Unseen};

use crate::acting::{asked, object_by};
use crate::given::only as without_entry;
use crate::held::place_of;
use crate::sections::{Section, Sections};
use crate::shared::Shared;
use turn_desk::Held;
use variant::{Action, Ask, Reply};

// The ask again, if it is one that a look may answer.
fn look_by(ask: &Ask) -> Option<Ask>
    ensures same { IfSome result (λ same. (same ≡ ask.now) × IsLook ask.now) }
    ensures other { IfNone result (IsLook ask.now → ⊥) }
{
    match ask {
        Ask::Count(channel) => Some(Ask::Count(*channel)),
        Ask::HasRead(channel, id) => Some(Ask::HasRead(*channel, *id)),
        Ask::Pop(channel) => Some(Ask::Pop(*channel)),
        Ask::Peek(channel) => Some(Ask::Peek(*channel)),
        Ask::Clear(channel) => Some(Ask::Clear(*channel)),
        _ => None,
    }
}

// Whether the message of this id was received, where so many were.
fn is_read(id: i64, received: u32) -> bool
    ensures { result ≡ (int_le (pos 1) id && int_le id (pos received)) }
{
    1 <= id && id <= received as i64
}

// What an ask is answered by a Channel with these counts, unless a message would have to be seen.
fn reply_by_counts(ask: &Ask, sent: u32, received: u32) -> Option<Reply>
    ensures reply { IfSome result (λ reply. (h : List AnEntry) (state depth : ℕ)
        → AreCounts h sent received → IsAdmitted h state
        → answer (Asked ask.now) state depth h ≡ only reply) }
    ensures open { IfNone result (IsOpen ask.now sent received) }
{
    match ask {
        Ask::Count(_) => Some(Reply::Number(sent.saturating_sub(received))),
        Ask::HasRead(_, id) => { Some(Reply::Flag(is_read(id.get(), received))) }
        Ask::Pop(_) if sent <= received => Some(Reply::Nothing),
        Ask::Peek(_) if sent <= received => Some(Reply::Nothing),
        Ask::Clear(_) if sent <= received => Some(Reply::Done),
        _ => None,
    }
}

// The counts of a Channel that a pass has.
pub(crate) fn counts_of(held: &Held<Shared>) -> (u32, u32)
    requires { kind_of held.now.value ≡ 0 }
    ensures { AreCounts (channel_in held.now.value) result.0 result.1 }
{
    match held.value() {
        Shared::Channel(channel) => (channel.sent(), channel.received()),
        Shared::Board(_) => unreachable!(),
    }
}

// The two counts that a Channel's tally shows.
pub(crate) fn counts_by(summary: u64) -> (u32, u32)
    requires { summary < 2 ^ 42 }
    ensures { (h : List AnEntry) → packed (sent h) (received h) ≡ summary
        → AreCounts h result.0 result.1 }
{
    ((summary / (1 << 21)) as u32, (summary % (1 << 21)) as u32)
}

impl Sections<'_, Vec<Section>> {
    /// Answers an ask without a turn, where that can be: how many messages wait and whether one was
    /// read, always; to receive, see or clear messages, where none waits. Inside the state's own
    /// section on the Channel it reads the Channel as the state left it, and elsewhere it looks at
    /// the Channel's tally once. It takes no memory.
    ///
    /// `None` for every other ask, and where a message waits.
    pub fn glance(&mut self, ask: &Ask) -> Option<Action>
        requires holding { IsHolding self.old.desk.now self.old.state self.old.next
            self.old.pass.now self.old.held.items }
        requires next { self.old.next + 1 < 2 ^ 32 }
        ensures same { self.new.pass.ghost_name ≡ self.old.pass.ghost_name }
        ensures desk { self.new.desk.now ≡ self.old.desk.now }
        ensures state { self.new.state ≡ self.old.state }
        ensures holding { IsHolding self.new.desk.now self.new.state self.new.next
            self.new.pass.now self.new.held.items }
        ensures items { self.new.held.items ≡ self.old.held.items }
        ensures next { OnSome result (self.new.next ≡ self.old.next + 1) }
        ensures stays { IfNone result (self.new.next ≡ self.old.next) }
        ensures waited { Waited self.old.pass.now.view self.new.pass.now.view }
        ensures glanced { IfSome result (λ a. Glanced
            (record { state = self.old.state; number = self.old.next })
            self.old.pass.now.view self.new.pass.now.view self.old.held.items ask.now a) }
        ensures unseen { IfNone result (Unseen
            (record { state = self.old.state; number = self.old.next })
            ask.now self.old.pass.now.view self.new.pass.now.view self.old.held.items) }
    {
        let same = look_by(ask)?;
        let object = object_by(ask);
        match self.section_on(object) {
            Some(at) => self.glance_inside(at, object, same),
            None => self.glance_outside(object, same),
        }
    }

    // An answer of the Channel whose section is at this place.
    fn glance_inside(&mut self, at: usize, object: u32, ask: Ask) -> Option<Action>
        requires holding { IsHolding self.old.desk.now self.old.state self.old.next
            self.old.pass.now self.old.held.items }
        requires next { self.old.next + 1 < 2 ^ 32 }
        requires object { object ≡ object_of ask }
        requires section { (s : ASection) × IsAt self.old.held.items object at s }
        ensures same { self.new.pass.ghost_name ≡ self.old.pass.ghost_name }
        ensures desk { self.new.desk.now ≡ self.old.desk.now }
        ensures state { self.new.state ≡ self.old.state }
        ensures holding { IsHolding self.new.desk.now self.new.state self.new.next
            self.new.pass.now self.new.held.items }
        ensures items { self.new.held.items ≡ self.old.held.items }
        ensures next { OnSome result (self.new.next ≡ self.old.next + 1) }
        ensures stays { IfNone result (self.new.next ≡ self.old.next) }
        ensures pass { self.new.pass.now ≡ self.old.pass.now }
        ensures glanced { IfSome result (λ a. Glanced
            (record { state = self.old.state; number = self.old.next })
            self.old.pass.now.view self.new.pass.now.view self.old.held.items ask a) }
        ensures unseen { IfNone result (Unseen
            (record { state = self.old.state; number = self.old.next })
            ask self.old.pass.now.view self.new.pass.now.view self.old.held.items) }
    {
        let held = &self.held[at].held;
        let (sent, received) = counts_of(held);
        let place = place_of(held);
        let reply = reply_by_counts(&ask, sent, received)?;
        let by = self.stamp();
        self.next += 1;
        Some(asked(by, object, place, ask, without_entry(reply)))
    }

    // An answer by a look at a Channel that the state isn't inside.
    fn glance_outside(&mut self, object: u32, ask: Ask) -> Option<Action>
        requires holding { IsHolding self.old.desk.now self.old.state self.old.next
            self.old.pass.now self.old.held.items }
        requires next { self.old.next + 1 < 2 ^ 32 }
        requires object { (object ≡ object_of ask) × (object ≤ 1024) }
        requires outside { sections_on object self.old.held.items ≡ 0 }
        ensures same { self.new.pass.ghost_name ≡ self.old.pass.ghost_name }
        ensures desk { self.new.desk.now ≡ self.old.desk.now }
        ensures state { self.new.state ≡ self.old.state }
        ensures holding { IsHolding self.new.desk.now self.new.state self.new.next
            self.new.pass.now self.new.held.items }
        ensures items { self.new.held.items ≡ self.old.held.items }
        ensures next { OnSome result (self.new.next ≡ self.old.next + 1) }
        ensures stays { IfNone result (self.new.next ≡ self.old.next) }
        ensures waited { Waited self.old.pass.now.view self.new.pass.now.view }
        ensures glanced { IfSome result (λ a. Glanced
            (record { state = self.old.state; number = self.old.next })
            self.old.pass.now.view self.new.pass.now.view self.old.held.items ask a) }
        ensures unseen { IfNone result (Unseen
            (record { state = self.old.state; number = self.old.next })
            ask self.old.pass.now.view self.new.pass.now.view self.old.held.items) }
    {
        let tally = self.desk.look(self.pass, object);
        let (sent, received) = counts_by(tally.summary);
        let reply = reply_by_counts(&ask, sent, received)?;
        let by = self.stamp();
        self.next += 1;
        Some(asked(by, object, tally.place, ask, without_entry(reply)))
    }
}

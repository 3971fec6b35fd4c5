//! The end of a state that is cut short inside its sections.
ghost use Rattle.std.specs.Prelude.{◌≡◌, ℕ, ◌+◌, ◌<◌, ◌≤◌, ◌^◌, [], true, false, None, length};
ghost use Rattle.variant.specs.declared.reply.Reply.TheVariants.{Done};
ghost use Rattle.variant.specs.Log.{MayFollow};
ghost use Rattle.variant.specs.declared.action.Deed.TheVariants.{CutLeave as Cutting};
ghost use Rattle.channel_desk.specs.Holding.{IsHolding};
ghost use Rattle.channel_desk.specs.Leaving.{CutOne, LeftAll};

use crate::held::leave_held;
use crate::sections::{Section, Sections};
use love_base::ChannelNo;
use variant::{Action, Deed, Reply, StateLog};

// The action by which a state that is cut short leaves a Channel.
fn cut(number: u32, channel: ChannelNo, place: u32) -> Action
    ensures { result ≡ record {
      number = number;
      object = channel;
      place = place;
      changed = true;
      deed = Cutting channel;
      reply = Done;
      readings = None;
    } }
{
    Action {
        number,
        object: channel.get(),
        place,
        changed: true,
        deed: Deed::CutLeave(channel),
        reply: Reply::Done,
        readings: None,
    }
}

impl Sections<'_, Vec<Section>> {
    /// Leaves each Channel that the state is inside, the last entered first, and puts an action for
    /// each into the log, which has room for them. It waits for nobody, rings no bell and takes no
    /// memory.
    pub fn leave_all(&mut self, log: &mut StateLog)
        requires holding { IsHolding self.old.desk.now self.old.state self.old.next
            self.old.pass.now self.old.held.items }
        requires next { self.old.next + length self.old.held.items < 2 ^ 32 }
        requires room { length self.old.held.items ≤ log.old.spare }
        requires order { (channel : ℕ) → MayFollow log.old.actions (Cutting channel) }
        ensures same { self.new.pass.ghost_name ≡ self.old.pass.ghost_name }
        ensures desk { self.new.desk.now ≡ self.old.desk.now }
        ensures state { self.new.state ≡ self.old.state }
        ensures holding { IsHolding self.new.desk.now self.new.state self.new.next
            self.new.pass.now self.new.held.items }
        ensures none { self.new.held.items ≡ [] }
        ensures left { LeftAll self.old.state self.old.next self.old.pass.now.view
            self.old.held.items log.old.actions
            self.new.next self.new.pass.now.view self.new.held.items log.new.actions }
    {
        while self.leave_last(log) {}
    }

    // Leaves the Channel that was entered last, if there is one.
    fn leave_last(&mut self, log: &mut StateLog) -> bool
        requires holding { IsHolding self.old.desk.now self.old.state self.old.next
            self.old.pass.now self.old.held.items }
        requires next { self.old.next + length self.old.held.items < 2 ^ 32 }
        requires room { length self.old.held.items ≤ log.old.spare }
        requires order { (channel : ℕ) → MayFollow log.old.actions (Cutting channel) }
        ensures same { self.new.pass.ghost_name ≡ self.old.pass.ghost_name }
        ensures desk { self.new.desk.now ≡ self.old.desk.now }
        ensures state { self.new.state ≡ self.old.state }
        ensures holding { IsHolding self.new.desk.now self.new.state self.new.next
            self.new.pass.now self.new.held.items }
        ensures none { result ≡ false → (self.old.held.items ≡ []) × (self.new.held.items ≡ [])
            × (self.new.next ≡ self.old.next) × (self.new.pass.now ≡ self.old.pass.now)
            × (log.new.actions ≡ log.old.actions) }
        ensures one { result ≡ true → CutOne self.old.state self.old.next
            self.old.pass.now.view self.new.pass.now.view
            self.old.held.items self.new.held.items log.old.actions log.new.actions }
        ensures fewer { result ≡ true → (self.new.next ≡ self.old.next + 1)
            × (length self.old.held.items ≡ length self.new.held.items + 1) }
        ensures room { result ≡ true → log.old.spare ≤ log.new.spare + 1 }
    {
        let by = self.stamp();
        let Some(mut section) = self.held.pop() else {
            return false;
        };
        let Some(channel) = ChannelNo::new(section.held.object()) else {
            unreachable!()
        };
        let place = leave_held(&mut section.held, by);
        self.desk.release(self.pass, section.held);
        self.next += 1;
        log.put(cut(by.number, channel, place));
        true
    }
}

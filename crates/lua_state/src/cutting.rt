//! The end of a state that runs alone inside its sections.
ghost use Rattle.std.specs.Prelude.{◌≡◌, ◌+◌, ◌<◌, ◌^◌, [], length, None, true, false};
ghost use Rattle.variant.specs.declared.reply.Reply.TheVariants.{Done as IsDone};
ghost use Rattle.variant.specs.declared.action.Deed.TheVariants.{CutLeave as Cutting};
ghost use Rattle.lua_state.specs.Kept.{IsKept};
ghost use Rattle.lua_state.specs.Cuts.{LeavesAll, LeavesOne};

use crate::objects::Objects;
use love_base::{ChannelNo, Stamp};
use variant::{Action, Deed, Reply};

// The action by which a state that is cut short leaves a Channel.
fn cut(by: Stamp, channel: ChannelNo, place: u32) -> Action
    ensures { result ≡ record {
      number = by.number;
      object = channel;
      place = place;
      changed = true;
      deed = Cutting channel;
      reply = IsDone;
      readings = None;
    } }
{
    Action {
        number: by.number,
        object: channel.get(),
        place,
        changed: true,
        deed: Deed::CutLeave(channel),
        reply: Reply::Done,
        readings: None,
    }
}

impl Objects {
    // Leaves each Channel that the state holds, the last entered first. It takes no memory.
    #[tactic(auto, using(crate::proofs::Leaving::none_left, crate::proofs::Leaving::one_left, crate::proofs::Leaving::all_left, crate::proofs::Leaving::sum_kept))]
    pub(crate) fn leave_all(&mut self)
        requires kept { IsKept self.old }
        requires few { length self.old.trace.actions + length self.old.held.items + 1 < 2 ^ 32 }
        ensures kept { IsKept self.new }
        ensures none { self.new.held.items ≡ [] }
        ensures left { LeavesAll self.old.trace.actions self.new.trace.actions
            self.old.held.items }
    {
        while self.leave_last() {}
    }

    // Leaves the Channel that was entered last, if there is one.
    fn leave_last(&mut self) -> bool
        requires kept { IsKept self.old }
        requires few { length self.old.trace.actions + 1 < 2 ^ 32 }
        ensures kept { IsKept self.new }
        ensures none { result ≡ false → (self.old.held.items ≡ [])
            × (self.new.held.items ≡ []) × (self.new.trace ≡ self.old.trace) }
        ensures one { result ≡ true → LeavesOne self.old.trace.actions self.new.trace.actions
            self.old.held.items self.new.held.items }
    {
        let by = self.stamp();
        let Some(channel) = self.held.pop() else {
            return false;
        };
        let at = channel.get() as usize - 1;
        let place = self.channels[at].leave(by);
        self.depths[at] = 0;
        self.trace.put(cut(by, channel, place));
        true
    }
}

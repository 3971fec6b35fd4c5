//! Handlers of operators and fields (Lua 5.1 manual §2.8).

ghost use Rattle.std.specs.Prelude.{◌≡◌, ◌+◌, ◌<◌, ◌^◌, ℕ, length, IfOk};
ghost use Rattle.lua_heap.specs.Heap.{IsMade};
ghost use Rattle.lua_code.specs.Act.{wanted};
ghost use Rattle.lua_operators.specs.Doing.{use_view};
ghost use Rattle.lua_machine.specs.View.{wants_view};
ghost use Rattle.lua_machine.specs.Made.{AreMade};
ghost use Rattle.lua_machine.specs.Ready.{WantsFit, IsReady};
ghost use Rattle.lua_machine.specs.Does.{site_at};
ghost use Rattle.lua_machine.specs.Settled.{GoesOn};
ghost use Rattle.lua_machine.specs.Handling.{Handles};

use crate::arguments::Behind;
use crate::engine::Engine;
use crate::frame::Wants;
use crate::status::Status;
use love_base::Memory;
use lua_heap::Value;
use lua_operators::Use;

// What is wanted of the results of a handler, for a slot.
pub(crate) fn wanted(becomes: Use, to: u32) -> Wants
    ensures view { wants_view result ≡ wanted (use_view becomes) to }
    ensures fits { (base count : ℕ) → base + to < count → WantsFit base count result }
{
    match becomes {
        Use::Plain => Wants::ToSlot(to),
        Use::Truth => Wants::TruthTo(to),
        Use::Untruth => Wants::UntruthTo(to),
    }
}

impl<'a> Engine<'a> {
    // How many slots of the running function are in use at the next instruction.
    fn height(&self) -> usize
        requires ready { IsReady self.now }
        ensures { result ≡ (site_at self.now.proto self.now.pc).above }
    {
        self.proto.sites()[self.pc].above as usize
    }

    // Calls a handler on values. It runs above the slots that are in use.
    #[inline(never)]
    pub(crate) fn handle(
        &mut self,
        wants: Wants,
        handler: Value,
        args: &[Value],
    ) -> Result<Status, Memory>
        requires ready { IsReady self.old }
        requires leads { GoesOn self.old }
        requires pc { self.old.pc + 1 < 2 ^ 32 }
        requires fits { WantsFit self.old.base (length self.old.values) wants }
        requires handler { IsMade self.old.heap handler }
        requires args { AreMade self.old.heap args.now }
        ensures { IfOk result (λ status. Handles wants handler args.now status self.old self.new) }
    {
        let height = self.height();
        self.make_room(self.base, height)?;
        self.args = Vec::from_slice(self.alloc, args)?;
        let first = self.base + height;
        self.call(wants, handler, first, 0, Behind::Args)
    }
}

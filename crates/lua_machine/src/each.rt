//! Generic loops.

ghost use Rattle.std.specs.Prelude.{◌≡◌, ◌+◌};
ghost use Rattle.lua_heap.specs.Heap.{IsMade};
ghost use Rattle.lua_code.specs.declared.instr.Instr.TheVariants.{EachNext};
ghost use Rattle.lua_machine.specs.Ready.{IsReadyFor};
ghost use Rattle.lua_machine.specs.View.{value_at};
ghost use Rattle.lua_machine.specs.Does.{Takes, HasSlot};

use crate::engine::Engine;
use crate::status::Status;
use lua_heap::Value;

impl<'a> Engine<'a> {
    // What a loop's function gave first.
    #[inline]
    fn each_value(&self, at: u32) -> Value
        requires slots { HasSlot self.now (at + 3) }
        ensures value { result ≡ value_at self.now.values (self.now.base + (at + 3)) }
        ensures made { IsMade self.now.heap result }
    {
        self.values[self.base + at as usize + 3]
    }

    // The next turn of a loop begins with what its function gave, or the loop ends at nil.
    #[inline]
    pub(crate) fn each_next(&mut self, at: u32, count: u32) -> Status
        requires ready { IsReadyFor (EachNext at count) self.old }
        ensures { Takes (EachNext at count) result self.old self.new }
    {
        let value = self.each_value(at);
        if let Value::Nil = value {
            self.pc += 1;
            return Status::Goes;
        }
        if self.ticks == 0 {
            return Status::NoTick;
        }
        self.ticks -= 1;
        let to = self.base + at as usize + 2;
        self.values[to] = value;
        self.pc -= count as usize;
        Status::Goes
    }
}

//! Slots.

ghost use Rattle.std.specs.Prelude.{◌≡◌, ◌+◌, ◌<◌, ◌^◌};
ghost use Rattle.lua_heap.specs.Heap.{IsMade};
ghost use Rattle.lua_machine.specs.View.{value_at};
ghost use Rattle.lua_machine.specs.Does.{HasSlot, with_slot};

use crate::engine::Engine;
use lua_heap::Value;

impl<'a> Engine<'a> {
    // What stands in a slot.
    #[inline]
    pub(crate) fn at(&self, slot: u32) -> Value
        requires slot { HasSlot self.now slot }
        ensures value { result ≡ value_at self.now.values (self.now.base + slot) }
        ensures made { IsMade self.now.heap result }
    {
        self.values[self.base + slot as usize]
    }

    // A slot gets a value, and the next instruction comes.
    #[inline]
    pub(crate) fn put(&mut self, slot: u32, value: Value)
        requires slot { HasSlot self.old slot }
        requires pc { self.old.pc + 1 < 2 ^ 32 }
        requires made { IsMade self.old.heap value }
        ensures { self.new ≡ with_slot self.old slot value }
    {
        let at = self.base + slot as usize;
        self.values[at] = value;
        self.pc += 1;
    }
}

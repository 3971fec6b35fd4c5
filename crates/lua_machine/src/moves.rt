//! Instructions that bring values to slots.

ghost use Rattle.std.specs.Prelude.{◌≡◌, ◌+◌, ◌<◌, ◌^◌};
ghost use Rattle.lua_heap.specs.Heap.{IsMade};
ghost use Rattle.lua_code.specs.declared.instr.Instr.TheVariants.{Move, Const};
ghost use Rattle.lua_machine.specs.declared.status.Status.TheVariants.{Goes};
ghost use Rattle.lua_machine.specs.Constants.{constant_in, HasConstant};
ghost use Rattle.lua_machine.specs.Ready.{IsReadyFor};
ghost use Rattle.lua_machine.specs.Does.{Takes};

use crate::engine::Engine;
use lua_heap::Value;

impl<'a> Engine<'a> {
    #[inline]
    pub(crate) fn shift(&mut self, to: u32, from: u32)
        requires ready { IsReadyFor (Move to from) self.old }
        ensures { Takes (Move to from) Goes self.old self.new }
    {
        let value = self.at(from);
        self.put(to, value);
    }

    // A constant of the running function.
    #[inline]
    pub(crate) fn constant(&self, n: u32) -> Value
        requires constant { HasConstant self.now n }
        ensures value { result ≡ constant_in self.now n }
        ensures made { IsMade self.now.heap result }
    {
        let chunk = &self.chunks[self.chunk as usize];
        chunk.constants[self.func as usize].as_slice()[n as usize]
    }

    #[inline]
    pub(crate) fn load_constant(&mut self, to: u32, n: u32)
        requires ready { IsReadyFor (Const to n) self.old }
        ensures { Takes (Const to n) Goes self.old self.new }
    {
        let value = self.constant(n);
        self.put(to, value);
    }
}

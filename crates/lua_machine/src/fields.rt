//! Fields read (Lua 5.1 manual §2.2, §2.3). A handler that is asked isn't called yet.

ghost use Rattle.std.specs.Prelude.{IfOk};
ghost use Rattle.lua_heap.specs.Heap.{IsMade};
ghost use Rattle.lua_code.specs.declared.instr.Instr.TheVariants.{GetField, GetNamed, GetGlobal};
ghost use Rattle.lua_machine.specs.Ready.{IsReadyFor};
ghost use Rattle.lua_machine.specs.Does.{Takes};

use crate::engine::Engine;
use crate::status::Status;
use love_base::Memory;
use lua_heap::Value;
use lua_operators::field;

impl<'a> Engine<'a> {
    pub(crate) fn get_field(&mut self, to: u32, base: u32, key: u32) -> Result<Status, Memory>
        requires ready { IsReadyFor (GetField to base key) self.old }
        ensures { IfOk result (λ status.
            Takes (GetField to base key) status self.old self.new) }
    {
        let base = self.at(base);
        let key = self.at(key);
        let doing = field(&self.heap, &base, &key);
        self.settle(to, doing)
    }

    pub(crate) fn get_named(&mut self, to: u32, base: u32, name: u32) -> Result<Status, Memory>
        requires ready { IsReadyFor (GetNamed to base name) self.old }
        ensures { IfOk result (λ status.
            Takes (GetNamed to base name) status self.old self.new) }
    {
        let base = self.at(base);
        let key = self.constant(name);
        let doing = field(&self.heap, &base, &key);
        self.settle(to, doing)
    }

    pub(crate) fn get_global(&mut self, to: u32, name: u32) -> Result<Status, Memory>
        requires ready { IsReadyFor (GetGlobal to name) self.old }
        ensures { IfOk result (λ status. Takes (GetGlobal to name) status self.old self.new) }
    {
        let base = Value::Table(self.heap.globals());
        let key = self.constant(name);
        let doing = field(&self.heap, &base, &key);
        self.settle(to, doing)
    }
}

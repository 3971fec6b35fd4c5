//! `require` (Lua 5.1 manual §5.3; the files are those of the game's folder).

ghost use Rattle.std.specs.Prelude.{◌≡◌, IfOk, IfSome};
ghost use Rattle.lua_meaning.specs.Value.{first};
ghost use Rattle.lua_heap.specs.Value.{value_view};
ghost use Rattle.lua_heap.specs.Heap.{IsMade};
ghost use Rattle.lua_machine.specs.Ready.{IsServing};
ghost use Rattle.lua_machine.specs.Back.{kept_of};
ghost use Rattle.lua_machine.specs.Fulfilling.{Fulfils};
ghost use Rattle.lua_machine.specs.Requiring.{KeepsModule, IsModuleValue};

use crate::engine::Engine;
use crate::frame::Duty;
use crate::module::Module;
use crate::status::Status;
use love_base::Memory;
use lua_heap::{StrId, Value};

impl<'a> Engine<'a> {
    // The value that a module is kept as: true stands for nil.
    fn module_value(&self) -> Value
        ensures value { IsModuleValue result self.now }
        ensures made { IsMade self.now.heap result }
    {
        match self.first_arg() {
            Value::Nil => Value::Bool(true),
            value => value,
        }
    }

    // The name that is kept.
    fn kept_name(&self) -> Option<StrId>
        ensures name { IfSome result (λ name. first (kept_of self.now)
            ≡ value_view self.now.heap.texts (Value.Str name)) }
        ensures made { IfSome result (λ name. IsMade self.now.heap (Value.Str name)) }
    {
        match self.extras.get(self.extra_base) {
            Some(Value::Str(name)) => Some(*name),
            _ => None,
        }
    }

    // A module gets its value, which is given.
    fn give_module(&mut self, name: StrId, value: &Value) -> Result<Status, Memory>
        requires ready { IsServing self.old }
        requires name { IsMade self.old.heap (Value.Str name) }
        requires value { IsMade self.old.heap value.now }
        ensures { IfOk result (λ status. KeepsModule name value.now status self.old self.new) }
    {
        self.modules.push(Module {
            name,
            value: Some(*value),
        })?;
        self.give_one(*value)
    }

    // `require` keeps the value of a module.
    pub(crate) fn keep_module(&mut self) -> Result<Status, Memory>
        requires ready { IsServing self.old }
        ensures { IfOk result (λ status. Fulfils Duty.Requires status self.old self.new) }
    {
        let value = self.module_value();
        let Some(name) = self.kept_name() else {
            return Err(Memory);
        };
        self.give_module(name, &value)
    }
}

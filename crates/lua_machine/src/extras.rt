//! Extra arguments (Lua 5.1 manual §2.5.9).

ghost use Rattle.std.specs.Prelude.{◌≡◌, IfOk};
ghost use Rattle.lua_meaning.specs.Value.{first};
ghost use Rattle.lua_heap.specs.Heap.{IsMade};
ghost use Rattle.lua_heap.specs.Value.{value_view};
ghost use Rattle.lua_code.specs.declared.instr.Instr.TheVariants.{FirstExtra, AllExtra};
ghost use Rattle.lua_machine.specs.declared.status.Status.TheVariants.{Goes};
ghost use Rattle.lua_machine.specs.View.{run_of};
ghost use Rattle.lua_machine.specs.Ready.{IsReadyFor};
ghost use Rattle.lua_machine.specs.Does.{Takes};

use crate::engine::Engine;
use crate::status::Status;
use love_base::Memory;
use lua_heap::Value;

impl<'a> Engine<'a> {
    // The first extra argument of the running function, nil where it has none.
    fn extra(&self) -> Value
        ensures value { value_view self.now.heap.texts result ≡ first (run_of self.now).extra }
        ensures made { IsMade self.now.heap result }
    {
        match self.extras.get(self.extra_base) {
            Some(value) => *value,
            None => Value::Nil,
        }
    }

    pub(crate) fn first_extra(&mut self, to: u32)
        requires ready { IsReadyFor (FirstExtra to) self.old }
        ensures { Takes (FirstExtra to) Goes self.old self.new }
    {
        let value = self.extra();
        self.put(to, value);
    }

    pub(crate) fn all_extra(&mut self) -> Result<Status, Memory>
        requires ready { IsReadyFor AllExtra self.old }
        ensures { IfOk result (λ status. Takes AllExtra status self.old self.new) }
    {
        self.tail.clear();
        self.tail
            .extend_from_slice(&self.extras[self.extra_base..])?;
        self.pc += 1;
        Ok(Status::Goes)
    }
}

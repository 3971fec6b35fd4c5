//! Tables.

ghost use Rattle.std.specs.Prelude.{IfOk};
ghost use Rattle.lua_code.specs.declared.instr.Instr.TheVariants.{NewTable};
ghost use Rattle.lua_machine.specs.Ready.{IsReadyFor};
ghost use Rattle.lua_machine.specs.Does.{Takes};

use crate::engine::Engine;
use crate::status::Status;
use love_base::Memory;
use lua_heap::Value;

impl<'a> Engine<'a> {
    #[inline]
    pub(crate) fn new_table(&mut self, to: u32) -> Result<Status, Memory>
        requires ready { IsReadyFor (NewTable to) self.old }
        ensures { IfOk result (λ status. Takes (NewTable to) status self.old self.new) }
    {
        let id = self.heap.new_table()?;
        self.put(to, Value::Table(id));
        Ok(Status::Goes)
    }
}

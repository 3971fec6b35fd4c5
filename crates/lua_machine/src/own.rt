//! The machine's own functions: those that call back, know their callers, or load code.

ghost use Rattle.std.specs.Prelude.{IfOk};
ghost use Rattle.lua_heap.specs.Native.{native_view};
ghost use Rattle.lua_code.specs.Held.{program_view};
ghost use Rattle.lua_machine.specs.Ready.{IsServing};
ghost use Rattle.lua_machine.specs.Serving.{Served};

use crate::engine::Engine;
use crate::status::Status;
use love_base::Memory;
use lua_code::Program;
use lua_heap::Native;

impl<'a> Engine<'a> {
    // Runs one of them.
    pub(crate) fn serve_own(
        &mut self,
        program: &'a Program,
        state: u32,
        native: Native,
    ) -> Result<Status, Memory>
        requires ready { IsServing self.old }
        ensures { IfOk result (λ status. Served (program_view program.now state) native status
            self.old self.new) }
    {
        let _ = state;
        let _ = program;
        match native {
            Native::Error => self.raise_error(),
            Native::Pcall => self.try_call(),
            Native::Print => self.print(),
            Native::ToString => self.convert_text(),
            _ => Err(Memory),
        }
    }
}

//! Calls that functions of the library make.

ghost use Rattle.std.specs.Prelude.{◌≡◌, ◌+◌, ◌<◌, length, IfOk};
ghost use Rattle.lua_meaning.specs.Fault.{call_text};
ghost use Rattle.lua_heap.specs.Value.{value_view};
ghost use Rattle.lua_heap.specs.Heap.{IsMade};
ghost use Rattle.lua_heap.specs.Native.{native_view};
ghost use Rattle.lua_code.specs.Frames.{built_in};
ghost use Rattle.lua_machine.specs.Ready.{IsServing};
ghost use Rattle.lua_machine.specs.Serving.{IsRefusal};
ghost use Rattle.lua_machine.specs.Callees.{callee_at};
ghost use Rattle.lua_machine.specs.Entering.{HasFunction};
ghost use Rattle.lua_machine.specs.Back.{TakesCall, Starts, CallsBack};

use crate::arguments::Behind;
use crate::engine::Engine;
use crate::frame::Duty;
use crate::invoke::{Callee, MOST_CALLS, refusal_text};
use crate::status::Status;
use love_base::Memory;
use lua_heap::{FuncId, Native, Value};

impl<'a> Engine<'a> {
    // A call, whose frame is on top, takes its tick; then the limit on active calls is tested. Where
    // there is another status, the call doesn't begin.
    fn take_call(&mut self) -> Result<Option<Status>, Memory>
        requires ready { IsServing self.old }
        ensures { IfOk result (λ status. TakesCall status self.old self.new) }
    {
        if self.ticks == 0 {
            return Ok(Some(Status::NoTick));
        }
        self.ticks -= 1;
        if self.frames.len() > MOST_CALLS {
            let value = self.refusal(b"stack overflow")?;
            return Ok(Some(Status::Raises(value)));
        }
        Ok(None)
    }

    // A function of Lua runs on the arguments that were put together.
    fn run_function(&mut self, id: FuncId) -> Result<Status, Memory>
        requires ready { IsServing self.old }
        requires top { self.old.extra_base ≡ length self.old.extras }
        requires function { HasFunction self.old id }
        ensures { IfOk result (λ status. Starts (callee_at self.old id) status self.old self.new) }
    {
        if let Some(status) = self.take_call()? {
            return Ok(status);
        }
        self.begin_on(id, self.base, self.cell_base, 0, Behind::Args)?;
        Ok(Status::Goes)
    }

    // So does one of the library.
    fn run_native(&mut self, native: Native) -> Result<Status, Memory>
        requires ready { IsServing self.old }
        ensures { IfOk result (λ status. Starts (built_in (native_view native)) status self.old
            self.new) }
    {
        if let Some(status) = self.take_call()? {
            return Ok(status);
        }
        Ok(Status::Serves(native))
    }

    // The error of a value that can't be called.
    fn call_refusal(&mut self, value: &Value) -> Result<Value, Memory>
        requires ready { IsServing self.old }
        ensures { IfOk result (λ error. IsRefusal
            (call_text (value_view self.old.heap.texts value.now)) error self.old self.new) }
    {
        let text = refusal_text(self.alloc, value)?;
        self.refusal(text.as_slice())
    }

    // A function of the library calls a value on the arguments that were put together, and waits for
    // the results.
    pub(crate) fn call_back(&mut self, duty: Duty, value: Value) -> Result<Status, Memory>
        requires ready { IsServing self.old }
        requires made { IsMade self.old.heap value }
        ensures { IfOk result (λ status. CallsBack duty value status self.old self.new) }
    {
        self.push_duty(duty)?;
        match self.callee(&value) {
            Callee::Runs(id) => self.run_function(id),
            Callee::Handles(id) => {
                self.args.insert(0, value)?;
                self.run_function(id)
            }
            Callee::Library(native) => self.run_native(native),
            Callee::HandlesLibrary(native) => {
                self.args.insert(0, value)?;
                self.run_native(native)
            }
            Callee::Nothing => {
                let error = self.call_refusal(&value)?;
                Ok(Status::Raises(error))
            }
        }
    }
}

//! Functions of the library.

ghost use Rattle.std.specs.Prelude.{◌≡◌, ◌-◌, ◌<◌, length, IfOk};
ghost use Rattle.lua_heap.specs.Native.{native_view};
ghost use Rattle.lua_heap.specs.Heap.{IsMade};
ghost use Rattle.lua_lib.specs.Texts.{cause_text, placed_text};
ghost use Rattle.lua_machine.specs.View.{protos_at, proto_at, line_of, place_of};
ghost use Rattle.lua_code.specs.Held.{program_view};
ghost use Rattle.lua_lib.specs.Here.{is_here};
ghost use Rattle.lua_machine.specs.Ready.{AreFit, IsServing};
ghost use Rattle.lua_machine.specs.Serving.{IsCaller, IsCallerOf, is_memory, IsText, Failed, Served, ServedOr};

use crate::engine::Engine;
use crate::frame::{Frame, Role};
use crate::status::Status;
use love_base::Memory;
use lua_code::{Program, Proto};
use lua_heap::{Native, Value};
use lua_lib::Fault;
use lua_lib::call::{Cause, LibFault, call};

// Whether memory was refused.
fn is_memory(cause: &Cause) -> bool
    ensures { result ≡ is_memory cause.now }
{
    matches!(*cause, Cause::By(Fault::Memory))
}

// The line of the call for which a function waits.
pub(crate) fn call_line(proto: &Proto, pc: usize) -> u32
    requires inside { pc - 1 < length proto.now.sites }
    ensures { result ≡ line_of proto.now pc }
{
    proto.sites()[pc.saturating_sub(1)].line
}

impl<'a> Engine<'a> {
    // The code of a function that waits.
    pub(crate) fn waiting_code(&self, frame: Frame) -> &'a Proto
        requires known { frame.func < length (protos_at self.now.chunks frame.chunk) }
        ensures { result.now ≡ proto_at self.now.chunks frame.chunk frame.func }
    {
        let code = self.chunks[frame.chunk as usize].code;
        &code.protos()[frame.func as usize]
    }

    // The function of Lua that called the one that runs, where one did.
    pub(crate) fn caller(&self) -> Option<Frame>
        requires fit { AreFit self.now }
        ensures { IsCaller result self.now }
    {
        let frame = self.top()?;
        match frame.role {
            Role::Waits(_) => Some(frame),
            Role::Serves(_) => None,
        }
    }

    // The text of an error of a function, behind the place of its caller.
    fn placed_error(&mut self, native: Native, cause: &Cause, frame: Frame) -> Result<Value, Memory>
        requires fit { AreFit self.old }
        requires caller { IsCallerOf frame self.old }
        ensures { IfOk result (λ value. IsText (placed_text (native_view native)
            (place_of self.old.chunks frame) cause.now) value self.old self.new) }
    {
        let pc = frame.pc;
        let proto = self.waiting_code(frame);
        let line = call_line(proto, pc);
        self.buffer.clear();
        cause.put_placed(native, &mut self.buffer, proto.file().bytes(), line)?;
        let id = self.heap.intern(self.buffer.as_slice())?;
        Ok(Value::Str(id))
    }

    // The same, where no function of Lua called it.
    fn plain_error(&mut self, native: Native, cause: &Cause) -> Result<Value, Memory>
        requires fit { AreFit self.old }
        ensures { IfOk result (λ value. IsText (cause_text (native_view native) cause.now) value
            self.old self.new) }
    {
        self.buffer.clear();
        cause.put_text(native, &mut self.buffer)?;
        let id = self.heap.intern(self.buffer.as_slice())?;
        Ok(Value::Str(id))
    }

    // A value that a program gave as an error. The library's clauses don't say that it was made.
    fn own_error(&self, value: &Value) -> Result<Value, Memory>
        ensures value { IfOk result (λ same. same ≡ value.now) }
        ensures made { IfOk result (λ same. IsMade self.now.heap same) }
    {
        if self.heap.is_made(*value) {
            Ok(*value)
        } else {
            Err(Memory)
        }
    }

    // The value of an error of a function.
    #[inline(never)]
    pub(crate) fn cause_error(&mut self, native: Native, cause: &Cause) -> Result<Value, Memory>
        requires fit { AreFit self.old }
        ensures { IfOk result (λ value. Failed native cause.now value self.old self.new) }
    {
        if let Cause::Raises(value) = *cause {
            return self.own_error(&value);
        }
        if is_memory(cause) {
            return Err(Memory);
        }
        match self.caller() {
            Some(frame) => self.placed_error(native, cause, frame),
            None => self.plain_error(native, cause),
        }
    }

    // Runs a function that `lua_lib` has.
    fn serve_library(&mut self, native: Native) -> Result<Option<Status>, Memory>
        requires ready { IsServing self.old }
        ensures { IfOk result (λ status. ServedOr (is_here (native_view native)) status native
            self.old self.new) }
    {
        match call(self.alloc, &mut self.heap, native, self.args.as_slice()) {
            Ok(values) => {
                self.args = values;
                Ok(Some(Status::Gives))
            }
            Err(LibFault::Elsewhere) => Ok(None),
            Err(LibFault::Fails(cause)) => {
                let value = self.cause_error(native, &cause)?;
                Ok(Some(Status::Raises(value)))
            }
        }
    }

    // Runs a function of the library that was called.
    pub(crate) fn serve(
        &mut self,
        program: &'a Program,
        state: u32,
        native: Native,
    ) -> Result<Status, Memory>
        requires ready { IsServing self.old }
        ensures { IfOk result (λ status. Served (program_view program.now state) native status
            self.old self.new) }
    {
        if let Some(status) = self.serve_library(native)? {
            return Ok(status);
        }
        if let Some(status) = self.ask(program, state, native)? {
            return Ok(status);
        }
        self.serve_own(program, state, native)
    }
}

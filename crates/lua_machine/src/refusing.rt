//! Errors of functions of the library that have a text of their own.

ghost use Rattle.std.specs.Prelude.{Some, IfOk, IfSome};
ghost use Rattle.lua_meaning.specs.Fault.{placed};
ghost use Rattle.lua_machine.specs.View.{place_of};
ghost use Rattle.lua_machine.specs.Ready.{AreFit};
ghost use Rattle.lua_machine.specs.Refusing.{frame_place, HasSite};
ghost use Rattle.lua_machine.specs.Serving.{IsText, IsRefusal};

use crate::engine::Engine;
use crate::errors::put_placed;
use crate::frame::Frame;
use crate::serving::call_line;
use love_base::Memory;
use lua_heap::Value;

impl<'a> Engine<'a> {
    // The value of a text.
    pub(crate) fn text_value(&mut self, text: &[u8]) -> Result<Value, Memory>
        requires fit { AreFit self.old }
        ensures { IfOk result (λ value. IsText text.now value self.old self.new) }
    {
        let id = self.heap.intern(text)?;
        Ok(Value::Str(id))
    }

    // The value of a text behind the place where a function waits.
    fn placed_value(&mut self, text: &[u8], frame: Frame) -> Result<Value, Memory>
        requires fit { AreFit self.old }
        requires site { HasSite frame self.old }
        ensures { IfOk result (λ value. IsText
            (placed (Some (place_of self.old.chunks frame)) text.now) value self.old self.new) }
    {
        let pc = frame.pc;
        let proto = self.waiting_code(frame);
        let line = call_line(proto, pc);
        put_placed(&mut self.buffer, proto.file().bytes(), line, text)?;
        let id = self.heap.intern(self.buffer.as_slice())?;
        Ok(Value::Str(id))
    }

    // The value of a text behind a place, where there is one.
    pub(crate) fn text_at(&mut self, text: &[u8], at: Option<Frame>) -> Result<Value, Memory>
        requires fit { AreFit self.old }
        requires site { IfSome at (λ frame. HasSite frame self.old) }
        ensures { IfOk result (λ value. IsText (placed (frame_place self.old.chunks at) text.now)
            value self.old self.new) }
    {
        match at {
            Some(frame) => self.placed_value(text, frame),
            None => self.text_value(text),
        }
    }

    // The value of an error with a text, behind the place of the caller where that is a function of
    // Lua.
    pub(crate) fn refusal(&mut self, text: &[u8]) -> Result<Value, Memory>
        requires fit { AreFit self.old }
        ensures { IfOk result (λ value. IsRefusal text.now value self.old self.new) }
    {
        let frame = self.caller();
        self.text_at(text, frame)
    }
}

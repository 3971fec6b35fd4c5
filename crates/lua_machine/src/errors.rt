//! Errors of the language.

ghost use Rattle.std.specs.Prelude.{◌≡◌, Some, IfOk, OnOk};
ghost use Rattle.lua_meaning.specs.Fault.{placed};
ghost use Rattle.lua_machine.specs.Ready.{IsReady};
ghost use Rattle.lua_machine.specs.Does.{site_at};
ghost use Rattle.lua_machine.specs.Errors.{Raised};

use crate::engine::Engine;
use itoa::Buffer;
use love_base::Memory;
use lua_heap::Value;

// A buffer gets a text behind its place, in the place of what it has.
pub(crate) fn put_placed(
    buffer: &mut Vec<u8>,
    file: &[u8],
    line: u32,
    text: &[u8],
) -> Result<(), Memory>
    ensures { OnOk result (buffer.new.items
        ≡ placed (Some (record { file = file.now; line = line })) text.now) }
{
    buffer.clear();
    buffer.extend_from_slice(file)?;
    buffer.extend_from_slice(b":")?;
    buffer.extend_from_slice(Buffer::new().format(line).as_bytes())?;
    buffer.extend_from_slice(b": ")?;
    buffer.extend_from_slice(text)?;
    Ok(())
}

impl<'a> Engine<'a> {
    // The line of the next instruction.
    fn line(&self) -> u32
        requires ready { IsReady self.now }
        ensures { result ≡ (site_at self.now.proto self.now.pc).line }
    {
        self.proto.sites()[self.pc].line
    }

    // The value of an error at the line of the next instruction: a text behind its place.
    #[inline(never)]
    pub(crate) fn error(&mut self, text: &[u8]) -> Result<Value, Memory>
        requires ready { IsReady self.old }
        ensures { IfOk result (λ value. Raised text.now value self.old self.new) }
    {
        let line = self.line();
        put_placed(&mut self.buffer, self.proto.file().bytes(), line, text)?;
        let id = self.heap.intern(self.buffer.as_slice())?;
        Ok(Value::Str(id))
    }
}

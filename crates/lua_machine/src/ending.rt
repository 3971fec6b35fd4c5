//! How a run ends.

ghost use Rattle.std.specs.Prelude.{◌≡◌, ◌++◌, map, codes, IfOk};
ghost use Rattle.lua_meaning.specs.Value.{first};
ghost use Rattle.lua_meaning.specs.Run.{done_value, error_text};
ghost use Rattle.lua_heap.specs.Value.{value_view};
ghost use Rattle.lua_heap.specs.Heap.{IsMade};
ghost use Rattle.lua_operators.specs.Faults.{type_text};
ghost use Rattle.lua_machine.specs.Runs.{IsKeptPause};
ghost use Rattle.lua_machine.specs.Ending.{IsEnd};

use crate::engine::Engine;
use crate::status::Pause;
use itoa::Buffer;
use love_base::{Memory, Text};
use lua_heap::{Heap, Value};
use lua_operators::TypeName;
use lua_value::Num;
use std::alloc::Global;
use variant::EndKind;

// The text of an error's value that has no text of its own.
fn object_text(alloc: Global, name: TypeName) -> Result<Text, Memory>
    ensures { IfOk result (λ text. text
        ≡ codes "(error object is a " ++ (type_text name ++ codes " value)")) }
{
    let mut bytes = Vec::from_slice(alloc, b"(error object is a ")?;
    bytes.extend_from_slice(name.text())?;
    bytes.extend_from_slice(b" value)")?;
    Ok(Text::from_vec(bytes))
}

// The text of an error's value: a string, a number's digits, or what type it has.
fn error_text(alloc: Global, heap: &Heap, value: &Value) -> Result<Text, Memory>
    requires made { IsMade heap.now value.now }
    ensures { IfOk result (λ text. text ≡ error_text (value_view heap.now.texts value.now)) }
{
    match *value {
        Value::Str(id) => Text::of(alloc, heap.string(id)),
        Value::Num(n) => {
            let mut digits = Buffer::new();
            Text::of(alloc, n.text(&mut digits).as_bytes())
        }
        _ => object_text(alloc, TypeName::of(value)),
    }
}

impl<'a> Engine<'a> {
    // The first result of the main function, where it is a number.
    fn first_number(&self) -> Option<Num>
        ensures { result ≡ done_value (first (map (value_view self.now.heap.texts) self.now.args)) }
    {
        match self.args.first() {
            Some(Value::Num(n)) => Some(*n),
            _ => None,
        }
    }

    // How a run ends that stands still for good.
    pub(crate) fn end_at(&self, pause: &Pause) -> EndKind
        requires kept { IsKeptPause pause.now self.now }
        ensures { IsEnd pause.now self.now result }
    {
        match pause {
            Pause::Ended => EndKind::Done(self.first_number()),
            Pause::Failed(value) => match error_text(self.alloc, &self.heap, value) {
                Ok(text) => EndKind::Error(text),
                Err(Memory) => EndKind::Memory,
            },
            Pause::NoTick => EndKind::OutOfSteps,
            Pause::Prints(_) | Pause::Asks(_, _) => EndKind::Memory,
        }
    }
}

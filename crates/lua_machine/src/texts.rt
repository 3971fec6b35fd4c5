//! The texts of values (Lua 5.1 manual §5.1, `tostring`).

ghost use Rattle.std.specs.Prelude.{◌≡◌, [], ◌∷◌, ◌++◌, List, IfOk, OnOk};
ghost use Rattle.lua_tree.specs.Tree.{Bytes};
ghost use Rattle.lua_meaning.specs.Control.{value_text};
ghost use Rattle.lua_heap.specs.Value.{value_view};
ghost use Rattle.lua_heap.specs.Heap.{store_of, IsMade};
ghost use Rattle.lua_machine.specs.View.{text_of};
ghost use Rattle.lua_machine.specs.Ready.{AreFit, IsServing};
ghost use Rattle.lua_machine.specs.Serving.{IsText};
ghost use Rattle.lua_machine.specs.Texts.{IsNoText, is_file_data};
ghost use Rattle.lua_machine.specs.Back.{CallsBack};

use crate::engine::Engine;
use crate::frame::Duty;
use crate::status::Status;
use itoa::Buffer;
use love_base::Memory;
use lua_heap::{Heap, Value};

// The text of a value that is no string and no number, whatever the heap holds.
fn fixed_text(value: &Value) -> &'static [u8]
    requires other { IsNoText value.now }
    ensures { (texts : List Bytes) → result.now ≡ text_of (value_view texts value.now) }
{
    match *value {
        Value::Bool(true) => b"true",
        Value::Bool(false) => b"false",
        Value::Table(_) => b"table",
        Value::Func(_) => b"function",
        Value::Native(_) => b"function",
        Value::Channel(_) => b"Channel",
        Value::Thread(_) => b"Thread",
        Value::Data(_) => b"ByteData",
        Value::Nil | Value::Str(_) | Value::Num(_) => b"nil",
    }
}

// Whether a value is Data that came from a file.
pub(crate) fn is_file_data(heap: &Heap, value: &Value) -> bool
    requires made { IsMade heap.now value.now }
    ensures { result ≡ is_file_data heap.now value.now }
{
    match *value {
        Value::Data(id) => heap.data_of(id).name().is_some(),
        _ => false,
    }
}

// The text of a value that is no string and no number.
fn named_text(heap: &Heap, value: &Value) -> &'static [u8]
    requires other { IsNoText value.now }
    requires made { IsMade heap.now value.now }
    ensures { result.now ≡ value_text (store_of heap.now) (value_view heap.now.texts value.now) }
{
    if is_file_data(heap, value) {
        b"FileData"
    } else {
        fixed_text(value)
    }
}

// Puts the text of a value that has one of its own behind others.
pub(crate) fn put_text(line: &mut Vec<u8>, heap: &Heap, value: &Value) -> Result<(), Memory>
    requires made { IsMade heap.now value.now }
    ensures { OnOk result (line.new.items
        ≡ line.old.items ++ text_of (value_view heap.now.texts value.now)) }
{
    match *value {
        Value::Str(id) => line.extend_from_slice(heap.string(id))?,
        Value::Num(number) => line.extend_from_slice(number.text(&mut Buffer::new()).as_bytes())?,
        _ => line.extend_from_slice(fixed_text(value))?,
    }
    Ok(())
}

impl<'a> Engine<'a> {
    // The value of a value's own text.
    pub(crate) fn own_text(&mut self, value: Value) -> Result<Value, Memory>
        requires fit { AreFit self.old }
        requires made { IsMade self.old.heap value }
        ensures { IfOk result (λ text. IsText (value_text (store_of self.old.heap)
            (value_view self.old.heap.texts value)) text self.old self.new) }
    {
        match value {
            Value::Str(_) => Ok(value),
            Value::Num(number) => self.text_value(number.text(&mut Buffer::new()).as_bytes()),
            _ => {
                let text = named_text(&self.heap, &value);
                self.text_value(text)
            }
        }
    }

    // The handler of a value's text is called on it.
    pub(crate) fn call_text(
        &mut self,
        duty: Duty,
        value: Value,
        handler: Value,
    ) -> Result<Status, Memory>
        requires ready { IsServing self.old }
        requires value { IsMade self.old.heap value }
        requires handler { IsMade self.old.heap handler }
        ensures { IfOk result (λ status. CallsBack duty handler status
            (record self.old { args = value ∷ [] }) self.new) }
    {
        self.args.clear();
        self.args.push(value)?;
        self.call_back(duty, handler)
    }
}

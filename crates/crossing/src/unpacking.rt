//! Messages as values.

ghost use Rattle.std.specs.Prelude.{◌≡◌, ◌≢◌, ◌<◌, length, map, IfOk, OnOk};
ghost use Rattle.lua_meaning.specs.Message.{Message};
ghost use Rattle.lua_meaning.specs.MessageView.{message_view};
ghost use Rattle.lua_meaning.specs.Store.{raw_set};
ghost use Rattle.lua_heap.specs.Value.{value_view};
ghost use Rattle.lua_heap.specs.Heap.{store_of, IsMade};
ghost use Rattle.crossing.specs.Unpacked.{IsUnpacked, AreUnpacked, Keeps};
ghost use Rattle.crossing.specs.Pairs.{pairs_view};

use love_base::{Data, List, Memory, Text};
use lua_heap::{Heap, TableId, Value};
use std::alloc::Global;
use variant::Variant;

/// A message as a value of a heap (LÖVE wiki, `Channel:pop`): fresh tables without metatables, each
/// pair set in its order, and new Data on the same bytes. A pair whose key is `nil` is passed over,
/// and a value that is `nil` takes its key away.
///
/// In time linear in the message: one insertion a pair. It goes as deep as the message does: 128
/// tables, where a state packed it.
///
/// # Errors
///
/// [`Memory`] where there is no room for the value. The heap may then hold new objects that nothing
/// names.
#[cycle(unpack)]
pub fn unpack(heap: &mut Heap, message: &Variant) -> Result<Value, Memory>
    ensures unpacked { IfOk result (λ value.
        IsUnpacked (message_view message.now) heap.old heap.new value) }
    ensures kept { Keeps (length heap.old.tables) heap.old heap.new }
{
    match message {
        Variant::Nil => Ok(Value::Nil),
        Variant::Bool(truth) => Ok(Value::Bool(*truth)),
        Variant::Num(number) => Ok(Value::Num(*number)),
        Variant::Bytes(text) => unpack_text(heap, text),
        Variant::Data(content) => unpack_data(heap, content),
        Variant::Channel(channel) => Ok(Value::Channel(*channel)),
        Variant::Table(pairs) => unpack_table(heap, pairs),
    }
}

/// Messages as values of a heap, in their order.
///
/// # Errors
///
/// [`Memory`] as for [`unpack`].
pub fn unpack_all(
    alloc: Global,
    heap: &mut Heap,
    messages: &List<Variant>,
) -> Result<Vec<Value>, Memory>
    ensures unpacked { IfOk result (λ values.
        AreUnpacked (map message_view messages.now) heap.old heap.new values.items) }
    ensures kept { Keeps (length heap.old.tables) heap.old heap.new }
{
    let mut values = Vec::new(alloc);
    for message in messages.as_slice() {
        values.push(unpack(heap, message)?)?;
    }
    Ok(values)
}

// A string.
fn unpack_text(heap: &mut Heap, text: &Text) -> Result<Value, Memory>
    ensures unpacked { IfOk result (λ value.
        IsUnpacked (Message.str text.now) heap.old heap.new value) }
    ensures kept { Keeps (length heap.old.tables) heap.old heap.new }
{
    let id = heap.intern(text.bytes())?;
    Ok(Value::Str(id))
}

// New Data on the same bytes.
fn unpack_data(heap: &mut Heap, content: &Data) -> Result<Value, Memory>
    ensures unpacked { IfOk result (λ value.
        IsUnpacked (Message.datum content.now) heap.old heap.new value) }
    ensures kept { Keeps (length heap.old.tables) heap.old heap.new }
{
    let id = heap.add_data(content.share()?)?;
    Ok(Value::Data(id))
}

// A fresh table of these pairs. One whose key is nil is passed over, its value unmade.
#[cycle(unpack)]
fn unpack_table(heap: &mut Heap, pairs: &List<(Variant, Variant)>) -> Result<Value, Memory>
    ensures unpacked { IfOk result (λ value.
        IsUnpacked (Message.table (pairs_view pairs.now)) heap.old heap.new value) }
    ensures kept { Keeps (length heap.old.tables) heap.old heap.new }
{
    let table = heap.new_table()?;
    for (key, value) in pairs.as_slice() {
        let key = unpack(heap, key)?;
        if let Value::Nil = key {
            continue;
        }
        let value = unpack(heap, value)?;
        set(heap, table, &key, &value)?;
    }
    Ok(Value::Table(table))
}

// A table gets a value for a key that isn't nil.
fn set(heap: &mut Heap, table: TableId, key: &Value, value: &Value) -> Result<(), Memory>
    requires table { table < length heap.old.tables }
    requires key { IsMade heap.old key.now }
    requires is_key { key.now ≢ Value.Nil }
    requires value { IsMade heap.old value.now }
    ensures store { OnOk result (store_of heap.new ≡ raw_set (store_of heap.old) table
        (value_view heap.old.texts key.now) (value_view heap.old.texts value.now)) }
    ensures kept { Keeps table heap.old heap.new }
{
    heap.set_raw(table, *key, *value)
}

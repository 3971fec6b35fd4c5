//! Values as messages.

ghost use Rattle.std.specs.Prelude.{◌≡◌, ◌<◌, length, reverse, map, Ok, OnOk};
ghost use Rattle.std.specs.List.{AllByRecursion};
ghost use Rattle.lua_meaning.specs.Message.{Message};
ghost use Rattle.lua_meaning.specs.MessageView.{message_view};
ghost use Rattle.lua_meaning.specs.Store.{contents_at};
ghost use Rattle.lua_meaning.specs.Packing.{pack, pack_all, pack_key, pack_within, pack_places};
ghost use Rattle.lua_heap.specs.Value.{value_view, text_at};
ghost use Rattle.lua_heap.specs.Heap.{store_of, IsMade};
ghost use Rattle.crossing.specs.Fault.{Answers};
ghost use Rattle.crossing.specs.Pairs.{pairs_view, ArePairsMade, places_of};
ghost use Rattle.lua_heap.specs.Next.{pair_view};
ghost use Rattle.lua_meaning.specs.Value as meant;

use crate::pairs::pairs_in;
use crate::{PackFault, SentType};
use love_base::{List, Text};
use lua_heap::{DataId, Heap, StrId, TableId, Value};
use std::alloc::Global;
use variant::Variant;

// How deep the tables of a message may nest.
const DEEPEST: usize = 128;

/// A value as a message (LÖVE wiki, `Channel:push`): a copy of it whole, with each table's pairs in
/// the order of `next`. Metatables stay behind, and no metamethod is asked; Data shares its bytes.
/// A table that stands twice in the value stands twice in the message.
///
/// In time linear in the message and in the places of its tables, those of cleared keys too.
///
/// # Errors
///
/// [`PackFault`], the first one.
pub fn pack(alloc: Global, heap: &Heap, value: Value) -> Result<Variant, PackFault>
    requires made { IsMade heap.now value }
    ensures { Answers message_view
        (pack (store_of heap.now) (value_view heap.now.texts value)) result }
{
    let mut inside = Vec::new(alloc);
    pack_within(alloc, heap, DEEPEST, &mut inside, &value)
}

/// Values as messages, in their order.
///
/// # Errors
///
/// [`PackFault`], the first one.
pub fn pack_all(alloc: Global, heap: &Heap, values: &[Value]) -> Result<List<Variant>, PackFault>
    requires made { AllByRecursion (IsMade heap.now) values.now }
    ensures { Answers (map message_view)
        (pack_all (store_of heap.now) (map (value_view heap.now.texts) values.now)) result }
{
    let mut messages = Vec::new(alloc);
    for value in values {
        messages.push(pack(alloc, heap, *value)?)?;
    }
    Ok(List::from_vec(messages))
}

// A value as a message, where tables may nest so deep, inside some tables.
#[cycle(pack)]
fn pack_within(
    alloc: Global,
    heap: &Heap,
    left: usize,
    inside: &mut Vec<TableId>,
    value: &Value,
) -> Result<Variant, PackFault>
    requires made { IsMade heap.now value.now }
    ensures packed { Answers message_view (pack_within left (store_of heap.now)
        (reverse inside.old.items) (value_view heap.now.texts value.now)) result }
    ensures inside { OnOk result (inside.new.items ≡ inside.old.items) }
{
    match *value {
        Value::Nil => Ok(Variant::Nil),
        Value::Bool(truth) => Ok(Variant::Bool(truth)),
        Value::Num(number) => Ok(Variant::Num(number)),
        Value::Str(id) => pack_text(alloc, heap, id),
        Value::Table(id) => pack_table(alloc, heap, left, inside, id),
        Value::Func(_) => Err(PackFault::Kind(SentType::Function)),
        Value::Native(_) => Err(PackFault::Kind(SentType::Function)),
        Value::Channel(channel) => Ok(Variant::Channel(channel)),
        Value::Thread(_) => Err(PackFault::Kind(SentType::Thread)),
        Value::Data(id) => pack_data(heap, id),
    }
}

// A table as a message.
#[cycle(pack)]
fn pack_table(
    alloc: Global,
    heap: &Heap,
    left: usize,
    inside: &mut Vec<TableId>,
    id: TableId,
) -> Result<Variant, PackFault>
    requires made { IsMade heap.now (Value.Table id) }
    ensures packed { Answers message_view (pack_within left (store_of heap.now)
        (reverse inside.old.items) (meant.table id)) result }
    ensures inside { OnOk result (inside.new.items ≡ inside.old.items) }
{
    if inside.contains(&id) {
        return Err(PackFault::Cycle);
    }
    if left == 0 {
        return Err(PackFault::Depth);
    }
    let pairs = pairs_in(alloc, heap.table(id))?;
    inside.push(id)?;
    let packed = pack_pairs(alloc, heap, left - 1, inside, &pairs)?;
    let _id = inside.pop();
    Ok(Variant::Table(packed))
}

// The pairs of a table as messages, each by its key and then its value.
#[cycle(pack)]
fn pack_pairs(
    alloc: Global,
    heap: &Heap,
    left: usize,
    inside: &mut Vec<TableId>,
    pairs: &[(Value, Value)],
) -> Result<List<(Variant, Variant)>, PackFault>
    requires made { ArePairsMade heap.now pairs.now }
    ensures packed { Answers pairs_view (pack_places
        (λ v. pack_within left (store_of heap.now) (reverse inside.old.items) v)
        (places_of (map (pair_view heap.now.texts) pairs.now))) result }
    ensures inside { OnOk result (inside.new.items ≡ inside.old.items) }
{
    let mut packed = Vec::new(alloc);
    for (key, value) in pairs {
        let key = pack_key(alloc, heap, key)?;
        let value = pack_within(alloc, heap, left, inside, value)?;
        packed.push((key, value))?;
    }
    Ok(List::from_vec(packed))
}

// A string as a message.
fn pack_text(alloc: Global, heap: &Heap, id: StrId) -> Result<Variant, PackFault>
    requires made { id < length heap.now.texts }
    ensures { Answers message_view (Ok (Message.str (text_at heap.now.texts id))) result }
{
    let text = Text::of(alloc, heap.string(id))?;
    Ok(Variant::Bytes(text))
}

// Data as a message, on the same bytes.
fn pack_data(heap: &Heap, id: DataId) -> Result<Variant, PackFault>
    requires made { id < length heap.now.contents }
    ensures { Answers message_view
        (Ok (Message.datum (contents_at (store_of heap.now) id))) result }
{
    let content = heap.data_of(id).share()?;
    Ok(Variant::Data(content))
}

// A key as a message.
fn pack_key(alloc: Global, heap: &Heap, key: &Value) -> Result<Variant, PackFault>
    requires made { IsMade heap.now key.now }
    ensures { Answers message_view (pack_key (value_view heap.now.texts key.now)) result }
{
    match *key {
        Value::Bool(truth) => Ok(Variant::Bool(truth)),
        Value::Num(number) => Ok(Variant::Num(number)),
        Value::Str(id) => pack_text(alloc, heap, id),
        Value::Nil => Err(PackFault::Key(SentType::Nil)),
        Value::Table(_) => Err(PackFault::Key(SentType::Table)),
        Value::Func(_) => Err(PackFault::Key(SentType::Function)),
        Value::Native(_) => Err(PackFault::Key(SentType::Function)),
        Value::Channel(_) => Err(PackFault::Key(SentType::Userdata)),
        Value::Thread(_) => Err(PackFault::Key(SentType::Thread)),
        Value::Data(_) => Err(PackFault::Key(SentType::Userdata)),
    }
}

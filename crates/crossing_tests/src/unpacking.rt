//! Messages as values.

use crate::shown::{is_refused, packs};
use crossing::{PackFault, SentType, unpack, unpack_all};
use love_base::{ChannelNo, Data, List, Memory, Text};
use lua_heap::{Heap, TableId, Value};
use lua_value::Num;
use std::alloc::Global;
use std::test::Fail;
use variant::Variant;

fn whole(n: i64) -> Variant {
    match Num::new(n) {
        Some(n) => Variant::Num(n),
        None => Variant::Nil,
    }
}

fn channel() -> Variant {
    match ChannelNo::new(1_024) {
        Some(channel) => Variant::Channel(channel),
        None => Variant::Nil,
    }
}

fn empty(alloc: Global) -> Variant {
    Variant::Table(List::new(alloc))
}

fn one_pair(alloc: Global, key: Variant, value: Variant) -> Result<Variant, Memory> {
    let pairs = Vec::from_array(alloc, [(key, value)])?;
    Ok(Variant::Table(List::from_vec(pairs)))
}

fn text(alloc: Global) -> Result<Variant, Memory> {
    Ok(Variant::Bytes(Text::of(alloc, b"x")?))
}

fn data(alloc: Global) -> Result<Variant, Memory> {
    Ok(Variant::Data(Data::new(alloc, b"12", None)?))
}

fn nested(alloc: Global) -> Result<Variant, Memory> {
    one_pair(
        alloc,
        Variant::Bool(true),
        one_pair(alloc, whole(1), whole(5))?,
    )
}

// A message as a value; nil where memory runs out.
fn value_of(heap: &mut Heap, message: Result<Variant, Memory>) -> Value {
    let Ok(message) = message else {
        return Value::Nil;
    };
    match unpack(heap, &message) {
        Ok(value) => value,
        Err(_) => Value::Nil,
    }
}

// Whether a message as a value, packed again, is this text.
fn comes_back(
    alloc: Global,
    heap: &mut Heap,
    message: Result<Variant, Memory>,
    wanted: &[u8],
) -> bool {
    let value = value_of(heap, message);
    packs(alloc, heap, &value, wanted)
}

#[test]
fn a_message_comes_back(rt: HostRuntime) -> Result<(), Fail> {
    let alloc = rt.alloc();
    let mut heap = Heap::new(alloc)?;
    let mut holds = comes_back(alloc, &mut heap, Ok(Variant::Bool(true)), b"true");
    holds &= comes_back(alloc, &mut heap, Ok(whole(-3)), b"-3");
    holds &= comes_back(alloc, &mut heap, text(alloc), b"x");
    holds &= comes_back(alloc, &mut heap, data(alloc), b"data 12");
    holds &= comes_back(alloc, &mut heap, Ok(channel()), b"1024");
    holds &= comes_back(alloc, &mut heap, nested(alloc), b"{true:{1:5 } }");
    assert!(rt; holds);
    Ok(())
}

// A key that is nil, a value that is nil, and keys that come again.
fn no_state_packs(alloc: Global) -> Result<Variant, Memory> {
    let pairs = [
        (Variant::Nil, Variant::Bool(true)),
        (whole(1), whole(10)),
        (whole(2), whole(20)),
        (whole(1), Variant::Nil),
        (whole(3), Variant::Nil),
        (whole(2), whole(21)),
    ];
    Ok(Variant::Table(List::from_vec(Vec::from_array(alloc, pairs)?)))
}

#[test]
fn a_message_from_outside(rt: HostRuntime) -> Result<(), Fail> {
    let alloc = rt.alloc();
    let mut heap = Heap::new(alloc)?;
    let mut holds = comes_back(alloc, &mut heap, no_state_packs(alloc), b"{2:21 }");
    let by_table = value_of(&mut heap, one_pair(alloc, empty(alloc), whole(1)));
    holds &= is_refused(alloc, &heap, &by_table, PackFault::Key(SentType::Table));
    assert!(rt; holds);
    Ok(())
}

// The next table of a new heap in which a message became a value.
fn table_behind(alloc: Global, message: Result<Variant, Memory>) -> Option<TableId> {
    let Ok(mut heap) = Heap::new(alloc) else {
        return None;
    };
    let _value = value_of(&mut heap, message);
    heap.new_table().ok()
}

// The value beside a key that is nil isn't made: the next table has the id that it has after a table
// without pairs.
#[test]
fn a_value_without_a_key_isnt_made(rt: HostRuntime) -> Result<(), Fail> {
    let alloc = rt.alloc();
    let found = table_behind(alloc, one_pair(alloc, Variant::Nil, empty(alloc)));
    assert!(rt; found.is_some() && found == table_behind(alloc, Ok(empty(alloc))));
    Ok(())
}

// Two tables without pairs, and Data twice.
fn twins(alloc: Global) -> Result<List<Variant>, Memory> {
    let data = Data::new(alloc, b"bytes", Some(Text::of(alloc, b"name")?))?;
    let same = data.share()?;
    let messages = [
        empty(alloc),
        empty(alloc),
        Variant::Data(same),
        Variant::Data(data),
    ];
    Ok(List::from_vec(Vec::from_array(alloc, messages)?))
}

// Whether a value is a table without a metatable.
fn is_plain_table(heap: &Heap, value: &Value) -> bool {
    if !heap.is_made(*value) {
        return false;
    }
    match *value {
        Value::Table(id) => heap.meta(id).is_none(),
        _ => false,
    }
}

// Whether a value is Data of these bytes and this name.
fn is_data(heap: &Heap, value: &Value, bytes: &[u8], name: &[u8]) -> bool {
    if !heap.is_made(*value) {
        return false;
    }
    match *value {
        Value::Data(id) => {
            let data = heap.data_of(id);
            data.bytes() == bytes && data.name().is_some_and(|found| found.bytes() == name)
        }
        _ => false,
    }
}

// Whether values are two tables without metatables, and two Data of these bytes and this name.
fn are_apart(heap: &Heap, values: &[Value]) -> bool {
    if values.len() != 4 || values[0] == values[1] || values[2] == values[3] {
        return false;
    }
    let mut holds = is_plain_table(heap, &values[0]);
    holds &= is_plain_table(heap, &values[1]);
    holds &= is_data(heap, &values[2], b"bytes", b"name");
    holds &= is_data(heap, &values[3], b"bytes", b"name");
    holds
}

#[test]
fn each_value_is_a_new_one(rt: HostRuntime) -> Result<(), Fail> {
    let mut heap = Heap::new(rt.alloc())?;
    let values = unpack_all(rt.alloc(), &mut heap, &twins(rt.alloc())?)?;
    assert!(rt; are_apart(&heap, values.as_slice()));
    Ok(())
}

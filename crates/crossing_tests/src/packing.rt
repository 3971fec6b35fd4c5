//! What values come to as messages, and which fault counts.

use crate::building::{chain, data, number, set, set_meta, table, text};
use crate::shown::{is_refused, packs};
use crossing::{PackFault, SentType, pack_all};
use love_base::ChannelNo;
use lua_heap::{Heap, Native, Value};
use std::alloc::Global;
use std::test::Fail;

fn channel() -> Value {
    match ChannelNo::new(3) {
        Some(channel) => Value::Channel(channel),
        None => Value::Nil,
    }
}

fn function(heap: &mut Heap) -> Value {
    match heap.new_func(0, 0, &[]) {
        Ok(id) => Value::Func(id),
        Err(_) => Value::Nil,
    }
}

// A table with one pair.
fn table_of(heap: &mut Heap, key: &Value, value: &Value) -> Value {
    let made = table(heap);
    let _taken = set(heap, &made, key, value);
    made
}

#[test]
fn values_that_are_messages(rt: HostRuntime) -> Result<(), Fail> {
    let mut heap = Heap::new(rt.alloc())?;
    let word = text(&mut heap, b"a\0b");
    let bytes = data(rt.alloc(), &mut heap, b"bytes");
    let empty = table(&mut heap);
    let mut holds = packs(rt.alloc(), &heap, &Value::Nil, b"nil");
    holds &= packs(rt.alloc(), &heap, &Value::Bool(false), b"false");
    holds &= packs(rt.alloc(), &heap, &number(-7), b"-7");
    holds &= packs(rt.alloc(), &heap, &word, b"a\0b");
    holds &= packs(rt.alloc(), &heap, &channel(), b"3");
    holds &= packs(rt.alloc(), &heap, &bytes, b"data bytes");
    holds &= packs(rt.alloc(), &heap, &empty, b"{}");
    assert!(rt; holds);
    Ok(())
}

#[test]
fn values_that_are_none(rt: HostRuntime) -> Result<(), Fail> {
    let mut heap = Heap::new(rt.alloc())?;
    let func = function(&mut heap);
    let print = Value::Native(Native::Print);
    let by_function = PackFault::Kind(SentType::Function);
    let by_thread = PackFault::Kind(SentType::Thread);
    let mut holds = is_refused(rt.alloc(), &heap, &func, by_function);
    holds &= is_refused(rt.alloc(), &heap, &print, by_function);
    holds &= is_refused(rt.alloc(), &heap, &Value::Thread(1), by_thread);
    assert!(rt; holds);
    Ok(())
}

// Nested, twice in one table, and with a metatable, which stays behind.
#[test]
fn tables_are_copied_whole(rt: HostRuntime) -> Result<(), Fail> {
    let mut heap = Heap::new(rt.alloc())?;
    let five = table_of(&mut heap, &number(1), &number(5));
    let deep = table_of(&mut heap, &Value::Bool(true), &five);
    let twice = table_of(&mut heap, &number(2), &five);
    let mut holds = set(&mut heap, &twice, &number(1), &five);
    holds &= set_meta(&mut heap, &five, &deep);
    holds &= packs(rt.alloc(), &heap, &deep, b"{true:{1:5 } }");
    holds &= packs(rt.alloc(), &heap, &twice, b"{2:{1:5 } 1:{1:5 } }");
    assert!(rt; holds);
    Ok(())
}

// A key that lost its value and got another one keeps its place.
#[test]
fn pairs_are_in_order(rt: HostRuntime) -> Result<(), Fail> {
    let mut heap = Heap::new(rt.alloc())?;
    let b = text(&mut heap, b"b");
    let pairs = table_of(&mut heap, &b, &number(1));
    let mut holds = set(&mut heap, &pairs, &number(2), &number(2));
    holds &= set(&mut heap, &pairs, &number(3), &number(3));
    holds &= set(&mut heap, &pairs, &number(2), &Value::Nil);
    holds &= set(&mut heap, &pairs, &b, &Value::Nil);
    holds &= set(&mut heap, &pairs, &b, &number(9));
    holds &= packs(rt.alloc(), &heap, &pairs, b"{b:9 3:3 }");
    assert!(rt; holds);
    Ok(())
}

// Whether a value is some message.
fn is_sent(alloc: Global, heap: &Heap, first: &Value, second: &Value) -> bool {
    if !heap.is_made(*first) || !heap.is_made(*second) {
        return false;
    }
    match pack_all(alloc, heap, &[*first, *second]) {
        Ok(messages) => messages.len() == 2,
        Err(_) => false,
    }
}

#[test]
fn tables_nest_128_deep(rt: HostRuntime) -> Result<(), Fail> {
    let mut heap = Heap::new(rt.alloc())?;
    let deepest = chain(&mut heap, 128).0;
    let deeper = chain(&mut heap, 129).0;
    let mut holds = is_sent(rt.alloc(), &heap, &deepest, &number(1));
    holds &= is_refused(rt.alloc(), &heap, &deeper, PackFault::Depth);
    assert!(rt; holds);
    Ok(())
}

// A table in itself, in one inside it, and in the 128th, where it would be the 129th.
#[test]
fn a_cycle_counts_before_depth(rt: HostRuntime) -> Result<(), Fail> {
    let mut heap = Heap::new(rt.alloc())?;
    let itself = table(&mut heap);
    let far = table_of(&mut heap, &number(1), &itself);
    let (deep, last) = chain(&mut heap, 128);
    let mut holds = set(&mut heap, &itself, &number(1), &far);
    holds &= set(&mut heap, &last, &number(1), &deep);
    holds &= is_refused(rt.alloc(), &heap, &itself, PackFault::Cycle);
    holds &= is_refused(rt.alloc(), &heap, &deep, PackFault::Cycle);
    // The 129th has a cycle in it, which isn't reached.
    let (deeper, last) = chain(&mut heap, 128);
    holds &= set(&mut heap, &last, &number(1), &itself);
    holds &= is_refused(rt.alloc(), &heap, &deeper, PackFault::Depth);
    assert!(rt; holds);
    Ok(())
}

#[test]
fn keys_that_are_none(rt: HostRuntime) -> Result<(), Fail> {
    let mut heap = Heap::new(rt.alloc())?;
    let key = table(&mut heap);
    let bytes = data(rt.alloc(), &mut heap, b"");
    let by_table = table_of(&mut heap, &key, &number(1));
    let by_data = table_of(&mut heap, &bytes, &number(1));
    let by_thread = table_of(&mut heap, &Value::Thread(1), &number(1));
    let of_table = PackFault::Key(SentType::Table);
    let of_data = PackFault::Key(SentType::Userdata);
    let of_thread = PackFault::Key(SentType::Thread);
    let mut holds = is_refused(rt.alloc(), &heap, &by_table, of_table);
    holds &= is_refused(rt.alloc(), &heap, &by_data, of_data);
    holds &= is_refused(rt.alloc(), &heap, &by_thread, of_thread);
    assert!(rt; holds);
    Ok(())
}

// The pairs in their order, each by its key and then its value.
#[test]
fn the_first_fault_counts(rt: HostRuntime) -> Result<(), Fail> {
    let mut heap = Heap::new(rt.alloc())?;
    let print = Value::Native(Native::Print);
    let key = table(&mut heap);
    let key_first = table_of(&mut heap, &key, &print);
    let value_first = table_of(&mut heap, &number(1), &print);
    let mut holds = set(&mut heap, &value_first, &key, &number(1));
    let of_key = PackFault::Key(SentType::Table);
    let of_value = PackFault::Kind(SentType::Function);
    holds &= is_refused(rt.alloc(), &heap, &key_first, of_key);
    holds &= is_refused(rt.alloc(), &heap, &value_first, of_value);
    assert!(rt; holds && !is_sent(rt.alloc(), &heap, &number(1), &print));
    Ok(())
}

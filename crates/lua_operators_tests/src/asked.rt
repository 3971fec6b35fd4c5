//! Calls that ask first what the call wants, so that a test is a table of rows.

use love_base::Memory;
use lua_heap::{Heap, Value};
use lua_operators::{Doing, Events, binary, field, unary};
use lua_tree::{BinOp, UnOp};
use lua_value::Num;
use std::alloc::Global;

pub(crate) fn text(heap: &mut Heap, bytes: &[u8]) -> Value {
    match heap.intern(bytes) {
        Ok(id) => Value::Str(id),
        Err(_) => Value::Nil,
    }
}

pub(crate) fn number(n: i64) -> Value {
    match Num::new(n) {
        Some(n) => Value::Num(n),
        None => Value::Nil,
    }
}

pub(crate) fn table(heap: &mut Heap) -> Value {
    match heap.new_table() {
        Ok(id) => Value::Table(id),
        Err(_) => Value::Nil,
    }
}

pub(crate) fn of_two(
    alloc: Global,
    heap: &mut Heap,
    op: BinOp,
    a: &Value,
    b: &Value,
) -> Result<Doing, Memory> {
    let events = Events::new(heap)?;
    if !heap.is_made(*a) || !heap.is_made(*b) {
        return Err(Memory);
    }
    let mut buffer = Vec::new(alloc);
    binary(heap, &events, &mut buffer, op, a, b)
}

pub(crate) fn of_one(heap: &mut Heap, op: UnOp, value: &Value) -> Result<Doing, Memory> {
    let events = Events::new(heap)?;
    if !heap.is_made(*value) {
        return Err(Memory);
    }
    unary(heap, &events, op, value)
}

pub(crate) fn field_of(heap: &Heap, base: &Value, key: &Value) -> Result<Doing, Memory> {
    if !heap.is_made(*base) || !heap.is_made(*key) {
        return Err(Memory);
    }
    Ok(field(heap, base, key))
}

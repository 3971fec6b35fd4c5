//! Values of a heap. Each function asks what its call wants.

use love_base::Data;
use lua_heap::{Heap, Value};
use lua_value::Num;
use std::alloc::Global;

pub(crate) fn number(n: i64) -> Value {
    match Num::new(n) {
        Some(n) => Value::Num(n),
        None => Value::Nil,
    }
}

pub(crate) fn text(heap: &mut Heap, bytes: &[u8]) -> Value {
    match heap.intern(bytes) {
        Ok(id) => Value::Str(id),
        Err(_) => Value::Nil,
    }
}

pub(crate) fn data(alloc: Global, heap: &mut Heap, bytes: &[u8]) -> Value {
    let Ok(data) = Data::new(alloc, bytes, None) else {
        return Value::Nil;
    };
    match heap.add_data(data) {
        Ok(id) => Value::Data(id),
        Err(_) => Value::Nil,
    }
}

pub(crate) fn table(heap: &mut Heap) -> Value {
    match heap.new_table() {
        Ok(id) => Value::Table(id),
        Err(_) => Value::Nil,
    }
}

// Whether the table took the value.
pub(crate) fn set(heap: &mut Heap, base: &Value, key: &Value, value: &Value) -> bool {
    if !heap.is_made(*base) || !heap.is_made(*key) || !heap.is_made(*value) {
        return false;
    }
    if let Value::Nil = *key {
        return false;
    }
    match *base {
        Value::Table(id) => heap.set_raw(id, *key, *value).is_ok(),
        _ => false,
    }
}

pub(crate) fn set_meta(heap: &mut Heap, base: &Value, meta: &Value) -> bool {
    if !heap.is_made(*base) || !heap.is_made(*meta) {
        return false;
    }
    let Value::Table(id) = *base else {
        return false;
    };
    let Value::Table(meta) = *meta else {
        return false;
    };
    heap.set_meta(id, Some(meta));
    true
}

// So many tables, each in the one before it under the key 1: the outermost and the innermost.
pub(crate) fn chain(heap: &mut Heap, count: usize) -> (Value, Value) {
    let outermost = table(heap);
    let mut innermost = outermost;
    for _ in 1..count {
        let inner = table(heap);
        let _taken = set(heap, &innermost, &number(1), &inner);
        innermost = inner;
    }
    (outermost, innermost)
}

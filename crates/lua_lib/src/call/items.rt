//! The values of a table at numbers and positions, read and set without metamethods.

ghost use Rattle.std.specs.Prelude.{◌≡◌, ◌≢◌, ◌<◌, ◌≤◌, ◌+◌, ◌-◌, ◌+ℤ◌, ◌≤ℤ◌, pos, drop, List, IfOk, OnOk, length};
ghost use Rattle.lua_tree.specs.Tree.{Bytes};
ghost use Rattle.lua_meaning.specs.Value.{num};
ghost use Rattle.lua_meaning.specs.Store.{raw_get, raw_set, position_key};
ghost use Rattle.lua_meaning.specs.Basic.{items_from};
ghost use Rattle.lua_meaning.specs.Tables as meaning;
ghost use Rattle.lua_heap.specs.Value.{value_view};
ghost use Rattle.lua_heap.specs.Heap.{HeapView, IsMade, Extends, store_of};
ghost use Rattle.lua_lib.specs.Causes.{AreMade, values_of};

use crate::call::arguments::argument;
use love_base::Memory;
use lua_heap::{Heap, TableId, Value};
use lua_value::Num;
use std::alloc::Global;

// So many values of a table from a number on.
pub(crate) fn items(
    alloc: Global,
    heap: &Heap,
    table: TableId,
    from: Num,
    count: usize,
) -> Result<Vec<Value>, Memory>
    requires table { table < length heap.now.tables }
    requires numbers { (from +ℤ pos count) ≤ℤ pos 100000000000000 }
    ensures items { IfOk result (λ made. values_of heap.now made.items
        ≡ items_from (store_of heap.now) table from count) }
    ensures count { IfOk result (λ made. length made.items ≡ count) }
    ensures made { IfOk result (λ made. AreMade heap.now made.items) }
{
    let mut made = Vec::new(alloc);
    for n in 0..count {
        let value = item(heap, table, from, n);
        made.push(value)?;
    }
    Ok(made)
}

// The value so many numbers behind a number.
pub(crate) fn item(heap: &Heap, table: TableId, from: Num, n: usize) -> Value
    requires table { table < length heap.now.tables }
    requires number { (from +ℤ pos n) ≤ℤ pos 99999999999999 }
    ensures value { value_view heap.now.texts result
        ≡ raw_get (store_of heap.now) table (num (from +ℤ pos n)) }
    ensures made { IsMade heap.now result }
{
    heap.get_raw(table, Value::Num(number(from, n)))
}

// The number so many behind a number.
pub(crate) fn number(from: Num, n: usize) -> Num
    requires { (from +ℤ pos n) ≤ℤ pos 99999999999999 }
    ensures { result ≡ from +ℤ pos n }
{
    Num::new(from.get() + n as i64).unwrap()
}

// The values of a table from a position up to another one.
pub(crate) fn items_between(
    alloc: Global,
    heap: &Heap,
    table: TableId,
    first: usize,
    last: usize,
) -> Result<Vec<Value>, Memory>
    requires table { table < length heap.now.tables }
    requires first { 1 ≤ first }
    requires order { first ≤ last + 1 }
    requires last { last ≤ 99999999999999 }
    ensures items { IfOk result (λ made. values_of heap.now made.items
        ≡ drop (first - 1) (meaning.items (store_of heap.now) table last)) }
    ensures count { IfOk result (λ made. first + length made.items ≡ last + 1) }
    ensures made { IfOk result (λ made. AreMade heap.now made.items) }
{
    // One behind the last position is no number.
    if first > last {
        return Ok(Vec::new(alloc));
    }
    let made = items(alloc, heap, table, number_at(first), last + 1 - first)?;
    Ok(made)
}

// A natural number as a number.
fn number_at(n: usize) -> Num
    requires { n ≤ 99999999999999 }
    ensures { result ≡ pos n }
{
    Num::new(n as i64).unwrap()
}

// The key of a position.
pub(crate) fn position(n: usize) -> Value
    requires first { 1 ≤ n }
    requires last { n ≤ 99999999999999 }
    ensures key { (texts : List Bytes) → value_view texts result ≡ position_key n }
    ensures is_key { result ≢ Value.Nil }
    ensures made { (h : HeapView) → IsMade h result }
{
    Value::Num(number_at(n))
}

// A table gets a value at a position.
pub(crate) fn set_item(
    heap: &mut Heap,
    table: TableId,
    n: usize,
    value: &Value,
) -> Result<(), Memory>
    requires table { table < length heap.old.tables }
    requires first { 1 ≤ n }
    requires last { n ≤ 99999999999999 }
    requires value { IsMade heap.old value.now }
    ensures store { OnOk result (store_of heap.new ≡ raw_set (store_of heap.old) table
        (position_key n) (value_view heap.old.texts value.now)) }
    ensures texts { heap.new.texts ≡ heap.old.texts }
    ensures functions { heap.new.functions ≡ heap.old.functions }
    ensures extends { Extends heap.old heap.new }
{
    heap.set_raw(table, position(n), *value)?;
    Ok(())
}

// A table gets values at so many positions, from one on. Where memory runs out some are set.
pub(crate) fn set_items(
    heap: &mut Heap,
    table: TableId,
    first: usize,
    values: &[Value],
) -> Result<(), Memory>
    requires table { table < length heap.old.tables }
    requires first { 1 ≤ first }
    requires last { first + length values.now ≤ 100000000000000 }
    requires values { AreMade heap.old values.now }
    ensures store { OnOk result (store_of heap.new
        ≡ meaning.set_items table first (values_of heap.old values.now) (store_of heap.old)) }
    ensures functions { heap.new.functions ≡ heap.old.functions }
    ensures extends { Extends heap.old heap.new }
{
    for n in 0..values.len() {
        let value = argument(values, n);
        set_item(heap, table, first + n, &value)?;
    }
    Ok(())
}

//! The functions of `table` (Lua 5.1 manual §5.5). Tables are read and set without metamethods.

ghost use Rattle.std.specs.Prelude.{◌≡◌, ◌<◌, ◌≤◌, ◌≤ℤ◌, [], suc, pos, MatchOption, IfOk, OnOk, length};
ghost use Rattle.lua_meaning.specs.Store.{raw_get, raw_set, position_key, border as least_border};
ghost use Rattle.lua_meaning.specs.Tables as meaning;
ghost use Rattle.lua_heap.specs.Value.{value_view};
ghost use Rattle.lua_heap.specs.Heap.{IsMade, Extends, store_of};
ghost use Rattle.lua_lib.specs.Causes.{AreMade, values_of};
ghost use Rattle.lua_heap.specs.Index.{IsMadeOption};
ghost use Rattle.lua_lib.specs.Runs.{Runs, value_or_none};

use crate::Fault;
use crate::call::arguments::{argument, number_argument, number_or_border, table_argument};
use crate::call::cause::Cause;
use crate::call::items::{items_between, position, set_item, set_items};
use love_base::Memory;
use lua_heap::{Heap, TableId, Value};
use lua_value::Num;
use std::alloc::Global;

// The last position of a table.
pub(crate) const LAST: usize = 99_999_999_999_999;

// The position that a number is, where it is one.
fn position_of(n: Num) -> Option<usize>
    ensures { MatchOption result (n ≤ℤ pos 0)
        (λ place. (1 ≤ place) × (place ≤ 99999999999999) × (n ≡ pos place)) }
{
    if n.get() > 0 {
        Some(n.get() as usize)
    } else {
        None
    }
}

// A table gets a value behind its border. A place behind the last position is want of memory.
fn put_last(heap: &mut Heap, table: TableId, value: &Value) -> Result<(), Memory>
    requires table { table < length heap.old.tables }
    requires value { IsMade heap.old value.now }
    ensures store { OnOk result (store_of heap.new ≡ raw_set (store_of heap.old) table
        (position_key (suc (least_border (store_of heap.old) table)))
        (value_view heap.old.texts value.now)) }
    ensures functions { heap.new.functions ≡ heap.old.functions }
    ensures extends { Extends heap.old heap.new }
{
    let border = heap.border(table) as usize;
    if border >= LAST {
        return Err(Memory);
    }
    set_item(heap, table, border + 1, value)?;
    Ok(())
}

// A table gets a value at a position, and its items from there on move up by one.
fn put_at(
    alloc: Global,
    heap: &mut Heap,
    table: TableId,
    place: usize,
    value: &Value,
) -> Result<(), Memory>
    requires table { table < length heap.old.tables }
    requires first { 1 ≤ place }
    requires last { place ≤ 99999999999999 }
    requires value { IsMade heap.old value.now }
    ensures store { OnOk result (store_of heap.new ≡ meaning.inserted table place
        (value_view heap.old.texts value.now) (store_of heap.old)) }
    ensures functions { heap.new.functions ≡ heap.old.functions }
    ensures extends { Extends heap.old heap.new }
{
    let border = heap.border(table) as usize;
    if place > border {
        set_item(heap, table, place, value)?;
        return Ok(());
    }
    if border >= LAST {
        return Err(Memory);
    }
    let moved = items_between(alloc, heap, table, place, border)?;
    set_item(heap, table, place, value)?;
    set_items(heap, table, place + 1, moved.as_slice())?;
    Ok(())
}

// A table gets a value at a number, which is a position.
fn insert_at(
    alloc: Global,
    heap: &mut Heap,
    table: TableId,
    n: Num,
    value: &Value,
) -> Result<(), Cause>
    requires table { table < length heap.old.tables }
    requires value { IsMade heap.old value.now }
    ensures runs { Runs (λ done. []) heap.old heap.new
        (meaning.insert_at table n (value_view heap.old.texts value.now)) result }
    ensures functions { heap.new.functions ≡ heap.old.functions }
    ensures extends { Extends heap.old heap.new }
{
    match position_of(n) {
        Some(place) => {
            put_at(alloc, heap, table, place, value)?;
            Ok(())
        }
        None => Err(Cause::By(Fault::PositionOutOfBounds)),
    }
}

/// `table.insert(t, v)`: t gets v behind its border; `table.insert(t, pos, v)`: at a position, and
/// the items from there on move up by one. A place behind the last position is want of memory.
///
/// # Errors
///
/// [`Fault::PositionOutOfBounds`] where pos is below 1.
pub fn insert(alloc: Global, heap: &mut Heap, args: &[Value]) -> Result<(), Cause>
    requires { AreMade heap.old args.now }
    ensures runs { Runs (λ done. []) heap.old heap.new
        (meaning.insert_item (values_of heap.old args.now)) result }
    ensures functions { heap.new.functions ≡ heap.old.functions }
    ensures extends { Extends heap.old heap.new }
{
    let table = table_argument(heap, args, 0)?;
    if args.len() < 3 {
        let value = &argument(args, 1);
        put_last(heap, table, value)?;
        return Ok(());
    }
    let n = number_argument(heap, args, 1)?;
    let value = &argument(args, 2);
    insert_at(alloc, heap, table, n, value)
}

// A table's value at a position is given, and the items behind it move down by one.
fn take_at(
    alloc: Global,
    heap: &mut Heap,
    table: TableId,
    place: usize,
    border: usize,
) -> Result<Value, Memory>
    requires table { table < length heap.old.tables }
    requires border { border ≡ least_border (store_of heap.old) table }
    requires first { 1 ≤ place }
    requires order { place ≤ border }
    requires last { border ≤ 99999999999999 }
    ensures value { IfOk result (λ value. value_view heap.new.texts value
        ≡ raw_get (store_of heap.old) table (position_key place)) }
    ensures made { IfOk result (λ value. IsMade heap.new value) }
    ensures store { OnOk result (store_of heap.new
        ≡ meaning.removed table place (store_of heap.old)) }
    ensures functions { heap.new.functions ≡ heap.old.functions }
    ensures extends { Extends heap.old heap.new }
{
    let value = heap.get_raw(table, position(place));
    let mut moved = items_between(alloc, heap, table, place + 1, border)?;
    moved.push(Value::Nil)?;
    set_items(heap, table, place, moved.as_slice())?;
    Ok(value)
}

// The same at any place; `None` where the table has no item there.
fn taken(
    alloc: Global,
    heap: &mut Heap,
    table: TableId,
    place: usize,
) -> Result<Option<Value>, Cause>
    requires table { table < length heap.old.tables }
    requires first { 1 ≤ place }
    ensures runs { Runs (value_or_none heap.new.texts) heap.old heap.new
        (meaning.remove_at table (least_border (store_of heap.old) table) (pos place)) result }
    ensures made { IfOk result (IsMadeOption heap.new) }
    ensures functions { heap.new.functions ≡ heap.old.functions }
    ensures extends { Extends heap.old heap.new }
{
    let border = heap.border(table) as usize;
    if place > border {
        return Ok(None);
    }
    if border > LAST {
        return Err(Cause::By(Fault::Memory));
    }
    let value = take_at(alloc, heap, table, place, border)?;
    Ok(Some(value))
}

// The same at a number.
fn remove_at(alloc: Global, heap: &mut Heap, table: TableId, n: Num) -> Result<Option<Value>, Cause>
    requires { table < length heap.old.tables }
    ensures runs { Runs (value_or_none heap.new.texts) heap.old heap.new
        (meaning.remove_at table (least_border (store_of heap.old) table) n) result }
    ensures made { IfOk result (IsMadeOption heap.new) }
    ensures functions { heap.new.functions ≡ heap.old.functions }
    ensures extends { Extends heap.old heap.new }
{
    match position_of(n) {
        Some(place) => taken(alloc, heap, table, place),
        None => Ok(None),
    }
}

/// `table.remove(t, pos)`: t's item at a position, which is its border where none is given; the
/// items behind it move down by one. `None` where t has no item there. A border behind the last
/// position is want of memory.
///
/// # Errors
///
/// [`Cause::Wants`] of an argument of the wrong type.
pub fn remove(alloc: Global, heap: &mut Heap, args: &[Value]) -> Result<Option<Value>, Cause>
    requires { AreMade heap.old args.now }
    ensures runs { Runs (value_or_none heap.new.texts) heap.old heap.new
        (meaning.remove_item (values_of heap.old args.now)) result }
    ensures made { IfOk result (IsMadeOption heap.new) }
    ensures functions { heap.new.functions ≡ heap.old.functions }
    ensures extends { Extends heap.old heap.new }
{
    let table = table_argument(heap, args, 0)?;
    let n = number_or_border(heap, args, 1, table)?;
    remove_at(alloc, heap, table, n)
}

//! `table.sort` (Lua 5.1 manual §5.5), which sorts numbers or strings in ascending order.

ghost use Rattle.std.specs.Prelude.{◌≡◌, ◌<◌, ℕ, true, [], List, length, map, IfErr, OnOk};
ghost use Rattle.std.specs.List.Sorted.{IsPermutation};
ghost use Rattle.lua_tree.specs.Tree.{Bytes};
ghost use Rattle.lua_meaning.specs.Store.{border};
ghost use Rattle.lua_meaning.specs.Tables as meaning;
ghost use Rattle.lua_heap.specs.Value.{value_view};
ghost use Rattle.lua_heap.specs.Heap.{Extends, store_of};
ghost use Rattle.lua_lib.specs.Causes.{AreMade, values_of};
ghost use Rattle.lua_lib.specs.Faults.{FailsBy};
ghost use Rattle.lua_lib.specs.Runs.{Runs};
ghost use Rattle.lua_lib.specs.Sorts.{number_of, bytes_of, set_in_order};

use crate::Fault;
use crate::call::arguments::{argument, table_argument};
use crate::call::basic::zero;
use crate::call::cause::Cause;
use crate::call::items::{items_between, set_items};
use crate::call::tables::LAST;
use lua_heap::{Heap, TableId, Value};
use lua_value::Num;
use std::alloc::Global;

// Whether all values are numbers.
fn are_numbers(values: &[Value]) -> bool
    ensures { (texts : List Bytes)
        → result ≡ meaning.are_numbers (map (value_view texts) values.now) }
{
    for value in values {
        match *value {
            Value::Num(_) => {}
            _ => return false,
        }
    }
    true
}

// Whether all values are strings.
fn are_texts(values: &[Value]) -> bool
    ensures { (texts : List Bytes)
        → result ≡ meaning.are_texts (map (value_view texts) values.now) }
{
    for value in values {
        match *value {
            Value::Str(_) => {}
            _ => return false,
        }
    }
    true
}

// A number itself, 0 for any other value.
fn number_of(value: &Value) -> Num
    ensures { result ≡ number_of value.now }
{
    match *value {
        Value::Num(n) => n,
        _ => zero(),
    }
}

// A string's bytes, none for any other value and for an id that the heap didn't give.
fn bytes_of<'a>(heap: &'a Heap, value: &Value) -> &'a [u8]
    ensures { result.now ≡ bytes_of heap.now.texts value.now }
{
    match *value {
        Value::Str(id) if heap.is_made(*value) => heap.string(id),
        _ => b"",
    }
}

// Numbers in ascending order.
fn sort_numbers(values: &mut [Value])
    requires { (texts : List Bytes)
        → meaning.are_numbers (map (value_view texts) values.old) ≡ true }
    ensures sorted { (texts : List Bytes) → map (value_view texts) values.new
        ≡ meaning.sorted (map (value_view texts) values.old) }
    ensures same { IsPermutation values.old values.new }
{
    // Numbers that tie are one number.
    values.sort_unstable_by_key(|value| number_of(value));
}

// Strings in ascending order, by their bytes.
fn sort_texts(heap: &Heap, values: &mut [Value])
    requires { meaning.are_texts (values_of heap.now values.old) ≡ true }
    ensures sorted { values_of heap.now values.new
        ≡ meaning.sorted (values_of heap.now values.old) }
    ensures same { IsPermutation values.old values.new }
{
    values.sort_unstable_by(|a, b| bytes_of(heap, a).cmp(bytes_of(heap, b)));
}

// All numbers or all strings in ascending order, which is what a sort of a table sets. Takes no
// memory.
fn sort_values(heap: &Heap, values: &mut [Value]) -> Result<(), Fault>
    ensures ok { OnOk result ((table : ℕ)
        → meaning.sort_items table (values_of heap.now values.old)
        ≡ set_in_order table (values_of heap.now values.new)) }
    ensures err { IfErr result (λ fault. (table : ℕ) → FailsBy
        (meaning.sort_items table (values_of heap.now values.old)) fault) }
    ensures same { IsPermutation values.old values.new }
{
    if are_numbers(values) {
        sort_numbers(values);
        Ok(())
    } else if are_texts(values) {
        sort_texts(heap, values);
        Ok(())
    } else {
        Err(Fault::NoOrder)
    }
}

// A table's items up to its border in ascending order. A border behind the last position is want of
// memory.
fn sort_table(alloc: Global, heap: &mut Heap, table: TableId) -> Result<(), Cause>
    requires { table < length heap.old.tables }
    ensures runs { Runs (λ done. []) heap.old heap.new (meaning.sort_items table
        (meaning.items (store_of heap.old) table (border (store_of heap.old) table))) result }
    ensures functions { heap.new.functions ≡ heap.old.functions }
    ensures extends { Extends heap.old heap.new }
{
    let border = heap.border(table) as usize;
    if border > LAST {
        return Err(Cause::By(Fault::Memory));
    }
    let mut values = items_between(alloc, heap, table, 1, border)?;
    sort_values(heap, values.as_mut_slice())?;
    set_items(heap, table, 1, values.as_slice())?;
    Ok(())
}

/// `table.sort(t)`: t's items up to its border in ascending order, in time n log n.
///
/// # Errors
///
/// [`Fault::NoOrder`] where they are neither all numbers nor all strings; [`Fault::TakesNoFunction`]
/// where a second argument is given.
pub fn sort(alloc: Global, heap: &mut Heap, args: &[Value]) -> Result<(), Cause>
    requires { AreMade heap.old args.now }
    ensures runs { Runs (λ done. []) heap.old heap.new
        (meaning.sort (values_of heap.old args.now)) result }
    ensures functions { heap.new.functions ≡ heap.old.functions }
    ensures extends { Extends heap.old heap.new }
{
    let table = table_argument(heap, args, 0)?;
    match argument(args, 1) {
        Value::Nil => sort_table(alloc, heap, table),
        _ => Err(Cause::By(Fault::TakesNoFunction)),
    }
}

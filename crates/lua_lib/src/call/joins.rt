//! `table.concat` (Lua 5.1 manual §5.5).

ghost use Rattle.std.specs.Prelude.{◌≡◌, ◌<◌, ◌++◌, ◌+ℤ◌, ◌≤ℤ◌, pos, List, OnOk, IfErr, length};
ghost use Rattle.lua_meaning.specs.Arguments.{answers};
ghost use Rattle.lua_meaning.specs.Tables as meaning;
ghost use Rattle.lua_heap.specs.Heap.{store_of};
ghost use Rattle.lua_lib.specs.Causes.{AreMade, values_of, error_of, one_text};
ghost use Rattle.lua_lib.specs.Runs.{Runs, Refuses};
ghost use Rattle.lua_lib.specs.Joined.{item_text, PutsAt};

use crate::call::arguments::{
    as_text, number_or_border, number_or_natural, table_argument, text_or_empty,
};
use crate::call::cause::Cause;
use crate::call::items::{item, number};
use crate::{basic, strings};
use itoa::Buffer;
use lua_heap::{Heap, TableId, Value};
use lua_value::Num;
use std::alloc::Global;

// Puts the text of a table's value so many numbers behind a number.
fn put_item(
    made: &mut Vec<u8>,
    heap: &Heap,
    table: TableId,
    from: Num,
    n: usize,
) -> Result<(), Cause>
    requires table { table < length heap.now.tables }
    requires number { (from +ℤ pos n) ≤ℤ pos 99999999999999 }
    ensures { PutsAt heap.now made.old.items made.new.items
        (item_text table (from +ℤ pos n)) result }
{
    let value = &item(heap, table, from, n);
    let mut digits = Buffer::new();
    match as_text(heap, value, &mut digits) {
        Some(text) => {
            made.extend_from_slice(text)?;
            Ok(())
        }
        None => Err(Cause::NoText(number(from, n), *value)),
    }
}

// The texts of so many of a table's values from a number on, with a text between.
fn joined(
    alloc: Global,
    heap: &Heap,
    table: TableId,
    between: &[u8],
    from: Num,
    count: usize,
) -> Result<Vec<u8>, Cause>
    requires table { table < length heap.now.tables }
    requires numbers { (from +ℤ pos count) ≤ℤ pos 100000000000000 }
    ensures { Runs (λ made. made.items) heap.now heap.now
        (meaning.joined between.now table from count) result }
{
    let mut made = Vec::new(alloc);
    if count == 0 {
        return Ok(made);
    }
    put_item(&mut made, heap, table, from, 0)?;
    for n in 1..count {
        made.extend_from_slice(between)?;
        put_item(&mut made, heap, table, from, n)?;
    }
    Ok(made)
}

/// `table.concat(t, sep, i, j)`: the texts of t's values at i to j, with sep between; sep is empty
/// where none is given, i is 1, and j is t's border. A border that is no number is want of memory.
///
/// # Errors
///
/// [`Cause::NoText`] of the first value that is no string and no number;
/// [`Fault::StringTooLong`](crate::Fault::StringTooLong).
pub fn concat(alloc: Global, heap: &Heap, args: &[Value]) -> Result<Vec<u8>, Cause>
    requires { AreMade heap.now args.now }
    ensures { Runs (λ made. one_text made.items) heap.now heap.now
        (meaning.concat (values_of heap.now args.now)) result }
{
    let table = table_argument(heap, args, 0)?;
    let mut digits = Buffer::new();
    let between = text_or_empty(heap, args, 1, &mut digits)?;
    let i = number_or_natural(heap, args, 2, 1)?;
    let j = number_or_border(heap, args, 3, table)?;
    let count = basic::count_from(i, j);
    let joined = joined(alloc, heap, table, between, i, count)?;
    let made = strings::string(joined)?;
    Ok(made)
}

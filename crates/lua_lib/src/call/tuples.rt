//! Basic functions that give some of their arguments, or a table's values (Lua 5.1 manual §5.1).

ghost use Rattle.std.specs.Prelude.{◌≡◌, pos, drop, length, map, List, IfOk};
ghost use Rattle.lua_tree.specs.Tree.{Bytes};
ghost use Rattle.lua_meaning.specs.Value as meant;
ghost use Rattle.lua_meaning.specs.Arguments as reading;
ghost use Rattle.lua_meaning.specs.Basic as meaning;
ghost use Rattle.lua_heap.specs.Value.{value_view};
ghost use Rattle.lua_heap.specs.Heap.{HeapView, IsMade};
ghost use Rattle.lua_lib.specs.Causes.{AreMade, values_of, Comes};
ghost use Rattle.lua_lib.specs.Runs.{Runs};
ghost use Rattle.lua_lib.specs.Selected.{selected_by};

use crate::call::arguments::{
    argument, number_argument, number_or_border, number_or_natural, table_argument,
};
use crate::call::cause::Cause;
use crate::call::items::items;
use crate::call::types::is_true;
use crate::signed::natural;
use crate::{Fault, basic};
use love_base::Memory;
use lua_heap::{Heap, Value};
use std::alloc::Global;

// Values, in a list of their own.
fn listed(alloc: Global, values: &[Value]) -> Result<Vec<Value>, Memory>
    ensures { IfOk result (λ made. made.items ≡ values.now) }
{
    Ok(Vec::from_slice(alloc, values)?)
}

/// `assert(v, message, ...)`: all arguments.
///
/// # Errors
///
/// [`Cause::Raises`] with the message where v is nil or false; [`Fault::AssertionFailed`] where
/// there is none.
pub fn assert(alloc: Global, heap: &Heap, args: &[Value]) -> Result<Vec<Value>, Cause>
    requires { AreMade heap.now args.now }
    ensures given { Comes (λ made. values_of heap.now made.items) heap.now
        (meaning.assert (values_of heap.now args.now)) result }
    ensures made { IfOk result (λ made. AreMade heap.now made.items) }
{
    let _heap = heap;
    if is_true(&argument(args, 0)) {
        let made = listed(alloc, args)?;
        return Ok(made);
    }
    match argument(args, 1) {
        Value::Nil => Err(Cause::By(Fault::AssertionFailed)),
        message => Err(Cause::Raises(message)),
    }
}

// Whether a value is what asks `select` for a count.
fn is_count_mark(heap: &Heap, value: &Value) -> bool
    requires { IsMade heap.now value.now }
    ensures { result ≡ meaning.is_count_mark (value_view heap.now.texts value.now) }
{
    match *value {
        Value::Str(id) => heap.string(id) == b"#".as_slice(),
        _ => false,
    }
}

// The arguments behind the first one.
fn behind_first(args: &[Value]) -> &[Value]
    ensures values { (texts : List Bytes) → map (value_view texts) result.now
        ≡ drop 1 (map (value_view texts) args.now) }
    ensures made { (h : HeapView) → AreMade h args.now → AreMade h result.now }
{
    match args {
        [_, rest @ ..] => rest,
        [] => &[],
    }
}

// How many values there are; a count that is no number is want of memory.
fn count(alloc: Global, values: &[Value]) -> Result<Vec<Value>, Cause>
    ensures count { (h : HeapView) → Comes (λ made. values_of h made.items) h
        (reading.answer_one (meant.num (pos (length (values_of h values.now))))) result }
    ensures made { (h : HeapView) → IfOk result (λ made. AreMade h made.items) }
{
    match natural(values.len() as u64) {
        Some(count) => {
            let made = listed(alloc, &[Value::Num(count)])?;
            Ok(made)
        }
        None => Err(Cause::By(Fault::Memory)),
    }
}

// The values from the n-th on, where n is the first argument.
fn selected(
    alloc: Global,
    heap: &Heap,
    args: &[Value],
    values: &[Value],
) -> Result<Vec<Value>, Cause>
    requires args { AreMade heap.now args.now }
    requires values { AreMade heap.now values.now }
    ensures given { Comes (λ made. values_of heap.now made.items) heap.now
        (selected_by (values_of heap.now args.now) (values_of heap.now values.now)) result }
    ensures made { IfOk result (λ made. AreMade heap.now made.items) }
{
    let n = number_argument(heap, args, 0)?;
    let selected = basic::select(n, values)?;
    let made = listed(alloc, selected)?;
    Ok(made)
}

/// `select(n, ...)`: the arguments behind n from the n-th on; `select('#', ...)`: how many there
/// are. A count that is no number is want of memory.
///
/// # Errors
///
/// [`Fault::IndexOutOfRange`] where n is 0 or lies before the first one.
pub fn select(alloc: Global, heap: &Heap, args: &[Value]) -> Result<Vec<Value>, Cause>
    requires { AreMade heap.now args.now }
    ensures given { Comes (λ made. values_of heap.now made.items) heap.now
        (meaning.select (values_of heap.now args.now)) result }
    ensures made { IfOk result (λ made. AreMade heap.now made.items) }
{
    let rest = behind_first(args);
    if is_count_mark(heap, &argument(args, 0)) {
        return count(alloc, rest);
    }
    selected(alloc, heap, args, rest)
}

/// `unpack(t, i, j)`: the values of a table at i to j; i is 1 where none is given, and j is the
/// table's border. A border that is no number is want of memory.
///
/// # Errors
///
/// [`Fault::TooManyValues`] where there are over 1,000,000.
pub fn unpack(alloc: Global, heap: &Heap, args: &[Value]) -> Result<Vec<Value>, Cause>
    requires { AreMade heap.now args.now }
    ensures runs { Runs (λ made. values_of heap.now made.items) heap.now heap.now
        (meaning.unpack (values_of heap.now args.now)) result }
    ensures made { IfOk result (λ made. AreMade heap.now made.items) }
{
    let table = table_argument(heap, args, 0)?;
    let i = number_or_natural(heap, args, 1, 1)?;
    let j = number_or_border(heap, args, 2, table)?;
    let count = basic::unpacked(i, j)?;
    let made = items(alloc, heap, table, i, count)?;
    Ok(made)
}

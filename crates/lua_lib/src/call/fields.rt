//! Basic functions that read and set fields of tables without metamethods (Lua 5.1 manual §5.1).

ghost use Rattle.std.specs.Prelude.{◌≡◌, ◌<◌, [], ◌∷◌, List, Option, IfOk, IfSome, length};
ghost use Rattle.lua_tree.specs.Tree.{Bytes};
ghost use Rattle.lua_meaning.specs.Value as meant;
ghost use Rattle.lua_meaning.specs.Basic as meaning;
ghost use Rattle.lua_heap.specs.Value.{value_view};
ghost use Rattle.lua_heap.specs.Heap.{HeapView, IsMade, Extends, store_of};
ghost use Rattle.lua_heap.specs.Next.{IsMadePair};
ghost use Rattle.lua_lib.specs.Causes.{AreMade, values_of};
ghost use Rattle.lua_lib.specs.Runs.{Runs, pair_or_nil, pair_or_none};

use crate::Fault;
use crate::call::arguments::{argument, number_argument, table_argument};
use crate::call::cause::Cause;
use lua_heap::{Heap, TableId, Value};
use lua_value::Num;

/// `rawget(t, k)`.
pub fn rawget(heap: &Heap, args: &[Value]) -> Result<Value, Cause>
    requires { AreMade heap.now args.now }
    ensures runs { Runs (λ value. value_view heap.now.texts value ∷ []) heap.now heap.now
        (meaning.rawget (values_of heap.now args.now)) result }
    ensures made { IfOk result (λ value. IsMade heap.now value) }
{
    let table = table_argument(heap, args, 0)?;
    let key = argument(args, 1);
    let value = heap.get_raw(table, key);
    Ok(value)
}

/// `rawset(t, k, v)`: the table.
///
/// # Errors
///
/// [`Fault::KeyIsNil`] where k is nil.
pub fn rawset(heap: &mut Heap, args: &[Value]) -> Result<TableId, Cause>
    requires { AreMade heap.old args.now }
    ensures runs { Runs (λ table. meant.table table ∷ []) heap.old heap.new
        (meaning.rawset (values_of heap.old args.now)) result }
    ensures made { IfOk result (λ table. table < length heap.new.tables) }
    ensures extends { Extends heap.old heap.new }
    ensures functions { heap.new.functions ≡ heap.old.functions }
{
    let table = table_argument(heap, args, 0)?;
    let key = argument(args, 1);
    let value = argument(args, 2);
    match key {
        Value::Nil => Err(Cause::By(Fault::KeyIsNil)),
        _ => {
            heap.set_raw(table, key, value)?;
            Ok(table)
        }
    }
}

/// `next(t, k)`: the next pair, `None` behind the last one.
///
/// # Errors
///
/// [`Fault::NoSuchKey`] where k was never set.
pub fn next(heap: &Heap, args: &[Value]) -> Result<Option<(Value, Value)>, Cause>
    requires { AreMade heap.now args.now }
    ensures runs { Runs (pair_or_nil heap.now.texts) heap.now heap.now
        (meaning.next_pair (values_of heap.now args.now)) result }
    ensures made { IfOk result (IsMadePair heap.now) }
{
    let table = table_argument(heap, args, 0)?;
    let key = argument(args, 1);
    match heap.next(table, key) {
        Ok(pair) => Ok(pair),
        Err(_) => Err(Cause::By(Fault::NoSuchKey)),
    }
}

// The number behind a number; nil behind the last one.
fn behind(n: Num) -> Value
    ensures is { (texts : List Bytes) → value_view texts result ≡ meaning.behind n }
    ensures made { (h : HeapView) → IsMade h result }
{
    match Num::new(n.get() + 1) {
        Some(next) => Value::Num(next),
        None => Value::Nil,
    }
}

/// What `ipairs` walks with: the position behind a number and its value, `None` where it has none.
pub fn walk_positions(heap: &Heap, args: &[Value]) -> Result<Option<(Value, Value)>, Cause>
    requires { AreMade heap.now args.now }
    ensures runs { Runs (pair_or_none heap.now.texts) heap.now heap.now
        (meaning.walk_positions (values_of heap.now args.now)) result }
    ensures made { IfOk result (IsMadePair heap.now) }
{
    let table = table_argument(heap, args, 0)?;
    let n = number_argument(heap, args, 1)?;
    let key = &behind(n);
    let value = &heap.get_raw(table, *key);
    match *value {
        Value::Nil => Ok(None),
        _ => Ok(Some((*key, *value))),
    }
}

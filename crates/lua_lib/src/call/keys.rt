//! `table.maxn` (Lua 5.1 manual §5.5).

ghost use Rattle.std.specs.Prelude.{◌≡◌, ℕ, List, pos};
ghost use Rattle.std.specs.Option.{option_copied};
ghost use Rattle.lua_table.specs.Table.{next};
ghost use Rattle.lua_tree.specs.Tree.{Bytes};
ghost use Rattle.lua_meaning.specs.Tables as meaning;
ghost use Rattle.lua_heap.specs.Alike.{value_eq};
ghost use Rattle.lua_heap.specs.Value.{value_view, places_view};
ghost use Rattle.lua_lib.specs.Causes.{AreMade, values_of, one_number};
ghost use Rattle.lua_lib.specs.Runs.{Runs};
ghost use Rattle.lua_lib.specs.Keys.{key_found};

use crate::call::arguments::table_argument;
use crate::call::basic::zero;
use crate::call::cause::Cause;
use lua_heap::{Heap, Value};
use lua_table::Table;
use lua_value::Num;

// The key of a table's first pair, or of the first one behind the place of a key.
fn key_behind(table: &Table<Value, Value>, after: Option<&Value>) -> Option<Value>
    ensures { result ≡ key_found (next value_eq table.now (option_copied after.entry)) }
{
    match table.next(after) {
        Ok(Some((key, _))) => Some(*key),
        Ok(None) => None,
        Err(_) => None,
    }
}

// The greater one of a key, where it is a number, and a number that isn't negative.
fn greater_key(key: &Value, greatest: Num) -> Num
    ensures { (texts : List Bytes) (n : ℕ) → greatest ≡ pos n
        → result ≡ pos (meaning.greater_key (value_view texts key.now) n) }
{
    match *key {
        Value::Num(n) if n.get() > greatest.get() => n,
        _ => greatest,
    }
}

// The greatest positive number that is a key with a value, or 0, in time linear in the places.
fn greatest_key(table: &Table<Value, Value>) -> Num
    ensures { (texts : List Bytes)
        → result ≡ pos (meaning.greatest_key (places_view texts table.now)) }
{
    // A border says that no key stands twice.
    let _border = table.border();
    let mut greatest = zero();
    let mut next = key_behind(table, None);
    while let Some(key) = next {
        greatest = greater_key(&key, greatest);
        next = key_behind(table, Some(&key));
    }
    greatest
}

/// `table.maxn(t)`: the greatest positive number that is a key of t with a value, or 0.
///
/// # Errors
///
/// [`Cause::Wants`] of an argument that is no table.
pub fn maxn(heap: &Heap, args: &[Value]) -> Result<Num, Cause>
    requires { AreMade heap.now args.now }
    ensures { Runs one_number heap.now heap.now
        (meaning.maxn (values_of heap.now args.now)) result }
{
    let table = table_argument(heap, args, 0)?;
    let n = greatest_key(heap.table(table));
    Ok(n)
}

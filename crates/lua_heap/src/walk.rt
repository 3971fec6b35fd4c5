//! Walking the pairs of a table.

ghost use Rattle.std.specs.Prelude.{◌≡◌, ◌<◌, length, None, Some, Result, Ok, Err};
ghost use Rattle.std.specs.Map.Iter.{deref_pair};
ghost use Rattle.std.specs.Option.{option_copied, option_map};
ghost use Rattle.lua_table.specs.Table.{next as next_place};
ghost use Rattle.lua_meaning.specs.Value.{same};
ghost use Rattle.lua_meaning.specs.Basic.{walked_key};
ghost use Rattle.lua_meaning.specs.Store.{table_at};
ghost use Rattle.lua_heap.specs.Alike.{value_eq};
ghost use Rattle.lua_heap.specs.Value.{value_view};
ghost use Rattle.lua_heap.specs.Heap.{store_of, IsMade};
ghost use Rattle.lua_heap.specs.Next.{walked, next_view, IsMadeNext};

use crate::{Heap, TableId, Value};
use lua_table::{NoSuchKey, Table};

// A pair without its references.
#[inline]
fn copied(pair: Option<(&Value, &Value)>) -> Option<(Value, Value)>
    ensures { result ≡ option_map deref_pair pair.entry }
{
    match pair {
        Some((key, value)) => Some((*key, *value)),
        None => None,
    }
}

// The first pair of a table, or the first one behind the place of a key.
#[inline]
fn first_pair(
    table: &Table<Value, Value>,
    after: Option<&Value>,
) -> Result<Option<(Value, Value)>, NoSuchKey>
    ensures { result ≡ next_place value_eq table.now (option_copied after.entry) }
{
    match table.next(after) {
        Ok(pair) => Ok(copied(pair)),
        Err(refused) => Err(refused),
    }
}

// The same, where nil is before all keys.
#[inline]
fn pair_behind(
    table: &Table<Value, Value>,
    after: &Value,
) -> Result<Option<(Value, Value)>, NoSuchKey>
    ensures { result ≡ next_place value_eq table.now (walked after.now) }
{
    match *after {
        Value::Nil => first_pair(table, None),
        _ => first_pair(table, Some(after)),
    }
}

impl Heap {
    /// The first pair with a value of a table, or the first one behind the place of a key; nil is
    /// before all keys (Lua 5.1 manual §5.1, `next`). Takes no memory.
    ///
    /// # Errors
    ///
    /// [`NoSuchKey`] where the key was never set.
    #[inline]
    pub fn next(&self, id: TableId, after: Value) -> Result<Option<(Value, Value)>, NoSuchKey>
        requires table { id < length self.now.tables }
        requires key { IsMade self.now after }
        ensures pair { next_view self.now.texts result
            ≡ next_place same (table_at (store_of self.now) id).places
            (walked_key (value_view self.now.texts after)) }
        ensures made { IsMadeNext self.now result }
    {
        let entry = &self.tables[id.place()];
        pair_behind(&entry.table, &after)
    }
}

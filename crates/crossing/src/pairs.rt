//! The pairs of a table.

ghost use Rattle.std.specs.Prelude.{◌≡◌, IfOk};
ghost use Rattle.std.specs.Option.{option_copied};
ghost use Rattle.lua_table.specs.Table.{next};
ghost use Rattle.lua_heap.specs.Alike.{value_eq};
ghost use Rattle.crossing.specs.Pairs.{pairs_in, pair_found};

use love_base::Memory;
use lua_heap::Value;
use lua_table::Table;
use std::alloc::Global;

// The first pair of a table, or the first one behind the place of a key.
fn pair_behind(table: &Table<Value, Value>, after: Option<&Value>) -> Option<(Value, Value)>
    ensures { result ≡ pair_found (next value_eq table.now (option_copied after.entry)) }
{
    match table.next(after) {
        Ok(Some((key, value))) => Some((*key, *value)),
        Ok(None) => None,
        Err(_) => None,
    }
}

// The pairs of a table in the order of `next`, in time linear in its places.
pub(crate) fn pairs_in(
    alloc: Global,
    table: &Table<Value, Value>,
) -> Result<Vec<(Value, Value)>, Memory>
    ensures { IfOk result (λ pairs. pairs.items ≡ pairs_in table.now) }
{
    // The border's pairs are there at least.
    let mut pairs = Vec::with_capacity(alloc, table.border() as usize)?;
    let mut next = pair_behind(table, None);
    while let Some(pair) = next {
        next = pair_behind(table, Some(&pair.0));
        pairs.push(pair)?;
    }
    Ok(pairs)
}

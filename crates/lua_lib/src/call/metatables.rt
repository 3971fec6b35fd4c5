//! `getmetatable` and `setmetatable` (Lua 5.1 manual §5.1).

ghost use Rattle.std.specs.Prelude.{◌≡◌, ◌<◌, [], ◌∷◌, List, IfOk, length, codes};
ghost use Rattle.lua_meaning.specs.Value as meant;
ghost use Rattle.lua_meaning.specs.Arguments as reading;
ghost use Rattle.lua_meaning.specs.Store.{handler};
ghost use Rattle.lua_meaning.specs.Basic as meaning;
ghost use Rattle.lua_tree.specs.Tree.{Bytes};
ghost use Rattle.lua_heap.specs.Value.{value_view};
ghost use Rattle.lua_heap.specs.Heap.{HeapView, IsMade, IsMadeTable, Extends, store_of};
ghost use Rattle.lua_lib.specs.Causes.{AreMade, values_of, Comes};
ghost use Rattle.lua_lib.specs.Runs.{Runs};

use crate::Fault;
use crate::call::arguments::{argument, table_argument};
use crate::call::cause::Cause;
use love_base::Memory;
use lua_heap::{Heap, TableId, Value};

// What a value's metatable has in the field `__metatable`, which stands for it and protects it.
fn protection(heap: &mut Heap, value: &Value) -> Result<Value, Memory>
    requires { IsMade heap.old value.now }
    ensures field { IfOk result (λ field. value_view heap.new.texts field
        ≡ handler (store_of heap.old) (value_view heap.old.texts value.now) (codes "__metatable")) }
    ensures made { IfOk result (λ field. IsMade heap.new field) }
    ensures store { store_of heap.new ≡ store_of heap.old }
    ensures functions { heap.new.functions ≡ heap.old.functions }
    ensures extends { Extends heap.old heap.new }
{
    let name = heap.intern(b"__metatable")?;
    Ok(heap.handler(*value, name))
}

/// `getmetatable(v)`: the metatable of a value, or its field `__metatable` where it has one.
///
/// # Errors
///
/// Only [`Fault::Memory`].
pub fn getmetatable(heap: &mut Heap, args: &[Value]) -> Result<Value, Cause>
    requires { AreMade heap.old args.now }
    ensures runs { Runs (λ value. value_view heap.new.texts value ∷ []) heap.old heap.new
        (meaning.getmetatable (values_of heap.old args.now)) result }
    ensures made { IfOk result (λ value. IsMade heap.new value) }
    ensures extends { Extends heap.old heap.new }
    ensures functions { heap.new.functions ≡ heap.old.functions }
{
    let value = &argument(args, 0);
    let meta = &table_or_nil(heap.metatable(*value));
    let field = protection(heap, value)?;
    match field {
        Value::Nil => Ok(*meta),
        _ => Ok(field),
    }
}

fn table_or_nil(table: Option<TableId>) -> Value
    ensures is { (texts : List Bytes) → value_view texts result ≡ meaning.metatable_value table }
    ensures made { (h : HeapView) → IsMadeTable h table → IsMade h result }
{
    match table {
        Some(id) => Value::Table(id),
        None => Value::Nil,
    }
}

// The metatable that an argument is, `None` where there is to be none.
fn meta_argument(args: &[Value]) -> Result<Option<TableId>, Cause>
    ensures taken { (h : HeapView) → Comes (λ meta. meta) h
        (meaning.meta_argument (reading.argument 1 (values_of h args.now))) result }
    ensures made { (h : HeapView) → AreMade h args.now → IfOk result (IsMadeTable h) }
{
    match argument(args, 1) {
        Value::Nil => Ok(None),
        Value::Table(id) => Ok(Some(id)),
        _ => Err(Cause::By(Fault::NoMetatable)),
    }
}

/// `setmetatable(t, m)`: the table, which has then the metatable m, or none where m is nil.
///
/// # Errors
///
/// [`Fault::NoMetatable`] where m is neither; [`Fault::Protected`] where the table has a metatable
/// with a field `__metatable`.
pub fn setmetatable(heap: &mut Heap, args: &[Value]) -> Result<TableId, Cause>
    requires { AreMade heap.old args.now }
    ensures runs { Runs (λ table. meant.table table ∷ []) heap.old heap.new
        (meaning.setmetatable (values_of heap.old args.now)) result }
    ensures made { IfOk result (λ table. table < length heap.new.tables) }
    ensures extends { Extends heap.old heap.new }
    ensures functions { heap.new.functions ≡ heap.old.functions }
{
    let table = table_argument(heap, args, 0)?;
    let meta = meta_argument(args)?;
    let field = protection(heap, &Value::Table(table))?;
    match field {
        Value::Nil => {
            heap.set_meta(table, meta);
            Ok(table)
        }
        _ => Err(Cause::By(Fault::Protected)),
    }
}

//! What functions came to, as what a call gives.

ghost use Rattle.std.specs.Prelude.{◌≡◌, ◌<◌, [], ◌∷◌, List, IfOk, length};
ghost use Rattle.lua_meaning.specs.Value as meant;
ghost use Rattle.lua_meaning.specs.Arguments.{Lib, answers};
ghost use Rattle.lua_heap.specs.Value.{value_view};
ghost use Rattle.lua_heap.specs.Native.{native_view};
ghost use Rattle.lua_heap.specs.Next.{IsMadePair};
ghost use Rattle.lua_heap.specs.Index.{IsMadeOption};
ghost use Rattle.lua_heap.specs.Heap.{HeapView, IsMade, Extends, store_of};
ghost use Rattle.lua_meaning.specs.Basic.{number_value};
ghost use Rattle.lua_lib.specs.Causes.{AreMade, values_of, one_number, one_text, places_or_nil};
ghost use Rattle.lua_lib.specs.Runs.{Runs, Calls, pair_or_nil, pair_or_none, value_or_none};

use crate::Fault;
use crate::call::cause::{Cause, LibFault};
use lua_heap::{DataId, Heap, Native, TableId, Value};
use lua_value::Num;
use std::alloc::Global;

// Some values.
pub(crate) fn some(alloc: Global, values: &[Value]) -> Result<Vec<Value>, LibFault>
    ensures calls { (before after : HeapView) (part : Lib (List meant.Value))
        → part (store_of before) ≡ answers (values_of after values.now) (store_of after)
        → Calls (λ made. made.items) before after part result }
    ensures made { (h : HeapView) → AreMade h values.now
        → IfOk result (λ made. AreMade h made.items) }
{
    match Vec::from_slice(alloc, values) {
        Ok(made) => Ok(made),
        Err(_) => Err(LibFault::Fails(Cause::By(Fault::Memory))),
    }
}

// One value.
pub(crate) fn one(alloc: Global, given: Result<Value, Cause>) -> Result<Vec<Value>, LibFault>
    ensures calls { (before after : HeapView) (part : Lib (List meant.Value))
        → Runs (λ value. value_view after.texts value ∷ []) before after part given
        → Calls (λ made. made.items) before after part result }
    ensures made { (h : HeapView) → IfOk given (λ value. IsMade h value)
        → IfOk result (λ made. AreMade h made.items) }
{
    match given {
        Ok(value) => some(alloc, &[value]),
        Err(cause) => Err(LibFault::Fails(cause)),
    }
}

// One number.
pub(crate) fn number(alloc: Global, given: Result<Num, Cause>) -> Result<Vec<Value>, LibFault>
    ensures calls { (before after : HeapView) (part : Lib (List meant.Value))
        → Runs one_number before after part given
        → Calls (λ made. made.items) before after part result }
    ensures made { (h : HeapView) → IfOk result (λ made. AreMade h made.items) }
{
    match given {
        Ok(n) => some(alloc, &[Value::Num(n)]),
        Err(cause) => Err(LibFault::Fails(cause)),
    }
}

// One number, or nil.
pub(crate) fn number_or_nil(
    alloc: Global,
    given: Result<Option<Num>, Cause>,
) -> Result<Vec<Value>, LibFault>
    ensures calls { (before after : HeapView) (part : Lib (List meant.Value))
        → Runs (λ number. number_value number ∷ []) before after part given
        → Calls (λ made. made.items) before after part result }
    ensures made { (h : HeapView) → IfOk result (λ made. AreMade h made.items) }
{
    match given {
        Ok(Some(n)) => some(alloc, &[Value::Num(n)]),
        Ok(None) => some(alloc, &[Value::Nil]),
        Err(cause) => Err(LibFault::Fails(cause)),
    }
}

// Two places, or nil.
pub(crate) fn places(
    alloc: Global,
    given: Result<Option<(Num, Num)>, Cause>,
) -> Result<Vec<Value>, LibFault>
    ensures calls { (before after : HeapView) (part : Lib (List meant.Value))
        → Runs places_or_nil before after part given
        → Calls (λ made. made.items) before after part result }
    ensures made { (h : HeapView) → IfOk result (λ made. AreMade h made.items) }
{
    match given {
        Ok(Some((first, last))) => some(alloc, &[Value::Num(first), Value::Num(last)]),
        Ok(None) => some(alloc, &[Value::Nil]),
        Err(cause) => Err(LibFault::Fails(cause)),
    }
}

// Values that were made.
pub(crate) fn values(given: Result<Vec<Value>, Cause>) -> Result<Vec<Value>, LibFault>
    ensures calls { (before after : HeapView) (part : Lib (List meant.Value))
        → Runs (λ made. values_of after made.items) before after part given
        → Calls (λ made. made.items) before after part result }
    ensures made { (h : HeapView) → IfOk given (λ made. AreMade h made.items)
        → IfOk result (λ made. AreMade h made.items) }
{
    match given {
        Ok(made) => Ok(made),
        Err(cause) => Err(LibFault::Fails(cause)),
    }
}

// One flag.
pub(crate) fn flag(alloc: Global, given: Result<bool, Cause>) -> Result<Vec<Value>, LibFault>
    ensures calls { (before after : HeapView) (part : Lib (List meant.Value))
        → Runs (λ flag. meant.flag flag ∷ []) before after part given
        → Calls (λ made. made.items) before after part result }
    ensures made { (h : HeapView) → IfOk result (λ made. AreMade h made.items) }
{
    match given {
        Ok(flag) => some(alloc, &[Value::Bool(flag)]),
        Err(cause) => Err(LibFault::Fails(cause)),
    }
}

// One table.
pub(crate) fn table(alloc: Global, given: Result<TableId, Cause>) -> Result<Vec<Value>, LibFault>
    ensures calls { (before after : HeapView) (part : Lib (List meant.Value))
        → Runs (λ table. meant.table table ∷ []) before after part given
        → Calls (λ made. made.items) before after part result }
    ensures made { (h : HeapView) → IfOk given (λ table. table < length h.tables)
        → IfOk result (λ made. AreMade h made.items) }
{
    match given {
        Ok(table) => some(alloc, &[Value::Table(table)]),
        Err(cause) => Err(LibFault::Fails(cause)),
    }
}

// What walks a table, the table, and where it begins.
pub(crate) fn walk(
    alloc: Global,
    by: Native,
    given: Result<TableId, Cause>,
    from: &Value,
) -> Result<Vec<Value>, LibFault>
    ensures calls { (before after : HeapView) (part : Lib (List meant.Value))
        → Runs (λ table. meant.native (native_view by) ∷ meant.table table
        ∷ value_view after.texts from.now ∷ []) before after part given
        → Calls (λ made. made.items) before after part result }
    ensures made { (h : HeapView) → IfOk given (λ table. table < length h.tables)
        → IsMade h from.now → IfOk result (λ made. AreMade h made.items) }
{
    match given {
        Ok(table) => some(alloc, &[Value::Native(by), Value::Table(table), *from]),
        Err(cause) => Err(LibFault::Fails(cause)),
    }
}

// A pair, or nil.
pub(crate) fn pair_or_one(
    alloc: Global,
    given: Result<Option<(Value, Value)>, Cause>,
) -> Result<Vec<Value>, LibFault>
    ensures calls { (before after : HeapView) (part : Lib (List meant.Value))
        → Runs (pair_or_nil after.texts) before after part given
        → Calls (λ made. made.items) before after part result }
    ensures made { (h : HeapView) → IfOk given (IsMadePair h)
        → IfOk result (λ made. AreMade h made.items) }
{
    match given {
        Ok(Some((key, value))) => some(alloc, &[key, value]),
        Ok(None) => some(alloc, &[Value::Nil]),
        Err(cause) => Err(LibFault::Fails(cause)),
    }
}

// A pair, or nothing.
pub(crate) fn pair(
    alloc: Global,
    given: Result<Option<(Value, Value)>, Cause>,
) -> Result<Vec<Value>, LibFault>
    ensures calls { (before after : HeapView) (part : Lib (List meant.Value))
        → Runs (pair_or_none after.texts) before after part given
        → Calls (λ made. made.items) before after part result }
    ensures made { (h : HeapView) → IfOk given (IsMadePair h)
        → IfOk result (λ made. AreMade h made.items) }
{
    match given {
        Ok(Some((key, value))) => some(alloc, &[key, value]),
        Ok(None) => some(alloc, &[]),
        Err(cause) => Err(LibFault::Fails(cause)),
    }
}

// One text, which gets an id.
pub(crate) fn text(alloc: Global, heap: &mut Heap, given: &[u8]) -> Result<Vec<Value>, LibFault>
    ensures calls { (part : Lib (List meant.Value))
        → part (store_of heap.old) ≡ answers (one_text given.now) (store_of heap.old)
        → Calls (λ made. made.items) heap.old heap.new part result }
    ensures made { IfOk result (λ made. AreMade heap.new made.items) }
    ensures extends { Extends heap.old heap.new }
    ensures functions { heap.new.functions ≡ heap.old.functions }
{
    match heap.intern(given) {
        Ok(id) => some(alloc, &[Value::Str(id)]),
        Err(_) => Err(LibFault::Fails(Cause::By(Fault::Memory))),
    }
}

// One text that was made.
pub(crate) fn made_text(
    alloc: Global,
    heap: &mut Heap,
    given: Result<Vec<u8>, Cause>,
) -> Result<Vec<Value>, LibFault>
    ensures calls { (part : Lib (List meant.Value))
        → Runs (λ made. one_text made.items) heap.old heap.old part given
        → Calls (λ made. made.items) heap.old heap.new part result }
    ensures made { IfOk result (λ made. AreMade heap.new made.items) }
    ensures extends { Extends heap.old heap.new }
    ensures functions { heap.new.functions ≡ heap.old.functions }
{
    match given {
        Ok(made) => text(alloc, heap, &made),
        Err(cause) => Err(LibFault::Fails(cause)),
    }
}

// Nothing.
pub(crate) fn nothing(alloc: Global, given: Result<(), Cause>) -> Result<Vec<Value>, LibFault>
    ensures calls { (before after : HeapView) (part : Lib (List meant.Value))
        → Runs (λ done. []) before after part given
        → Calls (λ made. made.items) before after part result }
    ensures made { (h : HeapView) → IfOk result (λ made. AreMade h made.items) }
{
    match given {
        Ok(()) => some(alloc, &[]),
        Err(cause) => Err(LibFault::Fails(cause)),
    }
}

// A value, or nothing.
pub(crate) fn one_or_none(
    alloc: Global,
    given: Result<Option<Value>, Cause>,
) -> Result<Vec<Value>, LibFault>
    ensures calls { (before after : HeapView) (part : Lib (List meant.Value))
        → Runs (value_or_none after.texts) before after part given
        → Calls (λ made. made.items) before after part result }
    ensures made { (h : HeapView) → IfOk given (IsMadeOption h)
        → IfOk result (λ made. AreMade h made.items) }
{
    match given {
        Ok(Some(value)) => some(alloc, &[value]),
        Ok(None) => some(alloc, &[]),
        Err(cause) => Err(LibFault::Fails(cause)),
    }
}

// Data.
pub(crate) fn datum(alloc: Global, given: Result<DataId, Cause>) -> Result<Vec<Value>, LibFault>
    ensures calls { (before after : HeapView) (part : Lib (List meant.Value))
        → Runs (λ made. meant.datum made ∷ []) before after part given
        → Calls (λ made. made.items) before after part result }
    ensures made { (h : HeapView) → IfOk given (λ made. made < length h.contents)
        → IfOk result (λ made. AreMade h made.items) }
{
    match given {
        Ok(made) => some(alloc, &[Value::Data(made)]),
        Err(cause) => Err(LibFault::Fails(cause)),
    }
}

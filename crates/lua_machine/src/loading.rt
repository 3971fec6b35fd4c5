//! A chunk's code is loaded.

ghost use Rattle.std.specs.Prelude.{◌≡◌, map, IfOk};
ghost use Rattle.std.specs.List.{AllByRecursion};
ghost use Rattle.lua_heap.specs.Value.{value_view};
ghost use Rattle.lua_heap.specs.Heap.{store_of, IsMade, Extends};
ghost use Rattle.lua_code.specs.View.{constant_view};
ghost use Rattle.lua_machine.specs.Made.{AreMade, IsMadeChunk};
ghost use Rattle.lua_machine.specs.Ready.{IsLoaded, constants_view};

use crate::chunk::Chunk;
use love_base::{List, Memory};
use lua_code::{Code, Constant, Proto};
use lua_heap::{Heap, Value};
use std::alloc::Global;

// A constant as a value of the heap.
fn value_of(heap: &mut Heap, constant: &Constant) -> Result<Value, Memory>
    ensures value { IfOk result (λ v. value_view heap.new.texts v ≡ constant_view constant.now) }
    ensures made { IfOk result (λ v. IsMade heap.new v) }
    ensures store { store_of heap.new ≡ store_of heap.old }
    ensures functions { heap.new.functions ≡ heap.old.functions }
    ensures extends { Extends heap.old heap.new }
{
    match constant {
        Constant::Nil => Ok(Value::Nil),
        Constant::Bool(flag) => Ok(Value::Bool(*flag)),
        Constant::Num(number) => Ok(Value::Num(*number)),
        Constant::Str(text) => {
            let id = heap.intern(text.bytes())?;
            Ok(Value::Str(id))
        }
    }
}

// The constants of a function.
fn values_of(alloc: Global, heap: &mut Heap, proto: &Proto) -> Result<List<Value>, Memory>
    ensures values { IfOk result (λ vs. map (value_view heap.new.texts) vs
        ≡ constants_view proto.now) }
    ensures made { IfOk result (λ vs. AreMade heap.new vs) }
    ensures store { store_of heap.new ≡ store_of heap.old }
    ensures functions { heap.new.functions ≡ heap.old.functions }
    ensures extends { Extends heap.old heap.new }
{
    let mut values = Vec::new(alloc);
    for constant in proto.constants() {
        let value = value_of(heap, constant)?;
        values.push(value)?;
    }
    Ok(List::from_vec(values))
}

// A chunk's code, with its constants as values of the heap.
pub(crate) fn load<'a>(alloc: Global, heap: &mut Heap, code: &'a Code) -> Result<Chunk<'a>, Memory>
    ensures code { IfOk result (λ chunk. chunk.code.now ≡ code.now) }
    ensures loaded { IfOk result (λ chunk. IsLoaded heap.new.texts chunk) }
    ensures made { IfOk result (λ chunk. IsMadeChunk heap.new chunk) }
    ensures store { store_of heap.new ≡ store_of heap.old }
    ensures functions { heap.new.functions ≡ heap.old.functions }
    ensures extends { Extends heap.old heap.new }
{
    let mut constants = Vec::new(alloc);
    for proto in code.protos() {
        let values = values_of(alloc, heap, proto)?;
        constants.push(values)?;
    }
    Ok(Chunk { code, constants })
}

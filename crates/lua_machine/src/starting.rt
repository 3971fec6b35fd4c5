//! A machine begins.

ghost use Rattle.std.specs.Prelude.{◌≡◌, ◌-◌, ◌<◌, length, map, replicate, IfOk, IfSome};
ghost use Rattle.lua_meaning.specs.MessageView.{message_view};
ghost use Rattle.lua_heap.specs.declared.value.Value.TheVariants.{Nil};
ghost use Rattle.lua_machine.specs.Ready.{IsReady};
ghost use Rattle.lua_machine.specs.Starting.{Begins};

use crate::engine::Engine;
use crate::loading::load;
use crossing::unpack_all;
use love_base::{List, Memory};
use lua_code::Code;
use lua_heap::{Heap, Value};
use lua_operators::Events;
use std::alloc::Global;
use variant::Variant;

// The number of a chunk's main function, the last one, where a word can hold it.
fn main_of(code: &Code) -> Option<u32>
    ensures number { IfSome result (λ func. func ≡ length code.now - 1) }
    ensures known { IfSome result (λ func. func < length code.now) }
{
    u32::try_from(code.protos().len() - 1).ok()
}

// So many slots that were never set.
fn nils(alloc: Global, count: usize) -> Result<Vec<Value>, Memory>
    ensures { IfOk result (λ values. values.items ≡ replicate count Nil) }
{
    let mut values = Vec::new(alloc);
    values.resize(count, Value::Nil)?;
    Ok(values)
}

impl<'a> Engine<'a> {
    // An engine at the beginning of a chunk's function, in a state of this number, on arguments.
    pub(crate) fn begin(
        alloc: Global,
        code: &'a Code,
        args: &List<Variant>,
        ticks: u32,
        state: u32,
    ) -> Result<Engine<'a>, Memory>
        ensures begins { IfOk result (λ engine.
            Begins code.now (map message_view args.now) state ticks engine) }
        ensures ready { IfOk result (λ engine. IsReady engine) }
    {
        let mut heap = Heap::for_state(alloc, state)?;
        let events = Events::new(&mut heap)?;
        let chunk = load(alloc, &mut heap, code)?;
        let extras = unpack_all(alloc, &mut heap, args)?;
        let Some(func) = main_of(code) else {
            return Err(Memory);
        };
        let proto = &code.protos()[func as usize];
        let values = nils(alloc, proto.size())?;
        let mut chunks = Vec::new(alloc);
        chunks.push(chunk)?;
        Ok(Engine {
            alloc,
            heap,
            events,
            buffer: Vec::new(alloc),
            chunks,
            values,
            cells: Vec::new(alloc),
            tail: Vec::new(alloc),
            extras,
            args: Vec::new(alloc),
            frames: Vec::new(alloc),
            modules: Vec::new(alloc),
            chunk: 0,
            func,
            proto,
            pc: 0,
            base: 0,
            cell_base: 0,
            extra_base: 0,
            ticks,
        })
    }
}

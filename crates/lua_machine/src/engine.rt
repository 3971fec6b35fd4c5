//! What runs code.

use crate::chunk::Chunk;
use crate::frame::Frame;
use crate::module::Module;
use lua_code::Proto;
use lua_heap::{CellId, Heap, Value};
use lua_operators::Events;
use std::alloc::Global;
use std::marker::Model;

// What runs the code of a state.
#[derive(Debug, Drop)]
pub(crate) struct Engine<'a> {
    pub(crate) alloc: Global,
    pub(crate) heap: Heap,
    pub(crate) events: Events,
    // Where the texts of new strings are put together.
    pub(crate) buffer: Vec<u8>,
    // The chunks that were loaded, the main function's first.
    pub(crate) chunks: Vec<Chunk<'a>>,
    // The slots of all frames, the cells of the functions that run, the values of the last
    // expression of a list, and the extra arguments of the functions that keep some.
    pub(crate) values: Vec<Value>,
    pub(crate) cells: Vec<CellId>,
    pub(crate) tail: Vec<Value>,
    pub(crate) extras: Vec<Value>,
    // The arguments of a call that begins.
    pub(crate) args: Vec<Value>,
    // The calls that wait, the last one on top.
    pub(crate) frames: Vec<Frame>,
    // The modules that `require` was asked for, the last one at the end.
    pub(crate) modules: Vec<Module>,
    // The function that runs, its code, its next instruction, and its first slot, cell and extra
    // argument.
    pub(crate) chunk: u32,
    pub(crate) func: u32,
    pub(crate) proto: &'a Proto,
    pub(crate) pc: usize,
    pub(crate) base: usize,
    pub(crate) cell_base: usize,
    pub(crate) extra_base: usize,
    pub(crate) ticks: u32,
}

impl<'a> Model for Engine<'a> {
    ghost use Rattle.lua_machine.specs.View.{EngineView};
    ghost use Rattle.lua_machine.specs.Made.{IsEngine};

    ghost Value = { EngineView };

    ghost view = { λ m. record {
      heap = m.heap;
      events = m.events;
      chunks = m.chunks.items;
      proto = m.proto.now;
      values = m.values.items;
      cells = m.cells.items;
      tail = m.tail.items;
      extras = m.extras.items;
      args = m.args.items;
      frames = m.frames.items;
      modules = m.modules.items;
      chunk = m.chunk;
      func = m.func;
      pc = m.pc;
      base = m.base;
      cell_base = m.cell_base;
      extra_base = m.extra_base;
      ticks = m.ticks;
    } };

    ghost invariant = { λ m. IsEngine (record {
      heap = m.heap;
      events = m.events;
      chunks = m.chunks.items;
      proto = m.proto.now;
      values = m.values.items;
      cells = m.cells.items;
      tail = m.tail.items;
      extras = m.extras.items;
      args = m.args.items;
      frames = m.frames.items;
      modules = m.modules.items;
      chunk = m.chunk;
      func = m.func;
      pc = m.pc;
      base = m.base;
      cell_base = m.cell_base;
      extra_base = m.extra_base;
      ticks = m.ticks;
    }) };
}

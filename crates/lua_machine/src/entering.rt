//! A function of Lua begins.

ghost use Rattle.std.specs.Prelude.{◌≡◌, ◌+◌, ◌<◌, ◌≤◌, length, OnOk};
ghost use Rattle.lua_heap.specs.Heap.{function_at};
ghost use Rattle.lua_machine.specs.Arguments.{given, all_put};
ghost use Rattle.lua_machine.specs.Frames.{pushed};
ghost use Rattle.lua_machine.specs.Entering.{HasGrown, HasFunction, proto_for, CanCall, CanBegin, begun_at, free_cells, called, HasBegun};

use crate::arguments::Behind;
use crate::engine::Engine;
use crate::frame::Wants;
use love_base::Memory;
use lua_code::Proto;
use lua_heap::{FuncId, Value};

impl<'a> Engine<'a> {
    // There are slots up to a place.
    fn grow(&mut self, end: usize) -> Result<(), Memory>
        ensures { OnOk result (HasGrown end self.old self.new) }
    {
        if self.values.len() < end {
            self.values.resize(end, Value::Nil)?;
        }
        Ok(())
    }

    // There are so many slots from a place on.
    pub(crate) fn make_room(&mut self, first: usize, size: usize) -> Result<(), Memory>
        ensures { OnOk result (HasGrown (first + size) self.old self.new) }
    {
        match first.checked_add(size) {
            Some(end) => self.grow(end),
            None => Err(Memory),
        }
    }

    // The code of a function.
    #[inline]
    fn proto_of(&self, id: FuncId) -> &'a Proto
        requires function { HasFunction self.now id }
        ensures { result.now ≡ proto_for self.now (function_at self.now.heap id) }
    {
        let code = self.chunks[self.heap.func_code(id) as usize].code;
        &code.protos()[self.heap.func_proto(id) as usize]
    }

    // The cells that a function holds come to places of the list of cells.
    fn copy_cells(&mut self, at: usize, id: FuncId) -> Result<(), Memory>
        requires function { id < length self.old.heap.functions }
        requires at { at ≤ length self.old.cells }
        ensures { OnOk result (self.new ≡ record self.old {
          cells = all_put self.old.cells at (function_at self.old.heap id).cells;
        }) }
    {
        for n in 0..self.heap.func_cells(id).len() {
            let cell = self.heap.func_cells(id)[n];
            self.put_cell(at + n, cell)?;
        }
        Ok(())
    }

    // A function is at its first instruction.
    #[inline]
    fn begin_at(&mut self, id: FuncId, base: usize, cell_base: usize)
        requires function { HasFunction self.old id }
        ensures { self.new ≡ begun_at self.old (function_at self.old.heap id) base cell_base }
    {
        self.proto = self.proto_of(id);
        self.chunk = self.heap.func_code(id);
        self.func = self.heap.func_proto(id);
        self.pc = 0;
        self.base = base;
        self.cell_base = cell_base;
    }

    // A function begins on arguments, with slots and cells from two places on. Its caller's frame is
    // on top.
    pub(crate) fn begin_on(
        &mut self,
        id: FuncId,
        first: usize,
        cell_base: usize,
        count: usize,
        behind: Behind,
    ) -> Result<(), Memory>
        requires function { HasFunction self.old id }
        requires ready { CanBegin first cell_base count self.old }
        ensures { OnOk result (HasBegun (function_at self.old.heap id) first cell_base count behind
            self.old self.new) }
    {
        let _values = &self.values;
        let proto = self.proto_of(id);
        let params = proto.params() as usize;
        self.keep_extra(proto.is_vararg(), params, first, count, behind)?;
        self.make_room(first, proto.size())?;
        self.fill_slots(first + count, params.saturating_sub(count), behind);
        self.copy_cells(cell_base, id)?;
        self.begin_at(id, first, cell_base);
        Ok(())
    }

    // The running function waits, and another one begins on arguments.
    pub(crate) fn enter(
        &mut self,
        wants: Wants,
        id: FuncId,
        first: usize,
        count: usize,
        behind: Behind,
    ) -> Result<(), Memory>
        requires function { HasFunction self.old id }
        requires ready { CanCall wants first count self.old }
        ensures { OnOk result (HasBegun (function_at self.old.heap id) first (free_cells self.old)
            count behind (pushed self.old wants) self.new) }
    {
        let cell_base = self.cell_base + self.proto.cells(self.pc);
        self.push(wants)?;
        self.begin_on(id, first, cell_base, count, behind)
    }

    // The running function waits, and one of the library is to run on arguments.
    pub(crate) fn enter_library(
        &mut self,
        wants: Wants,
        first: usize,
        count: usize,
        behind: Behind,
    ) -> Result<(), Memory>
        requires ready { CanCall wants first count self.old }
        ensures { OnOk result (self.new
            ≡ called wants first (given self.old first count behind) self.old) }
    {
        let cell_base = self.cell_base + self.proto.cells(self.pc);
        self.put_args(first, count, behind)?;
        self.push(wants)?;
        self.base = first;
        self.cell_base = cell_base;
        Ok(())
    }
}

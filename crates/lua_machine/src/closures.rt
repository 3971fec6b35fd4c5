//! Captured locals and the functions that hold them.

ghost use Rattle.std.specs.Prelude.{◌≡◌, ◌+◌, ◌<◌, ◌≤◌, length, map, OnOk, IfOk};
ghost use Rattle.std.specs.List.{AllByRecursion};
ghost use Rattle.lua_heap.specs.Heap.{AreMadeCells};
ghost use Rattle.lua_code.specs.declared.instr.Instr.TheVariants.{NewCell, Close};
ghost use Rattle.lua_machine.specs.View.{cell_at, protos_at, proto_at};
ghost use Rattle.lua_machine.specs.Ready.{IsReadyFor};
ghost use Rattle.lua_machine.specs.Does.{HasCell, Takes};
ghost use Rattle.lua_machine.specs.Changes.{with_cell};

use crate::engine::Engine;
use crate::status::Status;
use love_base::Memory;
use lua_heap::{CellId, Value};

impl<'a> Engine<'a> {
    // A place of the list of cells gets one; it is in the list or the next one.
    pub(crate) fn put_cell(&mut self, at: usize, id: CellId) -> Result<(), Memory>
        requires at { at ≤ length self.old.cells }
        requires made { id < length self.old.heap.cells }
        ensures { OnOk result (self.new
            ≡ record self.old { cells = with_cell self.old.cells at id }) }
    {
        if at < self.cells.len() {
            self.cells[at] = id;
        } else {
            self.cells.push(id)?;
        }
        Ok(())
    }

    pub(crate) fn new_cell(&mut self, cell: u32, from: u32) -> Result<Status, Memory>
        requires ready { IsReadyFor (NewCell cell from) self.old }
        ensures { IfOk result (λ status. Takes (NewCell cell from) status self.old self.new) }
    {
        let value = self.at(from);
        let at = self.cell_base + cell as usize;
        let id = self.heap.new_cell(value)?;
        self.put_cell(at, id)?;
        self.pc += 1;
        Ok(Status::Goes)
    }

    // The places of the cells that a function of the running chunk holds.
    fn captures(&self, proto: u32) -> &[u32]
        requires known { proto < length (protos_at self.now.chunks self.now.chunk) }
        ensures { result.now
            ≡ (proto_at self.now.chunks self.now.chunk proto).captures }
    {
        let code = self.chunks[self.chunk as usize].code;
        code.protos()[proto as usize].captures().as_slice()
    }

    // The cells of the running function that stand at some places.
    fn held_at(&self, captures: &[u32]) -> Result<Vec<CellId>, Memory>
        requires cells { AllByRecursion (HasCell self.now) captures.now }
        ensures cells { IfOk result (λ held. held.items ≡ map
            (λ c. cell_at self.now.cells (self.now.cell_base + c)) captures.now) }
        ensures made { IfOk result (λ held. AreMadeCells self.now.heap held.items) }
    {
        let mut held = Vec::new(self.alloc);
        for capture in captures {
            let id = self.cell(*capture);
            held.push(id)?;
        }
        Ok(held)
    }

    pub(crate) fn close(&mut self, to: u32, proto: u32) -> Result<Status, Memory>
        requires ready { IsReadyFor (Close to proto) self.old }
        ensures { IfOk result (λ status. Takes (Close to proto) status self.old self.new) }
    {
        let held = self.held_at(self.captures(proto))?;
        let id = self.heap.new_func(self.chunk, proto, held.as_slice())?;
        self.put(to, Value::Func(id));
        Ok(Status::Goes)
    }
}

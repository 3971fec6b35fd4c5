//! Captured locals.

ghost use Rattle.std.specs.Prelude.{◌≡◌, ◌+◌, ◌<◌, ◌^◌, length};
ghost use Rattle.lua_meaning.specs.Store.{cell_value};
ghost use Rattle.lua_heap.specs.Value.{value_view};
ghost use Rattle.lua_heap.specs.Heap.{store_of, IsMade};
ghost use Rattle.lua_code.specs.declared.instr.Instr.TheVariants.{GetCell, SetCell, SetCellConst};
ghost use Rattle.lua_machine.specs.declared.status.Status.TheVariants.{Goes};
ghost use Rattle.lua_machine.specs.View.{cell_at};
ghost use Rattle.lua_machine.specs.Ready.{IsReadyFor};
ghost use Rattle.lua_machine.specs.Does.{Takes, HasCell};
ghost use Rattle.lua_machine.specs.Changes.{HasStored, cell_change};

use crate::engine::Engine;
use lua_heap::{CellId, Value};

impl<'a> Engine<'a> {
    // A cell of the running function.
    #[inline]
    pub(crate) fn cell(&self, cell: u32) -> CellId
        requires cell { HasCell self.now cell }
        ensures id { result ≡ cell_at self.now.cells (self.now.cell_base + cell) }
        ensures made { result < length self.now.heap.cells }
    {
        self.cells[self.cell_base + cell as usize]
    }

    // What it holds.
    #[inline]
    fn held(&self, cell: u32) -> Value
        requires cell { HasCell self.now cell }
        ensures value { value_view self.now.heap.texts result ≡ cell_value (store_of self.now.heap)
            (cell_at self.now.cells (self.now.cell_base + cell)) }
        ensures made { IsMade self.now.heap result }
    {
        let id = self.cell(cell);
        self.heap.cell(id)
    }

    #[inline]
    pub(crate) fn get_cell(&mut self, to: u32, cell: u32)
        requires ready { IsReadyFor (GetCell to cell) self.old }
        ensures { Takes (GetCell to cell) Goes self.old self.new }
    {
        let value = self.held(cell);
        self.put(to, value);
    }

    // A cell of the running function gets a value, and the next instruction comes.
    #[inline]
    fn store_cell(&mut self, cell: u32, value: Value)
        requires cell { HasCell self.old cell }
        requires pc { self.old.pc + 1 < 2 ^ 32 }
        requires made { IsMade self.old.heap value }
        ensures { HasStored (cell_change cell (value_view self.old.heap.texts value) self.old)
            self.old self.new }
    {
        let id = self.cell(cell);
        self.heap.set_cell(id, value);
        self.pc += 1;
    }

    #[inline]
    pub(crate) fn set_cell(&mut self, cell: u32, from: u32)
        requires ready { IsReadyFor (SetCell cell from) self.old }
        ensures { Takes (SetCell cell from) Goes self.old self.new }
    {
        let value = self.at(from);
        self.store_cell(cell, value);
    }

    #[inline]
    pub(crate) fn set_cell_const(&mut self, cell: u32, n: u32)
        requires ready { IsReadyFor (SetCellConst cell n) self.old }
        ensures { Takes (SetCellConst cell n) Goes self.old self.new }
    {
        let value = self.constant(n);
        self.store_cell(cell, value);
    }
}

//! Fields and items of a table that is being made: no handler is asked (Lua 5.1 manual §2.5.7).

ghost use Rattle.std.specs.Prelude.{◌≡◌, ◌≢◌, ◌+◌, ◌<◌, ◌^◌, [], ◌∷◌, length, map, OnOk, IfOk};
ghost use Rattle.lua_meaning.specs.Tables.{set_items};
ghost use Rattle.lua_heap.specs.declared.value.Value.TheVariants.{Nil};
ghost use Rattle.lua_heap.specs.Value.{value_view};
ghost use Rattle.lua_heap.specs.Heap.{Becomes, Extends, IsMade};
ghost use Rattle.lua_code.specs.declared.instr.Instr.TheVariants.{SetItem, SetItemConst, SetRest, SetNew, SetNewConst, SetNewNamed, SetNewNamedConst};
ghost use Rattle.lua_machine.specs.Made.{AreMade};
ghost use Rattle.lua_machine.specs.Ready.{IsReady, IsReadyFor};
ghost use Rattle.lua_machine.specs.Does.{HasSlot, at_pc, Takes};
ghost use Rattle.lua_machine.specs.Changes.{HasStored, filled, items_change, raw_change, new_field_step, raw_step, EachTakes};

use crate::engine::Engine;
use crate::status::Status;
use love_base::Memory;
use lua_heap::{Heap, TableId, Value};
use lua_value::Num;

// A table gets an item. There is no room for one whose number is no number of the language.
fn put_item(heap: &mut Heap, id: TableId, number: u64, value: Value) -> Result<(), Memory>
    requires table { id < length heap.old.tables }
    requires number { 0 < number }
    requires value { IsMade heap.old value }
    ensures store { OnOk result (Becomes heap.old heap.new
        (set_items id number (value_view heap.old.texts value ∷ []))) }
    ensures extends { Extends heap.old heap.new }
{
    let Ok(number) = i64::try_from(number) else {
        return Err(Memory);
    };
    let Some(key) = Num::new(number) else {
        return Err(Memory);
    };
    heap.set_raw(id, Value::Num(key), value)
}

// A table gets values as its items from a number on.
fn put_items(heap: &mut Heap, id: TableId, first: u32, values: &[Value]) -> Result<(), Memory>
    requires table { id < length heap.old.tables }
    requires number { 0 < first }
    requires values { AreMade heap.old values.now }
    ensures store { OnOk result (Becomes heap.old heap.new
        (set_items id first (map (value_view heap.old.texts) values.now))) }
    ensures extends { Extends heap.old heap.new }
{
    let mut number = u64::from(first);
    for value in values {
        put_item(heap, id, number, *value)?;
        number += 1;
    }
    Ok(())
}

// What is a table gets values as its items from a number on; another value stays as it is.
fn fill(heap: &mut Heap, table: &Value, first: u32, values: &[Value]) -> Result<(), Memory>
    requires table { IsMade heap.old table.now }
    requires number { 0 < first }
    requires values { AreMade heap.old values.now }
    ensures store { OnOk result (Becomes heap.old heap.new (filled first
        (map (value_view heap.old.texts) values.now) (value_view heap.old.texts table.now))) }
    ensures extends { Extends heap.old heap.new }
{
    match *table {
        Value::Table(id) => put_items(heap, id, first, values),
        _ => Ok(()),
    }
}

impl<'a> Engine<'a> {
    // The next instruction comes.
    #[inline]
    pub(crate) fn pass(&mut self)
        requires pc { self.old.pc + 1 < 2 ^ 32 }
        ensures { self.new ≡ at_pc self.old (self.old.pc + 1) }
    {
        self.pc += 1;
    }

    // A table gets a value for a key, and the next instruction comes.
    fn store_raw(&mut self, id: TableId, key: Value, value: Value) -> Result<(), Memory>
        requires pc { self.old.pc + 1 < 2 ^ 32 }
        requires table { id < length self.old.heap.tables }
        requires key { IsMade self.old.heap key }
        requires is_key { key ≢ Nil }
        requires value { IsMade self.old.heap value }
        ensures { OnOk result (HasStored (raw_change id key value self.old) self.old self.new) }
    {
        self.heap.set_raw(id, key, value)?;
        self.pc += 1;
        Ok(())
    }

    // The table in a slot gets a field. What isn't a table stays as it is.
    fn put_field(&mut self, table: u32, key: Value, value: Value) -> Result<Status, Memory>
        requires ready { IsReady self.old }
        requires slot { HasSlot self.old table }
        requires pc { self.old.pc + 1 < 2 ^ 32 }
        requires key { IsMade self.old.heap key }
        requires value { IsMade self.old.heap value }
        ensures { IfOk result (λ status.
            EachTakes (new_field_step table key value self.old) status self.old self.new) }
    {
        match self.at(table) {
            Value::Table(id) => self.put_raw(id, key, value),
            _ => {
                self.pass();
                Ok(Status::Goes)
            }
        }
    }

    // A table gets a field, whose key mustn't be nil.
    pub(crate) fn put_raw(
        &mut self,
        id: TableId,
        key: Value,
        value: Value,
    ) -> Result<Status, Memory>
        requires ready { IsReady self.old }
        requires pc { self.old.pc + 1 < 2 ^ 32 }
        requires table { id < length self.old.heap.tables }
        requires key { IsMade self.old.heap key }
        requires value { IsMade self.old.heap value }
        ensures { IfOk result (λ status.
            EachTakes (raw_step id key value self.old) status self.old self.new) }
    {
        if let Value::Nil = key {
            let error = self.error(b"table index is nil")?;
            return Ok(Status::Raises(error));
        }
        self.store_raw(id, key, value)?;
        Ok(Status::Goes)
    }

    pub(crate) fn set_new(&mut self, table: u32, key: u32, from: u32) -> Result<Status, Memory>
        requires ready { IsReadyFor (SetNew table key from) self.old }
        ensures { IfOk result (λ status.
            Takes (SetNew table key from) status self.old self.new) }
    {
        let key = self.at(key);
        let value = self.at(from);
        self.put_field(table, key, value)
    }

    pub(crate) fn set_new_const(&mut self, table: u32, key: u32, n: u32) -> Result<Status, Memory>
        requires ready { IsReadyFor (SetNewConst table key n) self.old }
        ensures { IfOk result (λ status.
            Takes (SetNewConst table key n) status self.old self.new) }
    {
        let key = self.at(key);
        let value = self.constant(n);
        self.put_field(table, key, value)
    }

    pub(crate) fn set_new_named(
        &mut self,
        table: u32,
        name: u32,
        from: u32,
    ) -> Result<Status, Memory>
        requires ready { IsReadyFor (SetNewNamed table name from) self.old }
        ensures { IfOk result (λ status.
            Takes (SetNewNamed table name from) status self.old self.new) }
    {
        let key = self.constant(name);
        let value = self.at(from);
        self.put_field(table, key, value)
    }

    pub(crate) fn set_new_named_const(
        &mut self,
        table: u32,
        name: u32,
        n: u32,
    ) -> Result<Status, Memory>
        requires ready { IsReadyFor (SetNewNamedConst table name n) self.old }
        ensures { IfOk result (λ status.
            Takes (SetNewNamedConst table name n) status self.old self.new) }
    {
        let key = self.constant(name);
        let value = self.constant(n);
        self.put_field(table, key, value)
    }

    // The table in a slot gets an item. What isn't a table stays as it is.
    fn store_item(&mut self, table: u32, number: u32, value: Value) -> Result<(), Memory>
        requires slot { HasSlot self.old table }
        requires pc { self.old.pc + 1 < 2 ^ 32 }
        requires number { 0 < number }
        requires value { IsMade self.old.heap value }
        ensures { OnOk result (HasStored (items_change table number
            (value_view self.old.heap.texts value ∷ []) self.old) self.old self.new) }
    {
        let table = self.at(table);
        fill(&mut self.heap, &table, number, &[value])?;
        self.pc += 1;
        Ok(())
    }

    // The table in a slot gets the tail as its items. What isn't a table stays as it is.
    fn store_rest(&mut self, table: u32, number: u32) -> Result<(), Memory>
        requires slot { HasSlot self.old table }
        requires pc { self.old.pc + 1 < 2 ^ 32 }
        requires number { 0 < number }
        ensures { OnOk result (HasStored (items_change table number
            (map (value_view self.old.heap.texts) self.old.tail) self.old) self.old self.new) }
    {
        let table = self.at(table);
        fill(&mut self.heap, &table, number, self.tail.as_slice())?;
        self.pc += 1;
        Ok(())
    }

    pub(crate) fn set_item(&mut self, table: u32, number: u32, from: u32) -> Result<Status, Memory>
        requires ready { IsReadyFor (SetItem table number from) self.old }
        ensures { IfOk result (λ status.
            Takes (SetItem table number from) status self.old self.new) }
    {
        let value = self.at(from);
        self.store_item(table, number, value)?;
        Ok(Status::Goes)
    }

    pub(crate) fn set_item_const(
        &mut self,
        table: u32,
        number: u32,
        n: u32,
    ) -> Result<Status, Memory>
        requires ready { IsReadyFor (SetItemConst table number n) self.old }
        ensures { IfOk result (λ status.
            Takes (SetItemConst table number n) status self.old self.new) }
    {
        let value = self.constant(n);
        self.store_item(table, number, value)?;
        Ok(Status::Goes)
    }

    pub(crate) fn set_rest(&mut self, table: u32, number: u32) -> Result<Status, Memory>
        requires ready { IsReadyFor (SetRest table number) self.old }
        ensures { IfOk result (λ status.
            Takes (SetRest table number) status self.old self.new) }
    {
        self.store_rest(table, number)?;
        Ok(Status::Goes)
    }
}

//! Tables read and set without metamethods, and what their metatables have for an event.

ghost use Rattle.std.specs.Prelude.{◌≡◌, ◌<◌, ◌≢◌, length, OnOk, OnErr, IsOk, IsTrue};
ghost use Rattle.lua_table.specs.Table.{has_place};
ghost use Rattle.lua_meaning.specs.Value.{str, same};
ghost use Rattle.lua_meaning.specs.Store.{raw_get, raw_set, table_at, border, metatable, handler};
ghost use Rattle.lua_heap.specs.Alike.{value_eq};
ghost use Rattle.lua_heap.specs.Raw.{with_raw};
ghost use Rattle.lua_heap.specs.Value.{value_view, text_at};
ghost use Rattle.lua_heap.specs.Heap.{store_of, Becomes, IsMade, IsMadeTable, Extends};

use crate::{Heap, StrId, TableId, Value};
use love_base::Memory;
use lua_table::Table;

// The metatable of all strings stands at this place.
const TEXT_META: usize = 9;

// A table gets a value for a key, which nil takes away.
#[inline]
fn put(table: &mut Table<Value, Value>, key: Value, value: Value) -> Result<(), Memory>
    ensures ok { OnOk result (table.new ≡ with_raw table.old key value) }
    ensures refused { OnErr result (table.new ≡ table.old) }
    ensures cleared { value ≡ Value.Nil → IsOk result }
    ensures placed { IsTrue (has_place value_eq table.old key) → IsOk result }
{
    if let Value::Nil = value {
        table.clear_key(&key);
        return Ok(());
    }
    table.set(key, value)
}

impl Heap {
    /// The value of a table for a key, nil where it has none. Takes no memory.
    #[inline]
    pub fn get_raw(&self, id: TableId, key: Value) -> Value
        requires table { id < length self.now.tables }
        requires key { IsMade self.now key }
        ensures value { value_view self.now.texts result
            ≡ raw_get (store_of self.now) id (value_view self.now.texts key) }
        ensures made { IsMade self.now result }
    {
        let entry = &self.tables[id.place()];
        match entry.table.get(&key) {
            Some(value) => *value,
            None => Value::Nil,
        }
    }

    /// A table gets a value for a key; nil takes the key's value away. Only a key that the table
    /// never had takes memory.
    ///
    /// # Errors
    ///
    /// [`Memory`] where there is no room for a new key. The heap is then as it was.
    #[inline]
    pub fn set_raw(&mut self, id: TableId, key: Value, value: Value) -> Result<(), Memory>
        requires table { id < length self.old.tables }
        requires key { IsMade self.old key }
        requires is_key { key ≢ Value.Nil }
        requires value { IsMade self.old value }
        ensures store { OnOk result (Becomes self.old self.new (λ s.
            raw_set s id (value_view self.old.texts key) (value_view self.old.texts value))) }
        ensures refused { OnErr result (self.new ≡ self.old) }
        ensures cleared { value ≡ Value.Nil → IsOk result }
        ensures placed { IsTrue (has_place same (table_at (store_of self.old) id).places
            (value_view self.old.texts key))
            → IsOk result }
        ensures extends { Extends self.old self.new }
    {
        let entry = &mut self.tables[id.place()];
        put(&mut entry.table, key, value)?;
        Ok(())
    }

    /// The least border of a table (Lua 5.1 manual §2.5.5). Takes no memory.
    #[inline]
    pub fn border(&self, id: TableId) -> u64
        requires { id < length self.now.tables }
        ensures { result ≡ border (store_of self.now) id }
    {
        let entry = &self.tables[id.place()];
        entry.table.border()
    }

    /// The metatable of a value: a table has its own or none, all strings have one (Lua 5.1 manual
    /// §2.8). Takes no memory.
    #[inline]
    pub fn metatable(&self, value: Value) -> Option<TableId>
        requires made { IsMade self.now value }
        ensures meta { result ≡ metatable (store_of self.now) (value_view self.now.texts value) }
        ensures made { IsMadeTable self.now result }
    {
        // The metatable of strings is one of the first tables.
        let _tables = &self.tables;
        match value {
            Value::Table(id) => self.meta(id),
            Value::Str(_) => Some(TableId::at(TEXT_META)),
            _ => None,
        }
    }

    /// What a value's metatable has for an event, nil where it has nothing (Lua 5.1 manual §2.8).
    /// Takes no memory.
    #[inline]
    pub fn handler(&self, value: Value, event: StrId) -> Value
        requires made { IsMade self.now value }
        requires event { event < length self.now.texts }
        ensures handler { value_view self.now.texts result
            ≡ handler (store_of self.now) (value_view self.now.texts value)
            (text_at self.now.texts event) }
        ensures made { IsMade self.now result }
    {
        match self.metatable(value) {
            Some(meta) => self.get_raw(meta, Value::Str(event)),
            None => Value::Nil,
        }
    }
}

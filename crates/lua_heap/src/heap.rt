//! The heap: what it has made, and how each is read and changed.

ghost use Rattle.std.specs.Prelude.{◌≡◌, ℕ, ◌<◌, ◌↔◌, length, slice_get, Some, IfOk, OnOk, OnErr, IsTrue, ◌++◌, ◌∷◌, []};
ghost use Rattle.lua_meaning.specs.Value.{same};
ghost use Rattle.lua_meaning.specs.Store.{add_table, add_cell, add_contents, set_cell, set_meta, table_at, cell_value, contents_at, globals_place};
ghost use Rattle.lua_heap.specs.Texts.{interned};
ghost use Rattle.lua_heap.specs.Value.{value_view, places_view, AreCounted};
ghost use Rattle.lua_heap.specs.Heap.{store_of, function_at, Becomes, IsMade, IsMadeTable, AreMadeCells, Extends, counts};

use crate::entries::{Function, TableEntry};
use crate::texts::Texts;
use crate::{CellId, DataId, FuncId, StrId, TableId, Value};
use love_base::{Data, List, Memory};
use lua_table::Table;
use std::alloc::Global;
use std::marker::Model;

/// What one state of Lua has made: strings, tables, cells, functions and Data, each found by its
/// id. Nothing goes before the heap does.
///
/// Contracts see it as the lists of what it has made. What that is to the definitions of a
/// program's meaning is one function, `store_of`.
#[derive(Debug, Drop)]
pub struct Heap {
    pub(crate) alloc: Global,
    pub(crate) texts: Texts,
    pub(crate) tables: Vec<TableEntry>,
    pub(crate) cells: Vec<Value>,
    pub(crate) functions: Vec<Function>,
    pub(crate) contents: Vec<Data>,
}

impl Model for Heap {
    ghost use Rattle.lua_heap.specs.Heap.{HeapView, IsHeap};

    ghost Value = { HeapView };

    ghost view = { λ h. record {
      texts = h.texts;
      tables = h.tables.items;
      cells = h.cells.items;
      functions = h.functions.items;
      contents = h.contents.items;
    } };

    ghost invariant = { λ h. IsHeap (record {
      texts = h.texts;
      tables = h.tables.items;
      cells = h.cells.items;
      functions = h.functions.items;
      contents = h.contents.items;
    }) };
}

// ---- what is made

impl Heap {
    /// The id of a text, in time linear in its length. One text has one id.
    ///
    /// # Errors
    ///
    /// [`Memory`] where there is no room for a new text. The heap is then as it was.
    pub fn intern(&mut self, bytes: &[u8]) -> Result<StrId, Memory>
        ensures id { IfOk result (λ id. slice_get self.new.texts id ≡ Some bytes.now) }
        ensures made { IfOk result (λ id. id < length self.new.texts) }
        ensures one_id { IfOk result (λ id. (other : ℕ)
            → slice_get self.new.texts other ≡ Some bytes.now → other ≡ id) }
        ensures texts { OnOk result (self.new.texts ≡ interned self.old.texts bytes.now) }
        ensures store { store_of self.new ≡ store_of self.old }
        ensures functions { self.new.functions ≡ self.old.functions }
        ensures refused { OnErr result (self.new ≡ self.old) }
        ensures extends { Extends self.old self.new }
    {
        Ok(StrId::at(self.texts.intern(bytes)?))
    }

    /// A new table, without keys and without a metatable.
    ///
    /// # Errors
    ///
    /// [`Memory`] where there is no room for it. The heap is then as it was.
    pub fn new_table(&mut self) -> Result<TableId, Memory>
        ensures id { IfOk result (λ id. id ≡ length self.old.tables) }
        ensures made { IfOk result (λ id. id < length self.new.tables) }
        ensures store { OnOk result (Becomes self.old self.new add_table) }
        ensures refused { OnErr result (self.new ≡ self.old) }
        ensures extends { Extends self.old self.new }
    {
        let id = TableId::at(self.tables.len());
        let table = Table::new(self.alloc);
        self.tables.push(TableEntry { table, meta: None })?;
        Ok(id)
    }

    /// A new cell that holds a value.
    ///
    /// # Errors
    ///
    /// [`Memory`] where there is no room for it. The heap is then as it was.
    pub fn new_cell(&mut self, value: Value) -> Result<CellId, Memory>
        requires made { IsMade self.old value }
        ensures id { IfOk result (λ id. id ≡ length self.old.cells) }
        ensures made { IfOk result (λ id. id < length self.new.cells) }
        ensures store { OnOk result (Becomes self.old self.new
            (λ s. add_cell s (value_view self.old.texts value))) }
        ensures refused { OnErr result (self.new ≡ self.old) }
        ensures extends { Extends self.old self.new }
    {
        let id = CellId::at(self.cells.len());
        self.cells.push(value)?;
        Ok(id)
    }

    /// A new function: the number of its code among those that the machine has loaded, its place in
    /// that code, and the cells of the names that it uses from outside.
    ///
    /// # Errors
    ///
    /// [`Memory`] where there is no room for it. The heap is then as it was.
    pub fn new_func(&mut self, code: u32, proto: u32, cells: &[CellId]) -> Result<FuncId, Memory>
        requires made { AreMadeCells self.old cells.now }
        ensures id { IfOk result (λ id. id ≡ length self.old.functions) }
        ensures made { IfOk result (λ id. id < length self.new.functions) }
        ensures function { OnOk result (self.new.functions ≡ self.old.functions
            ++ record { code = code; proto = proto; cells = cells.now } ∷ []) }
        ensures texts { OnOk result (self.new.texts ≡ self.old.texts) }
        ensures store { OnOk result (store_of self.new ≡ store_of self.old) }
        ensures refused { OnErr result (self.new ≡ self.old) }
        ensures extends { Extends self.old self.new }
    {
        let id = FuncId::at(self.functions.len());
        let cells = List::from_vec(Vec::from_slice(self.alloc, cells)?);
        self.functions.push(Function { code, proto, cells })?;
        Ok(id)
    }

    /// New Data (LÖVE wiki, `Data`).
    ///
    /// # Errors
    ///
    /// [`Memory`] where there is no room for it. The heap is then as it was.
    pub fn add_data(&mut self, content: Data) -> Result<DataId, Memory>
        ensures id { IfOk result (λ id. id ≡ length self.old.contents) }
        ensures made { IfOk result (λ id. id < length self.new.contents) }
        ensures store { OnOk result (Becomes self.old self.new
            (λ s. add_contents s content)) }
        ensures refused { OnErr result (self.new ≡ self.old) }
        ensures extends { Extends self.old self.new }
    {
        let id = DataId::at(self.contents.len());
        self.contents.push(content)?;
        Ok(id)
    }
}

// ---- what is read. None of these calls takes memory

impl Heap {
    /// Whether a value has no id or one that the heap gave, as far as that can be told: an id is
    /// its place. Each other call asks this of the values that it's given.
    #[inline]
    pub fn is_made(&self, value: Value) -> bool
        ensures { IsTrue result ↔ IsMade self.now value }
    {
        match value {
            Value::Str(id) => id.place() < self.texts.len(),
            Value::Table(id) => id.place() < self.tables.len(),
            Value::Func(id) => id.place() < self.functions.len(),
            Value::Data(id) => id.place() < self.contents.len(),
            _ => true,
        }
    }

    /// Whether two values of the heap are the same one (Lua 5.1 manual §2.5.2), which no metamethod
    /// is asked for.
    #[inline]
    pub fn is_same(&self, a: Value, b: Value) -> bool
        requires a { IsMade self.now a }
        requires b { IsMade self.now b }
        ensures { result ≡ same (value_view self.now.texts a) (value_view self.now.texts b) }
    {
        let _texts = &self.texts;
        a == b
    }

    /// The text of an id, in constant time.
    pub fn string(&self, id: StrId) -> &[u8]
        requires made { id < length self.now.texts }
        ensures text { slice_get self.now.texts id ≡ Some result.now }
        ensures one_id { (other : ℕ) → slice_get self.now.texts other ≡ Some result.now
            → other ≡ id }
    {
        self.texts.get(id.place())
    }

    /// The keys and values of a table, read without metamethods.
    pub fn table(&self, id: TableId) -> &Table<Value, Value>
        requires made { id < length self.now.tables }
        ensures places { places_view self.now.texts result.now
            ≡ (table_at (store_of self.now) id).places }
        ensures made { AreCounted (counts self.now) result.now }
    {
        &self.tables[id.place()].table
    }

    /// The bytes of Data, and the name of the file that they came from, where there is one.
    pub fn data_of(&self, id: DataId) -> &Data
        requires made { id < length self.now.contents }
        ensures contents { result.now ≡ contents_at (store_of self.now) id }
    {
        &self.contents[id.place()]
    }

    /// The table of the global names.
    pub fn globals(&self) -> TableId
        ensures place { result ≡ globals_place }
        ensures made { result < length self.now.tables }
    {
        // It is one of the first tables.
        let _tables = &self.tables;
        TableId::at(0)
    }

    /// The number of a function's code among those that the machine has loaded.
    pub fn func_code(&self, id: FuncId) -> u32
        requires made { id < length self.now.functions }
        ensures { result ≡ (function_at self.now id).code }
    {
        self.functions[id.place()].code
    }

    /// The place of a function in its code.
    pub fn func_proto(&self, id: FuncId) -> u32
        requires made { id < length self.now.functions }
        ensures { result ≡ (function_at self.now id).proto }
    {
        self.functions[id.place()].proto
    }

    /// The cells of the names that a function uses from outside.
    pub fn func_cells(&self, id: FuncId) -> &[CellId]
        requires made { id < length self.now.functions }
        ensures cells { result.now ≡ (function_at self.now id).cells }
        ensures made { AreMadeCells self.now result.now }
    {
        self.functions[id.place()].cells.as_slice()
    }

    /// What a cell holds.
    pub fn cell(&self, id: CellId) -> Value
        requires made { id < length self.now.cells }
        ensures value { value_view self.now.texts result ≡ cell_value (store_of self.now) id }
        ensures made { IsMade self.now result }
    {
        self.cells[id.place()]
    }

    /// How many cells were made.
    pub fn cells(&self) -> u64
        ensures { result ≡ length self.now.cells }
    {
        self.cells.len() as u64
    }

    /// The metatable of a table, where it has one.
    pub fn meta(&self, id: TableId) -> Option<TableId>
        requires made { id < length self.now.tables }
        ensures meta { result ≡ (table_at (store_of self.now) id).meta }
        ensures made { IsMadeTable self.now result }
    {
        self.tables[id.place()].meta
    }
}

// ---- what is changed

impl Heap {
    /// A cell holds another value. Takes no memory.
    pub fn set_cell(&mut self, id: CellId, value: Value)
        requires cell { id < length self.old.cells }
        requires made { IsMade self.old value }
        ensures store { Becomes self.old self.new
            (λ s. set_cell s id (value_view self.old.texts value)) }
        ensures extends { Extends self.old self.new }
    {
        self.cells[id.place()] = value;
    }

    /// A table gets a metatable, or loses it (Lua 5.1 manual §5.1, `setmetatable`, without its test
    /// of `__metatable`). Takes no memory.
    pub fn set_meta(&mut self, id: TableId, meta: Option<TableId>)
        requires table { id < length self.old.tables }
        requires made { IsMadeTable self.old meta }
        ensures store { Becomes self.old self.new (λ s. set_meta s id meta) }
        ensures extends { Extends self.old self.new }
    {
        self.tables[id.place()].meta = meta;
    }
}

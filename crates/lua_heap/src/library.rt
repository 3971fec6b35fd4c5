//! The library: the tables that each state has from its start.

ghost use Rattle.std.specs.Prelude.{◌≡◌, ◌<◌, map, replicate, codes, IfOk, OnOk, []};
ghost use Rattle.lua_meaning.specs.Value.{str};
ghost use Rattle.lua_meaning.specs.Store.{raw_set, love_place, love_event_place};
ghost use Rattle.lua_meaning.specs.Run.{first_store};
ghost use Rattle.lua_heap.specs.Native.{native_view};
ghost use Rattle.lua_heap.specs.Value.{value_view};
ghost use Rattle.lua_heap.specs.Heap.{store_of, IsMade};
ghost use Rattle.lua_heap.specs.Library.{with_functions, with_table, with_text, with_globals, with_library, with_modules, empty_store, empty_entry};

use crate::entries::TableEntry;
use crate::texts::Texts;
use crate::{Heap, Native, TableId, Value};
use love_base::Memory;
use lua_table::Table;
use std::alloc::Global;

// The first tables, by their places.
const GLOBALS: usize = 0;

const STRING: usize = 1;

const TABLE: usize = 2;

const MATH: usize = 3;

const LOVE: usize = 4;

const LOVE_THREAD: usize = 5;

const LOVE_DATA: usize = 6;

const LOVE_FILESYSTEM: usize = 7;

const LOVE_EVENT: usize = 8;

const TEXT_META: usize = 9;

const TABLE_COUNT: usize = 10;

// The functions among the globals (Lua 5.1 manual §5.1).
const GLOBAL_FUNCTIONS: [Native; 19] = [
    Native::Assert,
    Native::CollectGarbage,
    Native::Error,
    Native::GetMetatable,
    Native::Ipairs,
    Native::Next,
    Native::Pairs,
    Native::Pcall,
    Native::Print,
    Native::RawEqual,
    Native::RawGet,
    Native::RawSet,
    Native::Require,
    Native::Select,
    Native::SetMetatable,
    Native::ToNumber,
    Native::ToString,
    Native::TypeName,
    Native::Unpack,
];

// Those of `string` (Lua 5.1 manual §5.4).
const STRING_FUNCTIONS: [Native; 10] = [
    Native::StringByte,
    Native::StringChar,
    Native::StringFind,
    Native::StringFormat,
    Native::StringLen,
    Native::StringLower,
    Native::StringRep,
    Native::StringReverse,
    Native::StringSub,
    Native::StringUpper,
];

// Those of `table` (Lua 5.1 manual §5.5).
const TABLE_FUNCTIONS: [Native; 5] = [
    Native::TableConcat,
    Native::TableInsert,
    Native::TableMaxn,
    Native::TableRemove,
    Native::TableSort,
];

// Those of `math` (Lua 5.1 manual §5.6).
const MATH_FUNCTIONS: [Native; 7] = [
    Native::MathAbs,
    Native::MathCeil,
    Native::MathFloor,
    Native::MathFmod,
    Native::MathMax,
    Native::MathMin,
    Native::MathPow,
];

// Those of `love.thread` (LÖVE wiki).
const THREAD_FUNCTIONS: [Native; 3] = [
    Native::LoveThreadGetChannel,
    Native::LoveThreadNewChannel,
    Native::LoveThreadNewThread,
];

// Those of `love.data` (LÖVE wiki).
const DATA_FUNCTIONS: [Native; 2] = [Native::LoveDataNewByteData, Native::LoveDataNewDataView];

// Those of `love.filesystem` (LÖVE wiki).
const FILESYSTEM_FUNCTIONS: [Native; 2] = [
    Native::LoveFilesystemNewFileData,
    Native::LoveFilesystemRead,
];

// Those of `love.event` (LÖVE wiki).
const EVENT_FUNCTIONS: [Native; 5] = [
    Native::LoveEventClear,
    Native::LoveEventPoll,
    Native::LoveEventPump,
    Native::LoveEventPush,
    Native::LoveEventQuit,
];

impl Heap {
    /// A heap that holds the library: the tables and functions that a state other than 0 has at its
    /// start. In state 0 the table `love` has `event` too: [`Heap::for_state`].
    ///
    /// # Errors
    ///
    /// [`Memory`] where there is no room for it.
    pub fn new(alloc: Global) -> Result<Heap, Memory>
        ensures store { IfOk result (λ heap. store_of heap ≡ first_store 1) }
        ensures functions { IfOk result (λ heap. heap.functions ≡ []) }
    {
        let mut heap = Heap::empty(alloc)?;
        heap.fill_globals()?;
        heap.fill_library()?;
        heap.fill_modules()?;
        Ok(heap)
    }

    /// A heap that holds the library as the state of this number has it at its start.
    ///
    /// # Errors
    ///
    /// [`Memory`] where there is no room for it.
    pub fn for_state(alloc: Global, state: u32) -> Result<Heap, Memory>
        ensures store { IfOk result (λ heap. store_of heap ≡ first_store state) }
        ensures functions { IfOk result (λ heap. heap.functions ≡ []) }
    {
        if state != 0 {
            return Heap::new(alloc);
        }
        let mut heap = Heap::new(alloc)?;
        heap.add_events()?;
        Ok(heap)
    }

    // `love.event` becomes a field of `love`.
    fn add_events(&mut self) -> Result<(), Memory>
        ensures store { OnOk result (store_of self.new
            ≡ with_table love_place (codes "event") love_event_place (store_of self.old)) }
        ensures functions { OnOk result (self.new.functions ≡ self.old.functions) }
    {
        self.put_table(LOVE, b"event", LOVE_EVENT)
    }

    // A heap whose first tables are empty.
    fn empty(alloc: Global) -> Result<Heap, Memory>
        ensures store { IfOk result (λ heap. store_of heap ≡ empty_store) }
        ensures functions { IfOk result (λ heap. heap.functions ≡ []) }
    {
        let mut texts = Texts::new(alloc);
        texts.intern(b"__index")?;
        texts.intern(b"__newindex")?;
        Ok(Heap {
            alloc,
            texts,
            tables: empty_tables(alloc)?,
            cells: Vec::new(alloc),
            functions: Vec::new(alloc),
            contents: Vec::new(alloc),
        })
    }

    // Fills the table of the global names.
    fn fill_globals(&mut self) -> Result<(), Memory>
        ensures store { OnOk result (store_of self.new ≡ with_globals (store_of self.old)) }
        ensures functions { OnOk result (self.new.functions ≡ self.old.functions) }
    {
        self.put_functions(GLOBALS, &GLOBAL_FUNCTIONS)?;
        self.put_table(GLOBALS, b"_G", GLOBALS)?;
        self.put_text(GLOBALS, b"_VERSION", b"Lua 5.1")?;
        self.put_table(GLOBALS, b"string", STRING)?;
        self.put_table(GLOBALS, b"table", TABLE)?;
        self.put_table(GLOBALS, b"math", MATH)?;
        self.put_table(GLOBALS, b"love", LOVE)?;
        Ok(())
    }

    // Fills the tables of Lua's library.
    fn fill_library(&mut self) -> Result<(), Memory>
        ensures store { OnOk result (store_of self.new ≡ with_library (store_of self.old)) }
        ensures functions { OnOk result (self.new.functions ≡ self.old.functions) }
    {
        self.put_functions(STRING, &STRING_FUNCTIONS)?;
        self.put_functions(TABLE, &TABLE_FUNCTIONS)?;
        self.put_functions(MATH, &MATH_FUNCTIONS)?;
        self.put_table(TEXT_META, b"__index", STRING)?;
        Ok(())
    }

    // Fills the tables of LÖVE's modules.
    fn fill_modules(&mut self) -> Result<(), Memory>
        ensures store { OnOk result (store_of self.new ≡ with_modules (store_of self.old)) }
        ensures functions { OnOk result (self.new.functions ≡ self.old.functions) }
    {
        self.put_table(LOVE, b"thread", LOVE_THREAD)?;
        self.put_table(LOVE, b"data", LOVE_DATA)?;
        self.put_table(LOVE, b"filesystem", LOVE_FILESYSTEM)?;
        self.put_functions(LOVE_THREAD, &THREAD_FUNCTIONS)?;
        self.put_functions(LOVE_DATA, &DATA_FUNCTIONS)?;
        self.put_functions(LOVE_FILESYSTEM, &FILESYSTEM_FUNCTIONS)?;
        self.put_functions(LOVE_EVENT, &EVENT_FUNCTIONS)?;
        Ok(())
    }

    // Functions become fields of a table by their names.
    fn put_functions(&mut self, table: usize, functions: &[Native]) -> Result<(), Memory>
        requires { table < 10 }
        ensures store { OnOk result (store_of self.new
            ≡ with_functions table (map native_view functions.now) (store_of self.old)) }
        ensures functions { OnOk result (self.new.functions ≡ self.old.functions) }
    {
        for function in functions {
            self.put(table, function.name(), Value::Native(*function))?;
        }
        Ok(())
    }

    // A table becomes a field of another one.
    fn put_table(&mut self, table: usize, name: &[u8], other: usize) -> Result<(), Memory>
        requires table { table < 10 }
        requires other { other < 10 }
        ensures store { OnOk result (store_of self.new
            ≡ with_table table name.now other (store_of self.old)) }
        ensures functions { OnOk result (self.new.functions ≡ self.old.functions) }
    {
        let _tables = &self.tables;
        self.put(table, name, Value::Table(TableId::at(other)))
    }

    // A text becomes a field of a table.
    fn put_text(&mut self, table: usize, name: &[u8], text: &[u8]) -> Result<(), Memory>
        requires { table < 10 }
        ensures store { OnOk result (store_of self.new
            ≡ with_text table name.now text.now (store_of self.old)) }
        ensures functions { OnOk result (self.new.functions ≡ self.old.functions) }
    {
        let value = Value::Str(self.intern(text)?);
        self.put(table, name, value)?;
        Ok(())
    }

    // A table's field gets a value.
    fn put(&mut self, table: usize, name: &[u8], value: Value) -> Result<(), Memory>
        requires table { table < 10 }
        requires value { IsMade self.old value }
        ensures store { OnOk result (store_of self.new
            ≡ raw_set (store_of self.old) table (str name.now)
            (value_view self.old.texts value)) }
        ensures functions { OnOk result (self.new.functions ≡ self.old.functions) }
    {
        let key = Value::Str(self.intern(name)?);
        let _tables = &self.tables;
        self.set_raw(TableId::at(table), key, value)?;
        Ok(())
    }
}

// The first tables, without keys.
fn empty_tables(alloc: Global) -> Result<Vec<TableEntry>, Memory>
    ensures { IfOk result (λ tables. tables.items ≡ replicate 10 empty_entry) }
{
    let mut tables = Vec::new(alloc);
    for count in 0..TABLE_COUNT {
        let table = Table::new(alloc);
        tables.push(TableEntry { table, meta: None })?;
    }
    Ok(tables)
}

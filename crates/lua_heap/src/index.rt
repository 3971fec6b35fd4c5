//! Reading and setting a field along the handlers `__index` and `__newindex`.

ghost use Rattle.std.specs.Prelude.{◌≡◌, ◌<◌, length, codes, List, None, Some, if◌then◌else◌};
ghost use Rattle.std.specs.Option.{option_map_or};
ghost use Rattle.lua_tree.specs.Tree.{Bytes};
ghost use Rattle.lua_meaning.specs.Value.{Value as Meant, is_nil};
ghost use Rattle.lua_meaning.specs.Store.{contents_at, handler};
ghost use Rattle.lua_meaning.specs.Handlers.{lookup, setting, own_value, by_own, by_handler, unhandled, set_by_own, set_by_handler, unhandled_set, in_table, method_named, methods_of_data};
ghost use Rattle.lua_meaning.specs.Handlers.{Lookup as MeantLookup, Setting};
ghost use Rattle.lua_heap.specs.Value.{value_view};
ghost use Rattle.lua_heap.specs.Heap.{HeapView, store_of, IsMade, IsMadeTable};
ghost use Rattle.lua_heap.specs.Index.{lookup_view, setting_view, found_by, set_by, IsMadeLookup, IsMadeStore, IsMadeStep, value_option_view, IsMadeOption};

use crate::methods::{BYTE_DATA_METHODS, CHANNEL_METHODS, FILE_DATA_METHODS, THREAD_METHODS};
use crate::{DataId, Heap, StrId, TableId, Value};

/// What reading a field comes to (Lua 5.1 manual §2.8).
#[derive(Clone, Copy, Debug, PartialEq, Eq)]
pub enum Lookup {
    /// The field's value.
    Found(Value),
    /// The handler that is asked, and the value that has it, which is its first argument.
    Ask(Value, Value),
    /// A value without fields.
    Not(Value),
    /// Too long a chain: a hundredth handler that isn't a function.
    Loop,
}

/// What setting a field comes to (Lua 5.1 manual §2.8).
#[derive(Clone, Copy, Debug, PartialEq, Eq)]
pub enum Store {
    /// The table whose raw value is set.
    Raw(TableId),
    /// The handler that is asked, and the value that has it, which is its first argument.
    Ask(Value, Value),
    /// A value without fields.
    Not(Value),
    /// Too long a chain: a hundredth handler that isn't a function.
    Loop,
}

// One value of a chain: what reading or setting comes to, or the handler that is indexed in its
// place.
enum Step<T> {
    Ends(T),
    Goes(Value),
}

// The ids of the two events' names.
const INDEX: usize = 0;

const NEWINDEX: usize = 1;

// How many values of a chain are indexed: the first one and 99 handlers.
const LONGEST_CHAIN: usize = 100;

impl Heap {
    /// Follows `__index` from a value for a key (Lua 5.1 manual §2.8). Takes no memory.
    pub fn index(&self, base: Value, key: Value) -> Lookup
        requires base { IsMade self.now base }
        requires key { IsMade self.now key }
        ensures lookup { lookup_view self.now.texts result ≡ lookup (store_of self.now)
            (value_view self.now.texts base) (value_view self.now.texts key) }
        ensures made { IsMadeLookup self.now result }
    {
        let mut at = base;
        let mut left = LONGEST_CHAIN;
        while left > 0 {
            left -= 1;
            match self.look(&at, &key) {
                Step::Ends(lookup) => return lookup,
                Step::Goes(handler) => at = handler,
            }
        }
        Lookup::Loop
    }

    /// Follows `__newindex` from a value for a key (Lua 5.1 manual §2.8). Takes no memory.
    pub fn new_index(&self, base: Value, key: Value) -> Store
        requires base { IsMade self.now base }
        requires key { IsMade self.now key }
        ensures setting { setting_view self.now.texts result ≡ setting (store_of self.now)
            (value_view self.now.texts base) (value_view self.now.texts key) }
        ensures made { IsMadeStore self.now result }
    {
        let mut at = base;
        let mut left = LONGEST_CHAIN;
        while left > 0 {
            left -= 1;
            match self.look_for_set(&at, &key) {
                Step::Ends(store) => return store,
                Step::Goes(handler) => at = handler,
            }
        }
        Store::Loop
    }

    // One value of a chain of `__index`.
    #[inline]
    fn look(&self, base: &Value, key: &Value) -> Step<Lookup>
        requires base { IsMade self.now base.now }
        requires key { IsMade self.now key.now }
        ensures step { (next : Meant → MeantLookup) →
            found_by self.now.texts next result
            ≡ by_own (store_of self.now) (value_view self.now.texts base.now)
            (own_value (store_of self.now) (value_view self.now.texts base.now)
            (value_view self.now.texts key.now)) next }
        ensures made { IsMadeStep (IsMadeLookup self.now) self.now result }
    {
        match self.own(*base, *key) {
            Some(value) => Step::Ends(Lookup::Found(value)),
            None => look_by(base, &self.index_handler(*base)),
        }
    }

    // One value of a chain of `__newindex`.
    #[inline]
    fn look_for_set(&self, base: &Value, key: &Value) -> Step<Store>
        requires base { IsMade self.now base.now }
        requires key { IsMade self.now key.now }
        ensures step { (next : Meant → Setting) →
            set_by self.now.texts next result
            ≡ set_by_own (store_of self.now) (value_view self.now.texts base.now)
            (value_view self.now.texts key.now) next }
        ensures made { IsMadeStep (IsMadeStore self.now) self.now result }
    {
        match self.own_table(base, key) {
            Some(id) => Step::Ends(Store::Raw(id)),
            None => set_by_handler_of(base, &self.newindex_handler(*base)),
        }
    }

    // What a value's metatable has for `__index`.
    #[inline]
    fn index_handler(&self, base: Value) -> Value
        requires made { IsMade self.now base }
        ensures handler { value_view self.now.texts result
            ≡ handler (store_of self.now) (value_view self.now.texts base) (codes "__index") }
        ensures made { IsMade self.now result }
    {
        let _texts = &self.texts;
        self.handler(base, StrId::at(INDEX))
    }

    // What a value's metatable has for `__newindex`.
    #[inline]
    fn newindex_handler(&self, base: Value) -> Value
        requires made { IsMade self.now base }
        ensures handler { value_view self.now.texts result
            ≡ handler (store_of self.now) (value_view self.now.texts base) (codes "__newindex") }
        ensures made { IsMade self.now result }
    {
        let _texts = &self.texts;
        self.handler(base, StrId::at(NEWINDEX))
    }

    // The table, where a value is one that has a value for the key itself.
    #[inline]
    fn own_table(&self, base: &Value, key: &Value) -> Option<TableId>
        requires base { IsMade self.now base.now }
        requires key { IsMade self.now key.now }
        ensures own { (next : Meant → Setting) →
            set_by_own (store_of self.now) (value_view self.now.texts base.now)
            (value_view self.now.texts key.now) next
            ≡ option_map_or in_table result (set_by_handler (value_view self.now.texts base.now)
            (handler (store_of self.now) (value_view self.now.texts base.now)
            (codes "__newindex")) next) }
        ensures made { IsMadeTable self.now result }
    {
        let Value::Table(id) = *base else {
            return None;
        };
        match self.get_raw(id, *key) {
            Value::Nil => None,
            _ => Some(id),
        }
    }

    // The value that a table or an object has itself for a key; an object has all that it ever has.
    #[inline]
    fn own(&self, base: Value, key: Value) -> Option<Value>
        requires base { IsMade self.now base }
        requires key { IsMade self.now key }
        ensures own { value_option_view self.now.texts result
            ≡ own_value (store_of self.now) (value_view self.now.texts base)
            (value_view self.now.texts key) }
        ensures made { IsMadeOption self.now result }
    {
        match base {
            Value::Table(id) => unless_nil(self.get_raw(id, key)),
            Value::Channel(_) => Some(self.method(&CHANNEL_METHODS, key)),
            Value::Thread(_) => Some(self.method(&THREAD_METHODS, key)),
            Value::Data(id) => Some(self.data_method(id, key)),
            _ => None,
        }
    }

    // A method of Data: only what came from a file has a file's name.
    #[inline]
    fn data_method(&self, id: DataId, key: Value) -> Value
        requires made { id < length self.now.contents }
        requires key { IsMade self.now key }
        ensures method { value_view self.now.texts result
            ≡ method_named (methods_of_data (contents_at (store_of self.now) id).name)
            (value_view self.now.texts key) }
        ensures made { IsMade self.now result }
    {
        match self.data_of(id).name() {
            Some(_) => self.method(&FILE_DATA_METHODS, key),
            None => self.method(&BYTE_DATA_METHODS, key),
        }
    }
}

// A value but nil.
#[inline]
fn unless_nil(value: Value) -> Option<Value>
    ensures value { (texts : List Bytes) → value_option_view texts result
        ≡ (if is_nil (value_view texts value) then None else Some (value_view texts value)) }
    ensures made { (h : HeapView) → IsMade h value → IsMadeOption h result }
{
    match value {
        Value::Nil => None,
        value => Some(value),
    }
}

// What reading a field comes to by the handler of a value that has none itself.
#[inline]
fn look_by(base: &Value, handler: &Value) -> Step<Lookup>
    ensures step { (texts : List Bytes) (next : Meant → MeantLookup) → found_by texts next result
        ≡ by_handler (value_view texts base.now) (value_view texts handler.now) next }
    ensures made { (h : HeapView) → IsMade h base.now → IsMade h handler.now
        → IsMadeStep (IsMadeLookup h) h result }
{
    match *handler {
        Value::Nil => Step::Ends(unhandled_read(base)),
        Value::Func(_) => Step::Ends(Lookup::Ask(*handler, *base)),
        Value::Native(_) => Step::Ends(Lookup::Ask(*handler, *base)),
        _ => Step::Goes(*handler),
    }
}

// Without a handler a table gives nil, and another value has no fields.
#[inline]
fn unhandled_read(base: &Value) -> Lookup
    ensures read { (texts : List Bytes) → lookup_view texts result
        ≡ unhandled (value_view texts base.now) }
    ensures made { (h : HeapView) → IsMade h base.now → IsMadeLookup h result }
{
    match *base {
        Value::Table(_) => Lookup::Found(Value::Nil),
        _ => Lookup::Not(*base),
    }
}

// What setting a field comes to by the handler of a value that hasn't the key itself.
#[inline]
fn set_by_handler_of(base: &Value, handler: &Value) -> Step<Store>
    ensures step { (texts : List Bytes) (next : Meant → Setting) → set_by texts next result
        ≡ set_by_handler (value_view texts base.now) (value_view texts handler.now) next }
    ensures made { (h : HeapView) → IsMade h base.now → IsMade h handler.now
        → IsMadeStep (IsMadeStore h) h result }
{
    match *handler {
        Value::Nil => Step::Ends(unhandled_write(base)),
        Value::Func(_) => Step::Ends(Store::Ask(*handler, *base)),
        Value::Native(_) => Step::Ends(Store::Ask(*handler, *base)),
        _ => Step::Goes(*handler),
    }
}

// Without a handler a table's raw value is set, and another value has no fields.
#[inline]
fn unhandled_write(base: &Value) -> Store
    ensures write { (texts : List Bytes) → setting_view texts result
        ≡ unhandled_set (value_view texts base.now) }
    ensures made { (h : HeapView) → IsMade h base.now → IsMadeStore h result }
{
    match *base {
        Value::Table(id) => Store::Raw(id),
        _ => Store::Not(*base),
    }
}

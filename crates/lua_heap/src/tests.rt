mod walks;

use crate::{Heap, Lookup, Native, Store, Value};
use love_base::{ChannelNo, Data, Memory, Text};
use lua_value::Num;

// Each of these functions asks what its call wants, so that a test is a table of rows.

fn text(heap: &mut Heap, bytes: &[u8]) -> Value {
    match heap.intern(bytes) {
        Ok(id) => Value::Str(id),
        Err(_) => Value::Nil,
    }
}

fn number(n: i64) -> Value {
    match Num::new(n) {
        Some(n) => Value::Num(n),
        None => Value::Nil,
    }
}

fn table(heap: &mut Heap) -> Value {
    match heap.new_table() {
        Ok(id) => Value::Table(id),
        Err(_) => Value::Nil,
    }
}

fn bytes_of<'a>(heap: &'a Heap, value: &Value) -> &'a [u8] {
    if !heap.is_made(*value) {
        return b"";
    }
    match *value {
        Value::Str(id) => heap.string(id),
        _ => b"",
    }
}

// Whether the table took the value.
fn set(heap: &mut Heap, base: &Value, key: &Value, value: &Value) -> bool {
    if !heap.is_made(*base) || !heap.is_made(*key) || !heap.is_made(*value) {
        return false;
    }
    if let Value::Nil = *key {
        return false;
    }
    match *base {
        Value::Table(id) => heap.set_raw(id, *key, *value).is_ok(),
        _ => false,
    }
}

fn get(heap: &Heap, base: &Value, key: &Value) -> Value {
    if !heap.is_made(*base) || !heap.is_made(*key) {
        return Value::Nil;
    }
    match *base {
        Value::Table(id) => heap.get_raw(id, *key),
        _ => Value::Nil,
    }
}

fn field(heap: &mut Heap, base: &Value, name: &[u8]) -> Value {
    let key = text(heap, name);
    get(heap, base, &key)
}

fn index(heap: &Heap, base: &Value, key: &Value) -> Option<Lookup> {
    if !heap.is_made(*base) || !heap.is_made(*key) {
        return None;
    }
    Some(heap.index(*base, *key))
}

fn new_index(heap: &Heap, base: &Value, key: &Value) -> Option<Store> {
    if !heap.is_made(*base) || !heap.is_made(*key) {
        return None;
    }
    Some(heap.new_index(*base, *key))
}

fn set_meta(heap: &mut Heap, base: &Value, meta: &Value) -> bool {
    if !heap.is_made(*base) || !heap.is_made(*meta) {
        return false;
    }
    let Value::Table(id) = *base else {
        return false;
    };
    match *meta {
        Value::Table(meta) => heap.set_meta(id, Some(meta)),
        _ => heap.set_meta(id, None),
    }
    true
}

// A field of the globals' table of a name, or of the globals where the name is empty.
fn member(heap: &mut Heap, module: &[u8], name: &[u8]) -> Value {
    let globals = Value::Table(heap.globals());
    if module.is_empty() {
        return field(heap, &globals, name);
    }
    let module = field(heap, &globals, module);
    field(heap, &module, name)
}

#[test]
fn a_value_is_sixteen_bytes(rt: HostRuntime) {
    assert_eq!(rt; size_of::<Value>(), 16);
}

// Whether a text has this id, and the id this text.
fn is_id_of(heap: &mut Heap, id: &Value, bytes: &[u8]) -> bool {
    text(heap, bytes) == *id && bytes_of(heap, id) == bytes
}

#[test]
fn one_text_has_one_id(rt: HostRuntime) -> Result<(), Memory> {
    let mut heap = Heap::new(rt.alloc())?;
    let a = &text(&mut heap, b"a");
    let b = &text(&mut heap, b"a\0");
    let empty = &text(&mut heap, b"");
    assert!(rt; is_id_of(&mut heap, a, b"a"));
    assert!(rt; is_id_of(&mut heap, b, b"a\0"));
    assert!(rt; is_id_of(&mut heap, empty, b""));
    assert!(rt; is_id_of(&mut heap, a, b"a"));
    assert!(rt; *a != *b && *b != *empty && *a != *empty);
    Ok(())
}

#[test]
fn the_library_is_there(rt: HostRuntime) -> Result<(), Memory> {
    let mut heap = Heap::new(rt.alloc())?;
    for (module, name, function) in [
        (b"".as_slice(), b"print".as_slice(), Native::Print),
        (b"", b"type", Native::TypeName),
        (b"string", b"rep", Native::StringRep),
        (b"table", b"concat", Native::TableConcat),
        (b"math", b"max", Native::MathMax),
    ] {
        let found = member(&mut heap, module, name);
        assert!(rt; found == Value::Native(function));
    }
    let event = member(&mut heap, b"love", b"event");
    assert!(rt; event == Value::Nil);
    let version = member(&mut heap, b"", b"_VERSION");
    assert_eq!(rt; bytes_of(&heap, &version), b"Lua 5.1".as_slice());
    Ok(())
}

#[test]
fn modules_of_love_are_there(rt: HostRuntime) -> Result<(), Memory> {
    let mut heap = Heap::new(rt.alloc())?;
    for (module, name, function) in [
        (
            b"thread".as_slice(),
            b"newChannel".as_slice(),
            Native::LoveThreadNewChannel,
        ),
        (b"data", b"newByteData", Native::LoveDataNewByteData),
        (b"filesystem", b"read", Native::LoveFilesystemRead),
    ] {
        let module = member(&mut heap, b"love", module);
        let found = field(&mut heap, &module, name);
        assert!(rt; found == Value::Native(function));
    }
    Ok(())
}

// Reading along `__index`, with what the reference program gives: a value of its own comes first, a
// function is asked, another value is indexed in its place.
#[test]
fn reading_follows_handlers(rt: HostRuntime) -> Result<(), Memory> {
    let mut heap = Heap::new(rt.alloc())?;
    let base = &table(&mut heap);
    let meta = &table(&mut heap);
    let other = &table(&mut heap);
    let event = &text(&mut heap, b"__index");
    let a = &text(&mut heap, b"a");
    let b = &text(&mut heap, b"b");
    let print = &Value::Native(Native::Print);
    assert!(rt; set(&mut heap, base, a, &number(1)));
    assert!(rt; set(&mut heap, other, b, &number(2)));
    assert!(rt; set_meta(&mut heap, base, meta));
    for (handler, key, lookup) in [
        (other, a, Lookup::Found(number(1))),
        (other, b, Lookup::Found(number(2))),
        (other, event, Lookup::Found(Value::Nil)),
        (print, a, Lookup::Found(number(1))),
        (print, b, Lookup::Ask(*print, *base)),
        (event, b, Lookup::Found(Value::Nil)),
        (&Value::Bool(true), b, Lookup::Not(Value::Bool(true))),
        (&Value::Nil, b, Lookup::Found(Value::Nil)),
    ] {
        assert!(rt; set(&mut heap, meta, event, handler));
        assert!(rt; index(&heap, base, key) == Some(lookup));
    }
    Ok(())
}

// Whether setting a field comes to this, where a table's metatable has this handler.
fn sets_as(heap: &mut Heap, base: &Value, handler: &Value, name: &[u8], store: &Store) -> bool {
    let event = text(heap, b"__newindex");
    let key = text(heap, name);
    let meta = table(heap);
    set(heap, &meta, &event, handler)
        && set_meta(heap, base, &meta)
        && new_index(heap, base, &key) == Some(*store)
}

#[test]
fn setting_follows_handlers(rt: HostRuntime) -> Result<(), Memory> {
    let mut heap = Heap::new(rt.alloc())?;
    let id = heap.new_table()?;
    let base = &Value::Table(id);
    let a = &text(&mut heap, b"a");
    assert!(rt; set(&mut heap, base, a, &number(1)));
    let print = &Value::Native(Native::Print);
    let other = heap.new_table()?;
    assert!(rt; sets_as(&mut heap, base, &Value::Nil, b"b", &Store::Raw(id)));
    assert!(rt; sets_as(&mut heap, base, print, b"a", &Store::Raw(id)));
    assert!(rt; sets_as(&mut heap, base, print, b"b", &Store::Ask(*print, *base)));
    assert!(rt;
        sets_as(
            &mut heap,
            base,
            &Value::Table(other),
            b"b",
            &Store::Raw(other)
        )
    );
    assert!(rt;
        sets_as(
            &mut heap,
            base,
            &Value::Bool(true),
            b"b",
            &Store::Not(Value::Bool(true))
        )
    );
    Ok(())
}

// A table in front of another one, which is its handler for an event in its own metatable, itself.
fn in_front(heap: &mut Heap, event: &Value, next: &Value) -> Value {
    let before = table(heap);
    let _ = set_meta(heap, &before, &before) && set(heap, &before, event, next);
    before
}

// So many tables in front of one.
fn chain(heap: &mut Heap, event: &[u8], count: usize) -> Value {
    let event = &text(heap, event);
    let mut next = table(heap);
    for _ in 0..count {
        next = in_front(heap, event, &next);
    }
    next
}

// The hundredth handler that isn't a function is one too many.
#[test]
fn a_chain_has_an_end(rt: HostRuntime) -> Result<(), Memory> {
    for (count, is_endless) in [(1, false), (99, false), (100, true)] {
        let mut heap = Heap::new(rt.alloc())?;
        let key = &text(&mut heap, b"x");
        let base = chain(&mut heap, b"__index", count);
        let read = index(&heap, &base, key);
        assert!(rt; (read == Some(Lookup::Loop)) == is_endless, "{count}");
        let base = chain(&mut heap, b"__newindex", count);
        let written = new_index(&heap, &base, key);
        assert!(rt; (written == Some(Store::Loop)) == is_endless, "{count}");
    }
    Ok(())
}

// What a field of a value comes to.
fn reads_as(heap: &mut Heap, base: &Value, name: &[u8], lookup: &Lookup) -> bool {
    let key = text(heap, name);
    index(heap, base, &key) == Some(*lookup)
}

#[test]
fn strings_and_objects_have_fields(rt: HostRuntime) -> Result<(), Memory> {
    let mut heap = Heap::new(rt.alloc())?;
    let string = &text(&mut heap, b"abc");
    let Some(channel) = ChannelNo::new(1) else {
        return Err(Memory);
    };
    let channel = &Value::Channel(channel);
    let thread = &Value::Thread(1);
    for (base, name, lookup) in [
        (
            string,
            b"rep".as_slice(),
            Lookup::Found(Value::Native(Native::StringRep)),
        ),
        (string, b"no", Lookup::Found(Value::Nil)),
        (
            channel,
            b"push",
            Lookup::Found(Value::Native(Native::ChannelPush)),
        ),
        (
            channel,
            b"typeOf",
            Lookup::Found(Value::Native(Native::ObjectTypeOf)),
        ),
        (channel, b"start", Lookup::Found(Value::Nil)),
        (
            thread,
            b"start",
            Lookup::Found(Value::Native(Native::ThreadStart)),
        ),
        (&Value::Bool(true), b"x", Lookup::Not(Value::Bool(true))),
    ] {
        assert!(rt; reads_as(&mut heap, base, name, &lookup));
    }
    Ok(())
}

#[test]
fn data_have_methods(rt: HostRuntime) -> Result<(), Memory> {
    let alloc = rt.alloc();
    let mut heap = Heap::new(alloc)?;
    let plain = &Value::Data(heap.add_data(Data::new(alloc, b"xy", None)?)?);
    let name = Some(Text::of(alloc, b"a.txt")?);
    let file = &Value::Data(heap.add_data(Data::new(alloc, b"xy", name)?)?);
    for (base, name, lookup) in [
        (
            plain,
            b"getSize".as_slice(),
            Lookup::Found(Value::Native(Native::DataGetSize)),
        ),
        (plain, b"getFilename", Lookup::Found(Value::Nil)),
        (
            file,
            b"getFilename",
            Lookup::Found(Value::Native(Native::DataGetFilename)),
        ),
    ] {
        assert!(rt; reads_as(&mut heap, base, name, &lookup));
    }
    Ok(())
}

#[test]
fn cells_are_kept(rt: HostRuntime) -> Result<(), Memory> {
    let mut heap = Heap::new(rt.alloc())?;
    let cell = heap.new_cell(Value::Nil)?;
    assert_eq!(rt; heap.cells(), 1);
    heap.set_cell(cell, Value::Bool(true));
    assert!(rt; heap.cell(cell) == Value::Bool(true));
    Ok(())
}

#[test]
fn functions_are_kept(rt: HostRuntime) -> Result<(), Memory> {
    let mut heap = Heap::new(rt.alloc())?;
    let cell = heap.new_cell(Value::Nil)?;
    let function = heap.new_func(3, 5, &[cell])?;
    assert_eq!(rt; heap.func_code(function), 3);
    assert_eq!(rt; heap.func_proto(function), 5);
    assert_eq!(rt; heap.func_cells(function).len(), 1);
    Ok(())
}

#[test]
fn a_new_table_is_empty(rt: HostRuntime) -> Result<(), Memory> {
    let mut heap = Heap::new(rt.alloc())?;
    let table = heap.new_table()?;
    assert_eq!(rt; heap.border(table), 0);
    assert_eq!(rt; heap.table(table).border(), 0);
    assert!(rt; heap.meta(table).is_none());
    Ok(())
}

// What was refused is there no sooner than it is taken.
#[test]
fn a_refused_text_changes_nothing(rt: HostRuntime) -> Result<(), Memory> {
    let mut heap = Heap::new(rt.alloc())?;
    for n in 0..60u8 {
        let bytes = [n, n / 2, 7];
        let before = heap.texts.len();
        if heap.intern(&bytes).is_err() {
            assert_eq!(rt; heap.texts.len(), before);
            assert!(rt; heap.intern(&bytes).is_ok());
        }
        assert!(rt; heap.texts.len() > before);
    }
    Ok(())
}

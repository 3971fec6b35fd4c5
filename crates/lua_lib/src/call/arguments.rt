//! How functions read their arguments, which are counted from 0.

ghost use Rattle.std.specs.Prelude.{◌≡◌, ◌<◌, [], List, map, IfOk, MatchOption, None, Some, length, pos};
ghost use Rattle.lua_tree.specs.Tree.{Bytes};
ghost use Rattle.lua_meaning.specs.Arguments as meaning;
ghost use Rattle.lua_meaning.specs.LoveArguments as love;
ghost use Rattle.lua_meaning.specs.Text.{as_number, as_text};
ghost use Rattle.lua_heap.specs.Value.{value_view};
ghost use Rattle.lua_meaning.specs.Store.{border};
ghost use Rattle.lua_heap.specs.Heap.{HeapView, IsMade, store_of};
ghost use Rattle.lua_lib.specs.Causes.{AreMade, values_of, Comes};

use crate::Fault;
use crate::basic::read;
use crate::call::cause::{Cause, Expected};
use crate::signed::natural;
use itoa::Buffer;
use love_base::ChannelNo;
use lua_heap::{DataId, Heap, TableId, Value};
use lua_value::Num;

/// An argument, nil where it is absent.
pub fn argument(args: &[Value], n: usize) -> Value
    ensures value { (texts : List Bytes) → value_view texts result
        ≡ meaning.argument n (map (value_view texts) args.now) }
    ensures made { (h : HeapView) → AreMade h args.now → IsMade h result }
{
    match args.get(n) {
        Some(value) => *value,
        None => Value::Nil,
    }
}

/// A value as a number: a number itself, a string that reads as one.
pub fn as_number(heap: &Heap, value: &Value) -> Option<Num>
    requires { IsMade heap.now value.now }
    ensures { result ≡ as_number (value_view heap.now.texts value.now) }
{
    match *value {
        Value::Num(number) => Some(number),
        Value::Str(id) => read(heap.string(id)),
        _ => None,
    }
}

/// A value as a text: a string itself, a number's digits, which are written into the buffer.
pub fn as_text<'a>(heap: &'a Heap, value: &Value, digits: &'a mut Buffer) -> Option<&'a [u8]>
    requires { IsMade heap.now value.now }
    ensures { MatchOption result
        (as_text (value_view heap.now.texts value.now) ≡ None)
        (λ text. as_text (value_view heap.now.texts value.now) ≡ Some text.now) }
{
    match *value {
        Value::Str(id) => Some(heap.string(id)),
        Value::Num(number) => Some(number.text(digits).as_bytes()),
        _ => None,
    }
}

/// A number, or a string that reads as one.
pub fn number_argument(heap: &Heap, args: &[Value], n: usize) -> Result<Num, Cause>
    requires { AreMade heap.now args.now }
    ensures { Comes (λ number. number) heap.now
        (meaning.number_argument n (values_of heap.now args.now)) result }
{
    let value = argument(args, n);
    match as_number(heap, &value) {
        Some(number) => Ok(number),
        None => Err(Cause::Wants(n, Expected::Number, value)),
    }
}

/// The same, with a default where it is nil.
pub fn number_or(heap: &Heap, args: &[Value], n: usize, default: Num) -> Result<Num, Cause>
    requires { AreMade heap.now args.now }
    ensures { Comes (λ number. number) heap.now
        (meaning.number_or n (values_of heap.now args.now) default) result }
{
    match argument(args, n) {
        Value::Nil => Ok(default),
        _ => number_argument(heap, args, n),
    }
}

/// The same, with a default that is a natural number; one that is over 99,999,999,999,999 is want of
/// memory.
pub fn number_or_natural(heap: &Heap, args: &[Value], n: usize, default: u64) -> Result<Num, Cause>
    requires { AreMade heap.now args.now }
    ensures { Comes (λ number. number) heap.now
        (meaning.number_or n (values_of heap.now args.now) (pos default)) result }
{
    match natural(default) {
        Some(default) => number_or(heap, args, n, default),
        None => Err(Cause::By(Fault::Memory)),
    }
}

/// The same, with the border of a table as the default (Lua 5.1 manual §2.5.5).
pub fn number_or_border(heap: &Heap, args: &[Value], n: usize, table: TableId) -> Result<Num, Cause>
    requires args { AreMade heap.now args.now }
    requires table { table < length heap.now.tables }
    ensures { Comes (λ number. number) heap.now
        (meaning.number_or n (values_of heap.now args.now) (pos (border (store_of heap.now) table)))
        result }
{
    number_or_natural(heap, args, n, heap.border(table))
}

/// A string, or a number's digits.
pub fn text_argument<'a>(
    heap: &'a Heap,
    args: &[Value],
    n: usize,
    digits: &'a mut Buffer,
) -> Result<&'a [u8], Cause>
    requires { AreMade heap.now args.now }
    ensures { Comes (λ text. text.now) heap.now
        (meaning.text_argument n (values_of heap.now args.now)) result }
{
    let value = argument(args, n);
    match as_text(heap, &value, digits) {
        Some(text) => Ok(text),
        None => Err(Cause::Wants(n, Expected::Text, value)),
    }
}

/// The same, empty where it is nil.
pub fn text_or_empty<'a>(
    heap: &'a Heap,
    args: &[Value],
    n: usize,
    digits: &'a mut Buffer,
) -> Result<&'a [u8], Cause>
    requires { AreMade heap.now args.now }
    ensures { Comes (λ text. text.now) heap.now
        (meaning.text_or n (values_of heap.now args.now) []) result }
{
    match argument(args, n) {
        Value::Nil => Ok(b""),
        _ => text_argument(heap, args, n, digits),
    }
}

/// A table.
pub fn table_argument(heap: &Heap, args: &[Value], n: usize) -> Result<TableId, Cause>
    requires { AreMade heap.now args.now }
    ensures taken { Comes (λ table. table) heap.now
        (meaning.table_argument n (values_of heap.now args.now)) result }
    ensures made { IfOk result (λ table. table < length heap.now.tables) }
{
    let _heap = heap;
    let value = argument(args, n);
    match value {
        Value::Table(id) => Ok(id),
        _ => Err(Cause::Wants(n, Expected::Table, value)),
    }
}

/// Data.
pub fn data_argument(heap: &Heap, args: &[Value], n: usize) -> Result<DataId, Cause>
    requires { AreMade heap.now args.now }
    ensures taken { Comes (λ datum. datum) heap.now
        (meaning.data_argument n (values_of heap.now args.now)) result }
    ensures made { IfOk result (λ datum. datum < length heap.now.contents) }
{
    let _heap = heap;
    let value = argument(args, n);
    match value {
        Value::Data(id) => Ok(id),
        _ => Err(Cause::Wants(n, Expected::Data, value)),
    }
}

/// A Channel.
pub fn channel_argument(heap: &Heap, args: &[Value], n: usize) -> Result<ChannelNo, Cause>
    requires { AreMade heap.now args.now }
    ensures { Comes (λ channel. channel) heap.now
        (love.channel_argument n (values_of heap.now args.now)) result }
{
    let _heap = heap;
    let value = argument(args, n);
    match value {
        Value::Channel(channel) => Ok(channel),
        _ => Err(Cause::Wants(n, Expected::Channel, value)),
    }
}

/// A Thread, by its number.
pub fn thread_argument(heap: &Heap, args: &[Value], n: usize) -> Result<u32, Cause>
    requires { AreMade heap.now args.now }
    ensures { Comes (λ thread. thread) heap.now
        (love.thread_argument n (values_of heap.now args.now)) result }
{
    let _heap = heap;
    let value = argument(args, n);
    match value {
        Value::Thread(thread) => Ok(thread),
        _ => Err(Cause::Wants(n, Expected::Thread, value)),
    }
}

/// A function, of a program or of the library.
pub fn function_argument(heap: &Heap, args: &[Value], n: usize) -> Result<Value, Cause>
    requires { AreMade heap.now args.now }
    ensures taken { Comes (λ _. tt) heap.now
        (love.function_argument n (values_of heap.now args.now)) result }
    ensures value { IfOk result (λ value. value_view heap.now.texts value
        ≡ meaning.argument n (values_of heap.now args.now)) }
    ensures made { IfOk result (λ value. IsMade heap.now value) }
{
    let _heap = heap;
    let value = argument(args, n);
    match value {
        Value::Func(_) => Ok(value),
        Value::Native(_) => Ok(value),
        _ => Err(Cause::Wants(n, Expected::Function, value)),
    }
}

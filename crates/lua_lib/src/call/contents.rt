//! The functions of `love.data`, and the name of Data that came from a file (LÖVE wiki, `love.data`,
//! `FileData`).

ghost use Rattle.std.specs.Prelude.{◌≡◌, ◌<◌, ◌≤◌, [], ◌∷◌, pos, None, IfOk, OnOk, length};
ghost use Rattle.std.specs.Option.{option_copied};
ghost use Rattle.lua_meaning.specs.Value as meant;
ghost use Rattle.lua_meaning.specs.Store.{add_contents};
ghost use Rattle.lua_meaning.specs.Data as meaning;
ghost use Rattle.lua_heap.specs.Value.{value_view, text_at};
ghost use Rattle.lua_heap.specs.Heap.{IsMade, Extends, store_of};
ghost use Rattle.lua_lib.specs.Causes.{AreMade, values_of, one_text};
ghost use Rattle.lua_lib.specs.Parts.{IsPart};
ghost use Rattle.lua_lib.specs.Runs.{Runs};

use crate::Fault;
use crate::call::arguments::{argument, data_argument, number_argument, number_or_natural};
use crate::call::cause::{Cause, Expected};
use crate::call::strings::copied;
use crate::signed::{Signed, split_sign};
use love_base::{Data, Memory, Text};
use lua_heap::{DataId, Heap, StrId, Value};
use lua_value::Num;
use std::alloc::Global;

// So many bytes of Data from an offset on, which are shared.
fn part_of(whole: &Data, offset: Num, size: Num) -> Result<Data, Cause>
    ensures { IsPart (meaning.part_of whole.now offset size) result }
{
    match split_sign(offset) {
        Signed::Plus(offset) => part_from(whole, offset as usize, size),
        Signed::Minus(_) => Err(Cause::By(Fault::OutOfBounds(1))),
    }
}

// The same, where the offset isn't negative.
fn part_from(whole: &Data, offset: usize, size: Num) -> Result<Data, Cause>
    ensures { IsPart (meaning.part_of whole.now (pos offset) size) result }
{
    if offset > whole.size() {
        return Err(Cause::By(Fault::OutOfBounds(1)));
    }
    match split_sign(size) {
        Signed::Plus(size) => part_at(whole, offset, size as usize),
        Signed::Minus(_) => Err(Cause::By(Fault::OutOfBounds(2))),
    }
}

// The same, where the offset lies within, and the size isn't negative.
fn part_at(whole: &Data, offset: usize, size: usize) -> Result<Data, Cause>
    requires { offset ≤ length whole.now.bytes }
    ensures { IsPart (meaning.part_of whole.now (pos offset) (pos size)) result }
{
    let view = whole.view(offset, size)?;
    match view {
        Some(made) => Ok(made),
        None => Err(Cause::By(Fault::OutOfBounds(2))),
    }
}

/// `love.data.newDataView(d, offset, size)`: so many bytes of Data from an offset on, which counts
/// from 0, as Data.
///
/// # Errors
///
/// [`Fault::OutOfBounds`] of the offset, or else of the size, where they don't lie within.
pub fn new_data_view(heap: &mut Heap, args: &[Value]) -> Result<DataId, Cause>
    requires { AreMade heap.old args.now }
    ensures runs { Runs (λ made. meant.datum made ∷ []) heap.old heap.new
        (meaning.new_data_view (values_of heap.old args.now)) result }
    ensures made { IfOk result (λ made. made < length heap.new.contents) }
    ensures functions { heap.new.functions ≡ heap.old.functions }
    ensures extends { Extends heap.old heap.new }
{
    let data = data_argument(heap, args, 0)?;
    let offset = number_argument(heap, args, 1)?;
    let size = number_argument(heap, args, 2)?;
    let part = part_of(heap.data_of(data), offset, size)?;
    let made = heap.add_data(part)?;
    Ok(made)
}

/// `d:getFilename()`: the name of the file that Data came from.
///
/// # Errors
///
/// [`Cause::Wants`] where the argument is no such Data.
pub fn get_filename(alloc: Global, heap: &Heap, args: &[Value]) -> Result<Vec<u8>, Cause>
    requires { AreMade heap.now args.now }
    ensures { Runs (λ made. one_text made.items) heap.now heap.now
        (meaning.get_filename (values_of heap.now args.now)) result }
{
    let value = argument(args, 0);
    match name_of(heap, &value) {
        Some(name) => {
            let made = copied(alloc, name.bytes())?;
            Ok(made)
        }
        None => Err(Cause::Wants(0, Expected::FileData, value)),
    }
}

// The name of the file that a value came from; other values than such Data have none.
fn name_of<'a>(heap: &'a Heap, value: &Value) -> Option<&'a Text>
    requires { IsMade heap.now value.now }
    ensures { option_copied result
        ≡ meaning.name_in (store_of heap.now) (value_view heap.now.texts value.now) }
{
    match *value {
        Value::Data(id) => heap.data_of(id).name(),
        _ => None,
    }
}

// How many bytes of Data stand behind an offset.
fn size_behind(whole: &Data, offset: Num) -> u64
    ensures { pos result ≡ meaning.size_behind whole.now offset }
{
    match split_sign(offset) {
        Signed::Plus(offset) => whole.size().saturating_sub(offset as usize) as u64,
        Signed::Minus(_) => 0,
    }
}

// A string's bytes as Data.
fn text_data(alloc: Global, heap: &mut Heap, id: StrId) -> Result<DataId, Memory>
    requires { id < length heap.old.texts }
    ensures id { IfOk result (λ made. made ≡ length heap.old.contents) }
    ensures made { IfOk result (λ made. made < length heap.new.contents) }
    ensures store { OnOk result (store_of heap.new ≡ add_contents (store_of heap.old)
        (record { bytes = text_at heap.old.texts id; name = None })) }
    ensures functions { heap.new.functions ≡ heap.old.functions }
    ensures extends { Extends heap.old heap.new }
{
    let data = Data::new(alloc, heap.string(id), None)?;
    let made = heap.add_data(data)?;
    Ok(made)
}

// A part of Data, which the arguments behind it name, as Data.
fn part_data(heap: &mut Heap, args: &[Value], whole: DataId) -> Result<DataId, Cause>
    requires args { AreMade heap.old args.now }
    requires whole { whole < length heap.old.contents }
    ensures runs { Runs (λ made. meant.datum made ∷ []) heap.old heap.new
        (meaning.copied (meant.datum whole) (values_of heap.old args.now)) result }
    ensures made { IfOk result (λ made. made < length heap.new.contents) }
    ensures functions { heap.new.functions ≡ heap.old.functions }
    ensures extends { Extends heap.old heap.new }
{
    let offset = number_or_natural(heap, args, 1, 0)?;
    let size = number_or_natural(heap, args, 2, size_behind(heap.data_of(whole), offset))?;
    let part = part_of(heap.data_of(whole), offset, size)?;
    let made = heap.add_data(part)?;
    Ok(made)
}

/// `love.data.newByteData(x, offset, size)`: Data of a string, of which all bytes are taken, or of so
/// many bytes of Data from an offset on, which counts from 0; the offset is 0 where none is given,
/// and the size is all that follows it.
///
/// # Errors
///
/// [`Cause::Wants`] where x is neither; [`Fault::OutOfBounds`] of the offset, or else of the size,
/// where they don't lie within.
pub fn new_byte_data(alloc: Global, heap: &mut Heap, args: &[Value]) -> Result<DataId, Cause>
    requires { AreMade heap.old args.now }
    ensures runs { Runs (λ made. meant.datum made ∷ []) heap.old heap.new
        (meaning.new_byte_data (values_of heap.old args.now)) result }
    ensures made { IfOk result (λ made. made < length heap.new.contents) }
    ensures functions { heap.new.functions ≡ heap.old.functions }
    ensures extends { Extends heap.old heap.new }
{
    match argument(args, 0) {
        Value::Str(id) => {
            let made = text_data(alloc, heap, id)?;
            Ok(made)
        }
        Value::Data(data) => part_data(heap, args, data),
        value => Err(Cause::Wants(0, Expected::Text, value)),
    }
}

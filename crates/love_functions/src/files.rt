//! `love.filesystem` (LÖVE wiki, `love.filesystem`).

ghost use Rattle.std.specs.Prelude.{◌≡◌, [], length, pos, Some, IfOk};
ghost use Rattle.std.specs.Option.{option_map};
ghost use Rattle.lua_meaning.specs.Arguments.{text_argument};
ghost use Rattle.lua_heap.specs.Heap.{HeapView};
ghost use Rattle.lua_lib.specs.Causes.{AreMade, values_of, Comes};
ghost use Rattle.love_functions.specs.Asking as meaning;
ghost use Rattle.love_functions.specs.View.{IsMadeCalled, IsCalled, called_view, files_view};

use crate::Called;
use crate::refusing::{copied, no_file};
use itoa::Buffer;
use love_base::{Data, Memory, Text};
use lua_code::File;
use lua_heap::{Heap, Value};
use lua_lib::call::Cause;
use lua_lib::call::arguments::{argument, text_argument};
use lua_lib::strings::check_length;
use lua_value::Num;
use std::alloc::Global;

// The bytes of the file of a path, in time linear in the number of files.
pub(crate) fn content_of<'a>(files: &'a [File], path: &[u8]) -> Option<&'a Data>
    ensures { option_map (λ content. content.now.bytes) result
        ≡ meaning.content_at path.now (files_view files.now) }
{
    for file in files {
        if file.name.bytes() == path {
            return Some(&file.content);
        }
    }
    None
}

// An argument's text.
pub(crate) fn text_of(
    alloc: Global,
    heap: &Heap,
    args: &[Value],
    n: usize,
) -> Result<Vec<u8>, Cause>
    requires { AreMade heap.now args.now }
    ensures { Comes (λ text. text.items) heap.now
        (text_argument n (values_of heap.now args.now)) result }
{
    let mut digits = Buffer::new();
    let text = text_argument(heap, args, n, &mut digits)?;
    let copy = copied(alloc, text)?;
    Ok(copy)
}

// Some values.
pub(crate) fn gives(alloc: Global, values: &[Value]) -> Result<Called, Memory>
    ensures view { IfOk result (λ called. (h : HeapView)
        → called_view h called ≡ meaning.gives (values_of h values.now)) }
    ensures made { IfOk result (λ called. (h : HeapView)
        → AreMade h values.now → IsMadeCalled h called) }
{
    let values = Vec::from_slice(alloc, values)?;
    Ok(Called::Gives(values))
}

// nil, and that there is no file of a path.
fn nothing_read(alloc: Global, heap: &mut Heap, path: &[u8]) -> Result<Called, Cause>
    ensures { IsCalled heap.old heap.new (meaning.nothing_read path.now) result }
{
    let text = no_file(alloc, path)?;
    let id = heap.intern(&text)?;
    let called = gives(alloc, &[Value::Nil, Value::Str(id)])?;
    Ok(called)
}

// How many bytes there are, as a number.
fn size_of(content: &[u8]) -> Result<Num, Memory>
    ensures { IfOk result (λ size. size ≡ pos (length content.now)) }
{
    match i64::try_from(content.len()) {
        Ok(size) => match Num::new(size) {
            Some(size) => Ok(size),
            None => Err(Memory),
        },
        Err(_) => Err(Memory),
    }
}

// A file's bytes and their number.
fn read_content(alloc: Global, heap: &mut Heap, content: &[u8]) -> Result<Called, Cause>
    ensures { IsCalled heap.old heap.new
        (meaning.read_file [] (Some content.now)) result }
{
    check_length(content)?;
    let size = size_of(content)?;
    let id = heap.intern(content)?;
    let called = gives(alloc, &[Value::Str(id), Value::Num(size)])?;
    Ok(called)
}

// `love.filesystem.read(name)`: the file's bytes and their number, or nil and why not.
pub(crate) fn read(
    alloc: Global,
    heap: &mut Heap,
    files: &[File],
    args: &[Value],
) -> Result<Called, Cause>
    requires { AreMade heap.old args.now }
    ensures { IsCalled heap.old heap.new
        (meaning.read (files_view files.now) (values_of heap.old args.now)) result }
{
    let path = text_of(alloc, heap, args, 0)?;
    match content_of(files, &path) {
        Some(content) => read_content(alloc, heap, content.bytes()),
        None => nothing_read(alloc, heap, &path),
    }
}

// Data of bytes, with the name of their file.
fn made_data(alloc: Global, heap: &mut Heap, bytes: &[u8], name: &[u8]) -> Result<Called, Cause>
    ensures { IsCalled heap.old heap.new (meaning.made_data bytes.now name.now) result }
{
    let name = Text::of(alloc, name)?;
    let data = Data::new(alloc, bytes, Some(name))?;
    let id = heap.add_data(data)?;
    let called = gives(alloc, &[Value::Data(id)])?;
    Ok(called)
}

// Data of a file's bytes, or nil and why not.
fn file_data(alloc: Global, heap: &mut Heap, files: &[File], path: &[u8]) -> Result<Called, Cause>
    ensures { IsCalled heap.old heap.new
        (meaning.file_data path.now (meaning.content_at path.now (files_view files.now))) result }
{
    match content_of(files, path) {
        Some(content) => made_data(alloc, heap, content.bytes(), path),
        None => nothing_read(alloc, heap, path),
    }
}

// Data of the bytes of the first argument, with the second one as the name.
fn named_data(alloc: Global, heap: &mut Heap, args: &[Value]) -> Result<Called, Cause>
    requires { AreMade heap.old args.now }
    ensures { IsCalled heap.old heap.new (meaning.bytes_data (values_of heap.old args.now)) result }
{
    let bytes = text_of(alloc, heap, args, 0)?;
    let name = text_of(alloc, heap, args, 1)?;
    made_data(alloc, heap, &bytes, &name)
}

// Data of the file of which the first argument is the path, or nil and why not.
fn path_data(
    alloc: Global,
    heap: &mut Heap,
    files: &[File],
    args: &[Value],
) -> Result<Called, Cause>
    requires { AreMade heap.old args.now }
    ensures { IsCalled heap.old heap.new
        (meaning.path_data (files_view files.now) (values_of heap.old args.now)) result }
{
    let path = text_of(alloc, heap, args, 0)?;
    file_data(alloc, heap, files, &path)
}

// `love.filesystem.newFileData(x, name)`: of the bytes x; without a name of the file x, or nil and
// why not.
pub(crate) fn new_file_data(
    alloc: Global,
    heap: &mut Heap,
    files: &[File],
    args: &[Value],
) -> Result<Called, Cause>
    requires { AreMade heap.old args.now }
    ensures { IsCalled heap.old heap.new
        (meaning.new_file_data (files_view files.now) (values_of heap.old args.now)) result }
{
    match argument(args, 1) {
        Value::Nil => path_data(alloc, heap, files, args),
        _ => named_data(alloc, heap, args),
    }
}

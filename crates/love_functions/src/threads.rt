//! Threads (LÖVE wiki, `love.thread.newThread`, `Thread`).

ghost use Rattle.std.specs.Prelude.{◌≡◌};
ghost use Rattle.std.specs.Option.{option_copied};
ghost use Rattle.lua_meaning.specs.Message.{Ask as Question};
ghost use Rattle.lua_meaning.specs.Love.{is_code, file_data_in};
ghost use Rattle.lua_heap.specs.Value.{value_view};
ghost use Rattle.lua_heap.specs.Heap.{HeapView, IsMade, store_of};
ghost use Rattle.lua_lib.specs.Causes.{AreMade, values_of};
ghost use Rattle.love_functions.specs.Asking as meaning;
ghost use Rattle.love_functions.specs.View.{Comes, MakesCalled, files_view};

use crate::Called;
use crate::arguments::behind_one;
use crate::channels::asks;
use crate::files::content_of;
use crate::refusing::{missing, unsent};
use crossing::pack_all;
use itoa::Buffer;
use love_base::{Data, Text};
use lua_code::File;
use lua_heap::{Heap, Value};
use lua_lib::call::Cause;
use lua_lib::call::arguments::{argument, text_argument, thread_argument};
use std::alloc::Global;
use variant::{Ask, Source};

// The bytes from which on a text is code, and not a file's path.
const CODE_LENGTH: usize = 1024;

// Whether a text is code, and not a file's path.
fn is_code(text: &[u8]) -> bool
    ensures { result ≡ is_code text.now }
{
    text.len() >= CODE_LENGTH || text.contains(&b'\n')
}

// The FileData that a value is.
fn file_data<'a>(heap: &'a Heap, value: &Value) -> Option<&'a Data>
    requires { IsMade heap.now value.now }
    ensures { option_copied result
        ≡ file_data_in (store_of heap.now) (value_view heap.now.texts value.now) }
{
    match *value {
        Value::Data(id) => {
            let data = heap.data_of(id);
            match data.name() {
                Some(_) => Some(data),
                None => None,
            }
        }
        _ => None,
    }
}

// A Thread that runs a file of a path, where there is one.
fn of_file(alloc: Global, files: &[File], path: &[u8]) -> Result<Called, Cause>
    ensures comes { (h : HeapView) → Comes h h (meaning.new_thread_of_file path.now
        (meaning.content_at path.now (files_view files.now))) result }
    ensures made { (h : HeapView) → MakesCalled h result }
{
    match content_of(files, path) {
        Some(_) => {
            let path = Text::of(alloc, path)?;
            Ok(asks(Ask::NewThread(Source::File(path))))
        }
        None => missing(alloc, path),
    }
}

// A Thread that runs a text, or the file of which it is the path.
fn of_text(alloc: Global, files: &[File], text: &[u8]) -> Result<Called, Cause>
    ensures comes { (h : HeapView) → Comes h h
        (meaning.new_thread_of_text (files_view files.now) text.now) result }
    ensures made { (h : HeapView) → MakesCalled h result }
{
    if !is_code(text) {
        return of_file(alloc, files, text);
    }
    let code = Text::of(alloc, text)?;
    Ok(asks(Ask::NewThread(Source::Code(code))))
}

// `love.thread.newThread(x)`: of a FileData, of code, or of a file of the game's folder.
pub(crate) fn new_thread(
    alloc: Global,
    heap: &Heap,
    files: &[File],
    args: &[Value],
) -> Result<Called, Cause>
    requires { AreMade heap.now args.now }
    ensures comes { Comes heap.now heap.now
        (meaning.new_thread (files_view files.now) (values_of heap.now args.now)) result }
    ensures made { MakesCalled heap.now result }
{
    let value = argument(args, 0);
    match file_data(heap, &value) {
        Some(data) => {
            let data = data.share()?;
            Ok(asks(Ask::NewThread(Source::FileData(data))))
        }
        None => {
            let mut digits = Buffer::new();
            let text = text_argument(heap, args, 0, &mut digits)?;
            of_text(alloc, files, text)
        }
    }
}

// `t:start(..)` of a Thread.
fn start_thread(alloc: Global, heap: &Heap, args: &[Value], thread: u32) -> Result<Called, Cause>
    requires { AreMade heap.now args.now }
    ensures comes { Comes heap.now heap.now
        (meaning.start_thread thread (values_of heap.now args.now)) result }
    ensures made { MakesCalled heap.now result }
{
    match pack_all(alloc, heap, behind_one(args)) {
        Ok(messages) => Ok(asks(Ask::Start(thread, messages))),
        Err(fault) => unsent(alloc, fault),
    }
}

// `t:start(..)`.
pub(crate) fn start(alloc: Global, heap: &Heap, args: &[Value]) -> Result<Called, Cause>
    requires { AreMade heap.now args.now }
    ensures comes { Comes heap.now heap.now (meaning.start (values_of heap.now args.now)) result }
    ensures made { MakesCalled heap.now result }
{
    let thread = thread_argument(heap, args, 0)?;
    start_thread(alloc, heap, args, thread)
}

// `t:wait()`.
pub(crate) fn wait(heap: &Heap, args: &[Value]) -> Result<Called, Cause>
    requires { AreMade heap.now args.now }
    ensures comes { Comes heap.now heap.now
        (meaning.ask_thread Question.wait_for (values_of heap.now args.now)) result }
    ensures made { MakesCalled heap.now result }
{
    let thread = thread_argument(heap, args, 0)?;
    Ok(asks(Ask::WaitFor(thread)))
}

// `t:isRunning()`.
pub(crate) fn is_running(heap: &Heap, args: &[Value]) -> Result<Called, Cause>
    requires { AreMade heap.now args.now }
    ensures comes { Comes heap.now heap.now
        (meaning.ask_thread Question.is_running (values_of heap.now args.now)) result }
    ensures made { MakesCalled heap.now result }
{
    let thread = thread_argument(heap, args, 0)?;
    Ok(asks(Ask::IsRunning(thread)))
}

// `t:getError()`.
pub(crate) fn get_error(heap: &Heap, args: &[Value]) -> Result<Called, Cause>
    requires { AreMade heap.now args.now }
    ensures comes { Comes heap.now heap.now
        (meaning.ask_thread Question.error_of (values_of heap.now args.now)) result }
    ensures made { MakesCalled heap.now result }
{
    let thread = thread_argument(heap, args, 0)?;
    Ok(asks(Ask::ErrorOf(thread)))
}

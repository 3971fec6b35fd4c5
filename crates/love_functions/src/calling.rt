//! The functions by their names.

ghost use Rattle.std.specs.Prelude.{◌≡◌, IfOk, IsTrue, IsFalse, Err};
ghost use Rattle.lua_heap.specs.Heap.{Extends};
ghost use Rattle.lua_heap.specs.Native.{native_view};
ghost use Rattle.lua_lib.specs.declared.call.cause.LibFault.TheVariants.{Elsewhere};
ghost use Rattle.lua_lib.specs.Causes.{AreMade, values_of};
ghost use Rattle.love_functions.specs.Asking.{is_here, part_of};
ghost use Rattle.love_functions.specs.View.{Calls, CalledIf, IsMadeCalled, files_view, here};

use crate::channels::asks;
use crate::{Called, Errand, channels, events, files, threads};
use lua_code::File;
use lua_heap::{Heap, Native, Value};
use lua_lib::call::{Cause, LibFault};
use std::alloc::Global;
use variant::Ask;

/// What a function of LÖVE comes to on these arguments, in the state of a number that runs a game of
/// these files.
///
/// # Errors
///
/// [`LibFault::Fails`] with the error of an argument, or of a text that is too long for a string.
/// An error that the definition has leaves tables, cells, metatables and Data as they were. Want of
/// memory is a cause that no definition has.
///
/// [`LibFault::Elsewhere`] where the function isn't one of this crate. The heap is then as it was.
pub fn call(
    alloc: Global,
    heap: &mut Heap,
    files: &[File],
    state: u32,
    native: Native,
    args: &[Value],
) -> Result<Called, LibFault>
    requires { AreMade heap.old args.now }
    ensures calls { IsTrue (is_here (native_view native)) → Calls heap.old heap.new
        (part_of (files_view files.now) state (native_view native) (values_of heap.old args.now))
        result }
    ensures elsewhere { IsFalse (is_here (native_view native)) → result ≡ Err Elsewhere }
    ensures untouched { IsFalse (is_here (native_view native)) → heap.new ≡ heap.old }
    ensures made { IfOk result (IsMadeCalled heap.new) }
    ensures extends { Extends heap.old heap.new }
    ensures functions { heap.new.functions ≡ heap.old.functions }
{
    given(alloc, heap, files, state, native, args)
}

// The same, as one fact: what a function that is here comes to, or that it isn't.
fn given(
    alloc: Global,
    heap: &mut Heap,
    files: &[File],
    state: u32,
    native: Native,
    args: &[Value],
) -> Result<Called, LibFault>
    requires { AreMade heap.old args.now }
    ensures { CalledIf (is_here (native_view native)) heap.old heap.new
        (part_of (files_view files.now) state (native_view native) (values_of heap.old args.now))
        result }
{
    match native {
        Native::LoveFilesystemRead => here(files::read(alloc, heap, files, args)),
        Native::LoveFilesystemNewFileData => here(files::new_file_data(alloc, heap, files, args)),
        Native::LoveThreadGetChannel => here(channels::get_channel(alloc, heap, args)),
        Native::LoveThreadNewChannel => Ok(asks(Ask::NewChannel)),
        Native::LoveThreadNewThread => here(threads::new_thread(alloc, heap, files, args)),
        Native::LoveEventPush => here(events::push_event(alloc, heap, args)),
        Native::LoveEventQuit => here(events::quit(alloc, heap, args)),
        Native::LoveEventPoll => here(events::poll(alloc)),
        Native::PollWalk => here(events::by_main(alloc, state, Errand::GivesValues)),
        Native::LoveEventClear => here(events::by_main(alloc, state, Errand::Clears)),
        Native::ChannelPush => here(channels::push(alloc, heap, args)),
        Native::ChannelSupply => here(channels::supply(alloc, heap, args)),
        Native::ChannelPop => here(channels::pop(heap, args)),
        Native::ChannelPeek => here(channels::peek(heap, args)),
        Native::ChannelDemand => here(channels::demand(heap, args)),
        Native::ChannelGetCount => here(channels::get_count(heap, args)),
        Native::ChannelHasRead => here(channels::has_read(heap, args)),
        Native::ChannelClear => here(channels::clear(heap, args)),
        Native::ChannelPerformAtomic => here(channels::perform_atomic(alloc, heap, args)),
        Native::ThreadStart => here(threads::start(alloc, heap, args)),
        Native::ThreadWait => here(threads::wait(heap, args)),
        Native::ThreadIsRunning => here(threads::is_running(heap, args)),
        Native::ThreadGetError => here(threads::get_error(heap, args)),
        _ => Err(LibFault::Elsewhere),
    }
}

// What a function that is here came to.
fn here(called: Result<Called, Cause>) -> Result<Called, LibFault>
    ensures { result ≡ here called }
{
    match called {
        Ok(called) => Ok(called),
        Err(cause) => Err(LibFault::Fails(cause)),
    }
}

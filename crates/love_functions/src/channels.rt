//! `love.thread` and Channels (LÖVE wiki, `love.thread`, `Channel`).

ghost use Rattle.std.specs.Prelude.{◌≡◌};
ghost use Rattle.lua_meaning.specs.Message.{Ask as Question};
ghost use Rattle.lua_meaning.specs.MessageView.{message_view};
ghost use Rattle.lua_lib.specs.Causes.{AreMade, values_of};
ghost use Rattle.love_functions.specs.Asking as meaning;
ghost use Rattle.love_functions.specs.View.{Comes, MakesCalled};
ghost use Rattle.love_functions.specs.declared.errand.Called.{Called};
ghost use Rattle.love_functions.specs.declared.errand.Errand.{Errand};

use crate::arguments::{behind_two, limit_argument};
use crate::refusing::unsent;
use crate::{Called, Errand};
use crossing::pack;
use itoa::Buffer;
use love_base::{ChannelNo, Text};
use lua_heap::{Heap, Value};
use lua_lib::call::Cause;
use lua_lib::call::arguments::{
    argument, channel_argument, function_argument, number_argument, text_argument,
};
use std::alloc::Global;
use variant::{Ask, Variant};

// An ask whose values are the call's.
pub(crate) fn asks(ask: Ask) -> Called
    ensures { result ≡ Called.Asks ask Errand.GivesValues }
{
    Called::Asks(ask, Errand::GivesValues)
}

// `love.thread.getChannel(name)`.
pub(crate) fn get_channel(alloc: Global, heap: &Heap, args: &[Value]) -> Result<Called, Cause>
    requires { AreMade heap.now args.now }
    ensures comes { Comes heap.now heap.now
        (meaning.get_channel (values_of heap.now args.now)) result }
    ensures made { MakesCalled heap.now result }
{
    let mut digits = Buffer::new();
    let name = text_argument(heap, args, 0, &mut digits)?;
    let name = Text::of(alloc, name)?;
    Ok(asks(Ask::Name(name)))
}

// `c:push(v)` into a Channel.
fn push_into(
    alloc: Global,
    heap: &Heap,
    args: &[Value],
    channel: ChannelNo,
) -> Result<Called, Cause>
    requires { AreMade heap.now args.now }
    ensures comes { Comes heap.now heap.now
        (meaning.push_into channel (values_of heap.now args.now)) result }
    ensures made { MakesCalled heap.now result }
{
    match pack(alloc, heap, argument(args, 1)) {
        Ok(message) => Ok(asks(Ask::Push(channel, message))),
        Err(fault) => unsent(alloc, fault),
    }
}

// `c:push(v)`.
pub(crate) fn push(alloc: Global, heap: &Heap, args: &[Value]) -> Result<Called, Cause>
    requires { AreMade heap.now args.now }
    ensures comes { Comes heap.now heap.now (meaning.push (values_of heap.now args.now)) result }
    ensures made { MakesCalled heap.now result }
{
    let channel = channel_argument(heap, args, 0)?;
    push_into(alloc, heap, args, channel)
}

// `c:supply(v, seconds)` of a message into a Channel.
fn supply_message(
    heap: &Heap,
    args: &[Value],
    channel: ChannelNo,
    message: Variant,
) -> Result<Called, Cause>
    requires { AreMade heap.now args.now }
    ensures comes { Comes heap.now heap.now (meaning.supply_message channel
        (values_of heap.now args.now) (message_view message)) result }
    ensures made { MakesCalled heap.now result }
{
    let limit = limit_argument(heap, args, 2)?;
    let errand = Errand::Awaits(channel, limit);
    Ok(Called::Asks(Ask::Supply(channel, message), errand))
}

// `c:supply(v, seconds)` into a Channel.
fn supply_into(
    alloc: Global,
    heap: &Heap,
    args: &[Value],
    channel: ChannelNo,
) -> Result<Called, Cause>
    requires { AreMade heap.now args.now }
    ensures comes { Comes heap.now heap.now
        (meaning.supply_into channel (values_of heap.now args.now)) result }
    ensures made { MakesCalled heap.now result }
{
    match pack(alloc, heap, argument(args, 1)) {
        Ok(message) => supply_message(heap, args, channel, message),
        Err(fault) => unsent(alloc, fault),
    }
}

// `c:supply(v, seconds)`.
pub(crate) fn supply(alloc: Global, heap: &Heap, args: &[Value]) -> Result<Called, Cause>
    requires { AreMade heap.now args.now }
    ensures comes { Comes heap.now heap.now (meaning.supply (values_of heap.now args.now)) result }
    ensures made { MakesCalled heap.now result }
{
    let channel = channel_argument(heap, args, 0)?;
    supply_into(alloc, heap, args, channel)
}

// `c:demand(seconds)`.
pub(crate) fn demand(heap: &Heap, args: &[Value]) -> Result<Called, Cause>
    requires { AreMade heap.now args.now }
    ensures comes { Comes heap.now heap.now (meaning.demand (values_of heap.now args.now)) result }
    ensures made { MakesCalled heap.now result }
{
    let channel = channel_argument(heap, args, 0)?;
    let limit = limit_argument(heap, args, 1)?;
    Ok(asks(Ask::Demand(channel, limit)))
}

// `c:hasRead(id)`.
pub(crate) fn has_read(heap: &Heap, args: &[Value]) -> Result<Called, Cause>
    requires { AreMade heap.now args.now }
    ensures comes { Comes heap.now heap.now
        (meaning.has_read (values_of heap.now args.now)) result }
    ensures made { MakesCalled heap.now result }
{
    let channel = channel_argument(heap, args, 0)?;
    let id = number_argument(heap, args, 1)?;
    Ok(asks(Ask::HasRead(channel, id)))
}

// `c:performAtomic(f, ..)`.
pub(crate) fn perform_atomic(alloc: Global, heap: &Heap, args: &[Value]) -> Result<Called, Cause>
    requires { AreMade heap.now args.now }
    ensures comes { Comes heap.now heap.now
        (meaning.perform_atomic (values_of heap.now args.now)) result }
    ensures made { MakesCalled heap.now result }
{
    let channel = channel_argument(heap, args, 0)?;
    let function = function_argument(heap, args, 1)?;
    let rest = behind_two(alloc, args)?;
    let errand = Errand::Enters(channel, function, rest);
    Ok(Called::Asks(Ask::Enter(channel), errand))
}

// `c:pop()`.
pub(crate) fn pop(heap: &Heap, args: &[Value]) -> Result<Called, Cause>
    requires { AreMade heap.now args.now }
    ensures comes { Comes heap.now heap.now
        (meaning.ask_channel Question.pop (values_of heap.now args.now)) result }
    ensures made { MakesCalled heap.now result }
{
    let channel = channel_argument(heap, args, 0)?;
    Ok(asks(Ask::Pop(channel)))
}

// `c:peek()`.
pub(crate) fn peek(heap: &Heap, args: &[Value]) -> Result<Called, Cause>
    requires { AreMade heap.now args.now }
    ensures comes { Comes heap.now heap.now
        (meaning.ask_channel Question.peek (values_of heap.now args.now)) result }
    ensures made { MakesCalled heap.now result }
{
    let channel = channel_argument(heap, args, 0)?;
    Ok(asks(Ask::Peek(channel)))
}

// `c:getCount()`.
pub(crate) fn get_count(heap: &Heap, args: &[Value]) -> Result<Called, Cause>
    requires { AreMade heap.now args.now }
    ensures comes { Comes heap.now heap.now
        (meaning.ask_channel Question.count (values_of heap.now args.now)) result }
    ensures made { MakesCalled heap.now result }
{
    let channel = channel_argument(heap, args, 0)?;
    Ok(asks(Ask::Count(channel)))
}

// `c:clear()`.
pub(crate) fn clear(heap: &Heap, args: &[Value]) -> Result<Called, Cause>
    requires { AreMade heap.now args.now }
    ensures comes { Comes heap.now heap.now
        (meaning.ask_channel Question.clear (values_of heap.now args.now)) result }
    ensures made { MakesCalled heap.now result }
{
    let channel = channel_argument(heap, args, 0)?;
    Ok(asks(Ask::Clear(channel)))
}

//! `love.event` (LÖVE wiki, `love.event`).

ghost use Rattle.std.specs.Prelude.{◌∷◌, []};
ghost use Rattle.lua_meaning.specs.Native.{Native as Named};
ghost use Rattle.lua_meaning.specs.Value.{native};
ghost use Rattle.lua_heap.specs.Heap.{HeapView};
ghost use Rattle.lua_lib.specs.Causes.{AreMade, values_of};
ghost use Rattle.love_functions.specs.Asking as meaning;
ghost use Rattle.love_functions.specs.View.{Comes, IsMadeErrand, MakesCalled, errand_view};

use crate::arguments::{behind_one, status_argument};
use crate::files::gives;
use crate::refusing::{refused, unsent};
use crate::{Called, Errand};
use crossing::pack_all;
use itoa::Buffer;
use love_base::{List, Text};
use lua_heap::{Heap, Native, Value};
use lua_lib::call::Cause;
use lua_lib::call::arguments::text_argument;
use std::alloc::Global;
use variant::{Ask, Variant};

// `love.event.push(name, ..)` of a name.
fn push_event_of(alloc: Global, heap: &Heap, args: &[Value], name: Text) -> Result<Called, Cause>
    requires { AreMade heap.now args.now }
    ensures comes { Comes heap.now heap.now
        (meaning.push_event_of (values_of heap.now args.now) name) result }
    ensures made { MakesCalled heap.now result }
{
    match pack_all(alloc, heap, behind_one(args)) {
        Ok(messages) => Ok(Called::Asks(Ask::EventPush(name, messages), Errand::GivesTrue)),
        Err(fault) => unsent(alloc, fault),
    }
}

// `love.event.push(name, ..)`.
pub(crate) fn push_event(alloc: Global, heap: &Heap, args: &[Value]) -> Result<Called, Cause>
    requires { AreMade heap.now args.now }
    ensures comes { Comes heap.now heap.now
        (meaning.push_event (values_of heap.now args.now)) result }
    ensures made { MakesCalled heap.now result }
{
    let mut digits = Buffer::new();
    let name = text_argument(heap, args, 0, &mut digits)?;
    let name = Text::of(alloc, name)?;
    push_event_of(alloc, heap, args, name)
}

// `love.event.quit(status)`.
pub(crate) fn quit(alloc: Global, heap: &Heap, args: &[Value]) -> Result<Called, Cause>
    requires { AreMade heap.now args.now }
    ensures comes { Comes heap.now heap.now (meaning.quit (values_of heap.now args.now)) result }
    ensures made { MakesCalled heap.now result }
{
    let status = status_argument(heap, args, 0)?;
    let name = Text::of(alloc, b"quit")?;
    let mut values = Vec::new(alloc);
    values.push(Variant::Num(status))?;
    let ask = Ask::EventPush(name, List::from_vec(values));
    Ok(Called::Asks(ask, Errand::GivesTrue))
}

// `love.event.poll()`: what walks the events.
pub(crate) fn poll(alloc: Global) -> Result<Called, Cause>
    ensures comes { (h : HeapView) → Comes h h
        (meaning.giving (native Named.poll_walk ∷ [])) result }
    ensures made { (h : HeapView) → MakesCalled h result }
{
    let called = gives(alloc, &[Value::Native(Native::PollWalk)])?;
    Ok(called)
}

// An ask for the next event, which the main state alone may have.
pub(crate) fn by_main(alloc: Global, state: u32, errand: Errand) -> Result<Called, Cause>
    ensures comes { (h : HeapView) → Comes h h
        (meaning.by_main state (errand_view h errand)) result }
    ensures made { (h : HeapView) → IsMadeErrand h errand → MakesCalled h result }
{
    if state == 0 {
        return Ok(Called::Asks(Ask::EventPoll, errand));
    }
    refused(alloc, b"events are polled by the main state")
}

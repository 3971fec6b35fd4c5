//! The values of replies.

ghost use Rattle.std.specs.Prelude.{◌≡◌, map, pos, IfOk};
ghost use Rattle.lua_meaning.specs.Message.{Event as Happening, Reply as Answer};
ghost use Rattle.lua_meaning.specs.MessageView.{message_view, event_view, reply_view};
ghost use Rattle.lua_meaning.specs.Fault.{refusal_text};
ghost use Rattle.lua_heap.specs.Heap.{Extends};
ghost use Rattle.love_functions.specs.Replying.{event_part, reply_part};
ghost use Rattle.love_functions.specs.View.{IsReply, IsText};

use crate::Called;
use crate::files::gives;
use crate::refusing::copied;
use crossing::{unpack, unpack_all};
use itoa::Buffer;
use love_base::{List, Memory, Text};
use lua_heap::{Heap, Value};
use lua_value::Num;
use std::alloc::Global;
use variant::{Event, Refusal, Reply, Variant};

// A number of 32 bits.
fn number(n: u32) -> Value
    ensures { result ≡ Value.Num (pos n) }
{
    Value::Num(Num::new(n as i64).unwrap())
}

// A text as a value.
fn text(heap: &mut Heap, text: &[u8]) -> Result<Value, Memory>
    ensures is { IfOk result (IsText text.now heap.old heap.new) }
    ensures extends { Extends heap.old heap.new }
    ensures functions { heap.new.functions ≡ heap.old.functions }
{
    let id = heap.intern(text)?;
    Ok(Value::Str(id))
}

// What a refusal says.
fn refusal_text(alloc: Global, refusal: Refusal) -> Result<Vec<u8>, Memory>
    ensures { IfOk result (λ text. text.items ≡ refusal_text refusal) }
{
    match refusal {
        Refusal::Full => copied(alloc, b"channel is full"),
        Refusal::WouldWaitInside => copied(alloc, b"would wait inside its own performAtomic"),
        Refusal::TooManyChannels => copied(alloc, b"too many channels"),
        Refusal::TooManyThreads => copied(alloc, b"too many threads"),
        Refusal::TooManyRunning(running) => {
            let mut text = Vec::from_slice(alloc, b"too many threads are running: ")?;
            text.extend_from_slice(Buffer::new().format(running).as_bytes())?;
            Ok(text)
        }
        Refusal::TooManyStarts => copied(alloc, b"too many starts"),
        Refusal::GameEnded(_) => copied(alloc, b"the game has ended"),
    }
}

// The values of an event that a state pushed: its name, and what came with it.
fn user_values(
    alloc: Global,
    heap: &mut Heap,
    name: &Text,
    args: &List<Variant>,
) -> Result<Called, Memory>
    ensures is { IfOk result (IsReply (event_part
        (Happening.user name.now (map message_view args.now))) heap.old heap.new) }
    ensures extends { Extends heap.old heap.new }
    ensures functions { heap.new.functions ≡ heap.old.functions }
{
    let name = text(heap, name.bytes())?;
    let mut values = Vec::from_slice(alloc, &[name])?;
    let rest = unpack_all(alloc, heap, args)?;
    values.extend_from_slice(&rest)?;
    Ok(Called::Gives(values))
}

// The values that tell of a Thread's error.
fn error_values(alloc: Global, heap: &mut Heap, thread: u32, error: &Text) -> Result<Called, Memory>
    ensures is { IfOk result (IsReply (event_part (Happening.thread_error thread error.now))
        heap.old heap.new) }
    ensures extends { Extends heap.old heap.new }
    ensures functions { heap.new.functions ≡ heap.old.functions }
{
    let name = text(heap, b"threaderror")?;
    let error = text(heap, error.bytes())?;
    gives(alloc, &[name, Value::Thread(thread), error])
}

// The values of an event.
fn event_values(alloc: Global, heap: &mut Heap, event: &Event) -> Result<Called, Memory>
    ensures is { IfOk result (IsReply (event_part (event_view event.now)) heap.old heap.new) }
    ensures extends { Extends heap.old heap.new }
    ensures functions { heap.new.functions ≡ heap.old.functions }
{
    match event {
        Event::User { name, args } => user_values(alloc, heap, name, args),
        Event::ThreadError { thread, text } => error_values(alloc, heap, *thread, text),
    }
}

// A message's value.
fn message_value(alloc: Global, heap: &mut Heap, message: &Variant) -> Result<Called, Memory>
    ensures is { IfOk result (IsReply (reply_part (Answer.value (message_view message.now)))
        heap.old heap.new) }
    ensures extends { Extends heap.old heap.new }
    ensures functions { heap.new.functions ≡ heap.old.functions }
{
    let value = unpack(heap, message)?;
    gives(alloc, &[value])
}

// A text.
fn words(alloc: Global, heap: &mut Heap, words: &Text) -> Result<Called, Memory>
    ensures is { IfOk result (IsReply (reply_part (Answer.words words.now)) heap.old heap.new) }
    ensures extends { Extends heap.old heap.new }
    ensures functions { heap.new.functions ≡ heap.old.functions }
{
    let value = text(heap, words.bytes())?;
    gives(alloc, &[value])
}

/// What a reply gives a call that asked: its values, or the error of a refusal. The heap gets the
/// tables and the Data of a message.
///
/// # Errors
///
/// [`Memory`] where there is no room for the values. The heap may then hold new objects that nothing
/// names.
pub fn given(alloc: Global, heap: &mut Heap, reply: &Reply) -> Result<Called, Memory>
    ensures is { IfOk result (IsReply (reply_part (reply_view reply.now)) heap.old heap.new) }
    ensures extends { Extends heap.old heap.new }
    ensures functions { heap.new.functions ≡ heap.old.functions }
{
    match reply {
        Reply::Done => gives(alloc, &[]),
        Reply::Nothing => gives(alloc, &[Value::Nil]),
        Reply::Flag(flag) => gives(alloc, &[Value::Bool(*flag)]),
        Reply::Id(id) => gives(alloc, &[number(*id)]),
        Reply::Number(n) => gives(alloc, &[number(*n)]),
        Reply::Value(message) => message_value(alloc, heap, message),
        Reply::Channel(channel) => gives(alloc, &[Value::Channel(*channel)]),
        Reply::Thread(thread) => gives(alloc, &[Value::Thread(*thread)]),
        Reply::Words(text) => words(alloc, heap, text),
        Reply::Event(sent) => event_values(alloc, heap, &sent.event),
        Reply::Refused(refusal) => {
            let text = refusal_text(alloc, *refusal)?;
            Ok(Called::Refuses(text))
        }
    }
}

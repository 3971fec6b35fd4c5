//! Asks about events.
ghost use Rattle.std.specs.Prelude.{◌≡◌, ℕ, IfOk, OnErr};
ghost use Rattle.variant.specs.declared.ask.Ask.TheVariants.{EventPoll as AskPoll};
ghost use Rattle.lua_state.specs.Answered.{AnswersByEvents, IsEventAsk};

use crate::answer::{Answer, only, twice};
use love_base::Memory;
use std::alloc::Global;
use std::collections::VecDeque;
use variant::{Ask, Event, Reply, Sent, copy_all};

// An equal event.
fn copy_sent(alloc: Global, sent: &Sent) -> Result<Sent, Memory>
    ensures { IfOk result (λ copy. copy ≡ sent.now) }
{
    let event = match &sent.event {
        Event::User { name, args } => Event::User {
            name: name.copy(alloc)?,
            args: copy_all(alloc, args)?,
        },
        Event::ThreadError { thread, text } => Event::ThreadError {
            thread: *thread,
            text: text.copy(alloc)?,
        },
    };
    Ok(Sent {
        from: sent.from,
        number: sent.number,
        event,
    })
}

// The oldest event is taken, if there is one.
fn poll(alloc: Global, events: &mut VecDeque<Sent>) -> Result<Answer, Memory>
    ensures answer { IfOk result (λ a. (number : ℕ) →
        AnswersByEvents AskPoll number events.old.items events.new.items a) }
    ensures unchanged { OnErr result (events.new.items ≡ events.old.items) }
{
    let copy = match events.front() {
        Some(sent) => copy_sent(alloc, sent)?,
        None => return Ok(twice(only(Reply::Nothing), None)),
    };
    let Some(sent) = events.pop_front() else {
        unreachable!()
    };
    Ok(Answer {
        reply: Reply::Event(sent),
        copy: Reply::Event(copy),
        changed: false,
    })
}

// What an ask about events comes to, which are sent by the action of this number.
pub(crate) fn at_events(
    alloc: Global,
    events: &mut VecDeque<Sent>,
    number: u32,
    ask: &Ask,
) -> Result<Answer, Memory>
    requires { IsEventAsk ask.now }
    ensures answer { IfOk result (λ a.
        AnswersByEvents ask.now number events.old.items events.new.items a) }
    ensures unchanged { OnErr result (events.new.items ≡ events.old.items) }
{
    match ask {
        Ask::EventPush(name, args) => {
            let name = name.copy(alloc)?;
            let args = copy_all(alloc, args)?;
            events.push_back(Sent {
                from: 0,
                number,
                event: Event::User { name, args },
            })?;
            Ok(twice(only(Reply::Done), None))
        }
        Ask::EventPoll => poll(alloc, events),
        _ => unreachable!(),
    }
}

ghost use Rattle.std.specs.Prelude.{◌≡◌, [], ◌∷◌, ◌++◌};
ghost use Rattle.variant.specs.Log.{HasPlace, MayFollow, UsesRoom};
ghost use Rattle.variant.specs.declared.action.Action.{Action};

use crate::{Action, Ask, Deed, EndKind, Reply, Source, StateLog, Variant, copy_all, fits};
use love_base::{ChannelNo, Data, List, Memory, Text};
use lua_value::Num;
use std::alloc::Global;
use std::test::Fail;

// A message of a table whose one value is a table of one pair.
fn nested(alloc: Global) -> Result<Variant, Memory> {
    let mut inner = Vec::new(alloc);
    inner.push((
        Variant::Bool(true),
        Variant::Bytes(Text::of(alloc, b"deep")?),
    ))?;
    let mut outer = Vec::new(alloc);
    outer.push((Variant::Bool(false), Variant::Table(List::from_vec(inner))))?;
    Ok(Variant::Table(List::from_vec(outer)))
}

// The text in the table in this table.
fn deep_text(message: &Variant) -> Option<&[u8]> {
    let Variant::Table(outer) = message else {
        return None;
    };
    let (_, Variant::Table(inner)) = outer.get(0)? else {
        return None;
    };
    match inner.get(0)? {
        (Variant::Bool(true), Variant::Bytes(text)) => Some(text.bytes()),
        _ => None,
    }
}

// Whether a message of one of the kinds that hold no other message is the other one.
fn is_same(left: &Variant, right: &Variant) -> bool {
    match (left, right) {
        (Variant::Nil, Variant::Nil) => true,
        (Variant::Bool(left), Variant::Bool(right)) => left == right,
        (Variant::Num(left), Variant::Num(right)) => left == right,
        (Variant::Bytes(left), Variant::Bytes(right)) => left == right,
        (Variant::Data(left), Variant::Data(right)) => left.bytes() == right.bytes(),
        (Variant::Channel(left), Variant::Channel(right)) => left == right,
        _ => false,
    }
}

// Whether the copy of a message is the message.
fn copies(alloc: Global, message: Variant) -> Result<bool, Memory> {
    let copy = message.copy(alloc)?;
    Ok(is_same(&copy, &message))
}

#[test]
fn a_small_message_is_copied(rt: HostRuntime) -> Result<(), Fail> {
    let number = Num::new(-7).ok_or("in the range")?;
    let channel = ChannelNo::new(3).ok_or("in the range")?;
    assert!(rt; copies(rt.alloc(), Variant::Nil)?);
    assert!(rt; copies(rt.alloc(), Variant::Bool(true))?);
    assert!(rt; copies(rt.alloc(), Variant::Num(number))?);
    assert!(rt; copies(rt.alloc(), Variant::Channel(channel))?);
    Ok(())
}

#[test]
fn bytes_are_copied(rt: HostRuntime) -> Result<(), Fail> {
    let text = Text::of(rt.alloc(), b"text")?;
    assert!(rt; copies(rt.alloc(), Variant::Bytes(text))?);
    let data = Data::new(rt.alloc(), b"bytes", None)?;
    assert!(rt; copies(rt.alloc(), Variant::Data(data))?);
    Ok(())
}

#[test]
fn a_table_is_copied_with_what_is_in_it(rt: HostRuntime) -> Result<(), Fail> {
    let copy = nested(rt.alloc())?.copy(rt.alloc())?;
    assert!(rt; deep_text(&copy) == Some(b"deep".as_slice()));
    Ok(())
}

#[test]
fn all_messages_are_copied(rt: HostRuntime) -> Result<(), Fail> {
    let messages = vec![in rt.alloc(); Variant::Bool(true), Variant::Nil]?;
    let copies = copy_all(rt.alloc(), &List::from_vec(messages))?;
    assert!(rt; copies.len() == 2);
    Ok(())
}

// Whether the copy of a source of code is that code.
fn copies_code(alloc: Global, code: &[u8]) -> Result<bool, Memory> {
    let source = Source::Code(Text::of(alloc, code)?);
    match source.copy(alloc)? {
        Source::Code(text) => Ok(text.bytes() == code),
        _ => Ok(false),
    }
}

#[test]
fn a_source_is_copied(rt: HostRuntime) -> Result<(), Fail> {
    assert!(rt; copies_code(rt.alloc(), b"return")?);
    Ok(())
}

// Puts an action of this number and deed.
fn put(log: &mut StateLog, number: u32, deed: Deed)
    requires place { HasPlace deed log.old.spare }
    requires order { MayFollow log.old.actions deed }
    ensures actions { (action : Action) × (action.deed ≡ deed)
        × (log.new.actions ≡ log.old.actions ++ action ∷ []) }
    ensures room { UsesRoom deed log.old.spare log.new.spare }
{
    log.put(Action {
        number,
        object: 0,
        place: 0,
        changed: false,
        deed,
        reply: Reply::Done,
        readings: None,
    });
}

// A log of one asked action.
fn asked_log(alloc: Global) -> Result<StateLog, Memory> {
    let mut log = StateLog::new(alloc);
    log.room(2)?;
    put(&mut log, 1, Deed::Asked(Ask::NewChannel));
    Ok(log)
}

// A log of the first action, for which no room was taken.
fn begun_log(alloc: Global) -> StateLog {
    let mut log = StateLog::new(alloc);
    put(&mut log, 1, Deed::Begin);
    log
}

fn number_at(log: &StateLog, at: usize) -> Option<u32> {
    Some(log.get(at)?.number)
}

// Whether the log tells one action, the one of number 1.
fn holds_one(log: &StateLog) -> bool {
    log.len() == 1
        && !log.is_empty()
        && number_at(log, 0) == Some(1)
        && number_at(log, 1).is_none()
        && number_at(log, usize::MAX).is_none()
}

#[test]
fn a_new_log_is_empty(rt: HostRuntime) {
    assert!(rt; StateLog::new(rt.alloc()).is_empty());
}

#[test]
fn a_log_holds_what_was_asked(rt: HostRuntime) -> Result<(), Fail> {
    assert!(rt; holds_one(&asked_log(rt.alloc())?));
    Ok(())
}

#[test]
fn a_log_holds_the_first_action(rt: HostRuntime) {
    assert!(rt; holds_one(&begun_log(rt.alloc())));
}

#[test]
fn texts_of_ends_and_fitting_replies(rt: HostRuntime) {
    let rows = [
        (EndKind::Done(None), None),
        (EndKind::OutOfSteps, Some(b"out of steps".as_slice())),
        (EndKind::Memory, Some(b"out of memory")),
        (EndKind::Stopped, None),
    ];
    for (end, text) in rows {
        assert_eq!(rt; end.text(), text);
    }
    assert!(rt; fits(&Ask::EventPoll, &Reply::Nothing));
    assert!(rt; !fits(&Ask::EventPoll, &Reply::Done));
}

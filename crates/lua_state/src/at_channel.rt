//! Asks about a Channel.
ghost use Rattle.std.specs.Prelude.{◌≡◌, ℕ, Ok, Option as Maybe, IfOk};
ghost use Rattle.variant.specs.declared.ask.Ask.TheVariants.{Await as AskAwait, Count as AskCount, Demand as AskDemand, HasRead as AskHasRead, Leave as AskLeave};
ghost use Rattle.variant.specs.declared.action.Deed.TheVariants.{Asked};
ghost use Rattle.channel_core.specs.History.{front};
ghost use Rattle.channel_desk.specs.Deeds.{Comes, IsPlaced, message_of};
ghost use Rattle.lua_state.specs.Answered.{AnswersAt, GivesAt, IsChannelAsk, IsFrontFor};

use crate::answer::{Answer, only, twice};
use channel_core::Channel;
use channel_desk::{Given, answer_ask};
use love_base::{ChannelNo, Memory, Stamp};
use lua_value::Num;
use std::alloc::Global;
use variant::{Ask, Refusal, Reply, Variant};

fn count(channel: &Channel, by: Stamp, depth: u32) -> Given
    requires { IsPlaced channel.now by depth }
    ensures { (number : ℕ) →
        Comes (Asked (AskCount number)) by depth channel.now channel.now result }
{
    only(Reply::Number(channel.count()))
}

fn has_read(channel: &Channel, by: Stamp, depth: u32, id: Num) -> Given
    requires { IsPlaced channel.now by depth }
    ensures { (number : ℕ) →
        Comes (Asked (AskHasRead number id)) by depth channel.now channel.now result }
{
    only(Reply::Flag(channel.has_read(id.get())))
}

// A message that is waited for where none is there, but not inside the state's own section.
fn demand(
    alloc: Global,
    channel: &mut Channel,
    by: Stamp,
    depth: u32,
    number: ChannelNo,
) -> Result<Option<Given>, Memory>
    requires { IsPlaced channel.old by depth }
    ensures { (limit : Maybe ℕ) →
        GivesAt (AskDemand number limit) by depth channel.old channel.new result }
{
    if channel.peek().is_some() {
        let given = answer_ask(alloc, channel, by, &Ask::Pop(number), depth, None)?;
        return Ok(Some(given));
    }
    if depth > 0 {
        return Ok(Some(only(Reply::Refused(Refusal::WouldWaitInside))));
    }
    Ok(None)
}

// Whether a message was received, which is waited for.
fn await_read(channel: &Channel, by: Stamp, depth: u32, id: u32) -> Option<Given>
    requires { IsPlaced channel.now by depth }
    ensures { (number : ℕ) (limit : Maybe ℕ) →
        GivesAt (AskAwait number id limit) by depth channel.now channel.now (Ok result) }
{
    if id <= channel.received() {
        return Some(only(Reply::Flag(true)));
    }
    None
}

// The end of a section, where one is open.
fn leave(
    alloc: Global,
    channel: &mut Channel,
    by: Stamp,
    depth: u32,
    number: ChannelNo,
) -> Result<Option<Given>, Memory>
    requires { IsPlaced channel.old by depth }
    ensures { GivesAt (AskLeave number) by depth channel.old channel.new result }
{
    if depth == 0 {
        return Ok(None);
    }
    let given = answer_ask(alloc, channel, by, &Ask::Leave(number), depth, None)?;
    Ok(Some(given))
}

// The message that an ask sends.
fn message_by(alloc: Global, ask: &Ask) -> Result<Option<Variant>, Memory>
    ensures { IfOk result (λ message. message ≡ message_of ask.now) }
{
    match ask {
        Ask::Push(_, message) | Ask::Supply(_, message) => Ok(Some(message.copy(alloc)?)),
        _ => Ok(None),
    }
}

// What an ask comes to at its Channel.
fn given_at(
    alloc: Global,
    channel: &mut Channel,
    by: Stamp,
    depth: u32,
    ask: &Ask,
) -> Result<Option<Given>, Memory>
    requires placed { IsPlaced channel.old by depth }
    requires ask { IsChannelAsk ask.now }
    ensures { GivesAt ask.now by depth channel.old channel.new result }
{
    match ask {
        Ask::Count(_) => Ok(Some(count(channel, by, depth))),
        Ask::HasRead(_, id) => Ok(Some(has_read(channel, by, depth, *id))),
        Ask::Demand(number, _) => demand(alloc, channel, by, depth, *number),
        Ask::Await(_, id, _) => Ok(await_read(channel, by, depth, *id)),
        Ask::Leave(number) => leave(alloc, channel, by, depth, *number),
        _ => {
            let message = message_by(alloc, ask)?;
            Ok(Some(answer_ask(alloc, channel, by, ask, depth, message)?))
        }
    }
}

// The message that has waited longest, where there is one.
fn front_of(alloc: Global, channel: &Channel) -> Result<Option<Variant>, Memory>
    ensures { IfOk result (λ found. found ≡ front channel.now) }
{
    match channel.peek() {
        Some(message) => Ok(Some(message.copy(alloc)?)),
        None => Ok(None),
    }
}

// The message that an ask may be replied.
fn front_for(alloc: Global, channel: &Channel, ask: &Ask) -> Result<Option<Variant>, Memory>
    ensures { IfOk result (λ found. IsFrontFor ask.now found (front channel.now)) }
{
    match ask {
        Ask::Pop(_) | Ask::Peek(_) | Ask::Demand(..) => front_of(alloc, channel),
        _ => Ok(None),
    }
}

// What an ask of a state comes to at its Channel, on which the state has so many sections open. The
// message that it is replied is copied first, so that want of memory changes nothing.
pub(crate) fn at_channel(
    alloc: Global,
    channel: &mut Channel,
    by: Stamp,
    depth: u32,
    ask: &Ask,
) -> Result<Option<Answer>, Memory>
    requires placed { IsPlaced channel.old by depth }
    requires ask { IsChannelAsk ask.now }
    ensures { AnswersAt ask.now by depth channel.old channel.new result }
{
    let front = front_for(alloc, channel, ask)?;
    match given_at(alloc, channel, by, depth, ask)? {
        Some(given) => Ok(Some(twice(given, front))),
        None => Ok(None),
    }
}

//! The deeds of a state at a Channel that it has.
ghost use Rattle.std.specs.Prelude.{◌≡◌, ℕ, ◌<◌, true};
ghost use Rattle.channel_core.specs.Lawful.{IsLater};
ghost use Rattle.variant.specs.declared.action.Deed.TheVariants.{Asked};
ghost use Rattle.variant.specs.declared.ask.Ask.TheVariants.{Push, Pop, Peek as APeek, Clear, Enter, Leave, Supply};
ghost use Rattle.channel_desk.specs.Deeds.{IsDeed, IsInside, IsPlaced, Comes, Outcome, message_of};

use crate::given::{
    Given, adds, given_by_enter, given_by_peek, given_by_put, given_by_take, given_by_wipe, only,
};
use crate::stamps::is_later_on_channel;
use channel_core::Channel;
use love_base::{Memory, Stamp};
use std::alloc::Global;
use variant::{Ask, Refusal, Reply, Variant};

// Whether the state may add an entry with this stamp. Inside its own section it may.
fn may_add(channel: &Channel, by: Stamp, depth: u32) -> bool
    requires { IsPlaced channel.now by depth }
    ensures { result ≡ true → IsLater channel.now by }
{
    if depth > 0 {
        return true;
    }
    is_later_on_channel(channel.history(), by)
}

fn push(channel: &mut Channel, by: Stamp, depth: u32, value: Variant) -> Result<Given, Memory>
    requires { IsPlaced channel.old by depth }
    ensures { (number : ℕ) → Outcome (Push number value) by depth channel.old channel.new result }
{
    if may_add(channel, by, depth) {
        given_by_put(channel.put(by, value))
    } else {
        Err(Memory)
    }
}

fn pop(channel: &mut Channel, by: Stamp, depth: u32) -> Result<Given, Memory>
    requires { IsPlaced channel.old by depth }
    ensures { (number : ℕ) → Outcome (Pop number) by depth channel.old channel.new result }
{
    let Some(_) = channel.peek() else {
        return Ok(only(Reply::Nothing));
    };
    if may_add(channel, by, depth) {
        given_by_take(channel.take(by))
    } else {
        Err(Memory)
    }
}

fn peek(alloc: Global, channel: &Channel, by: Stamp, depth: u32) -> Result<Given, Memory>
    requires { IsPlaced channel.now by depth }
    ensures { (number : ℕ) → Outcome (APeek number) by depth channel.now channel.now result }
{
    given_by_peek(alloc, channel.peek())
}

fn clear(channel: &mut Channel, by: Stamp, depth: u32) -> Result<Given, Memory>
    requires { IsPlaced channel.old by depth }
    ensures { (number : ℕ) → Outcome (Clear number) by depth channel.old channel.new result }
{
    let Some(_) = channel.peek() else {
        return Ok(only(Reply::Done));
    };
    if may_add(channel, by, depth) {
        given_by_wipe(channel.wipe(by))
    } else {
        Err(Memory)
    }
}

fn enter(channel: &mut Channel, by: Stamp, depth: u32) -> Result<Given, Memory>
    requires { IsPlaced channel.old by depth }
    ensures { (number : ℕ) → Outcome (Enter number) by depth channel.old channel.new result }
{
    if depth > 0 {
        return Ok(only(Reply::Done));
    }
    if may_add(channel, by, depth) {
        given_by_enter(channel.enter(by))
    } else {
        Err(Memory)
    }
}

fn leave(channel: &mut Channel, by: Stamp, depth: u32) -> Given
    requires placed { IsPlaced channel.old by depth }
    requires inside { 0 < depth }
    ensures { (number : ℕ) → Comes (Asked (Leave number)) by depth channel.old channel.new result }
{
    if depth > 1 {
        return only(Reply::Done);
    }
    channel.leave(by);
    adds(Reply::Done)
}

// A message that is sent, by an ask that must not wait inside the state's own section.
fn supply(channel: &mut Channel, by: Stamp, depth: u32, value: Variant) -> Result<Given, Memory>
    requires { IsPlaced channel.old by depth }
    ensures { (number : ℕ) → Outcome (Supply number value) by depth channel.old channel.new result }
{
    if depth > 0 {
        return Ok(only(Reply::Refused(Refusal::WouldWaitInside)));
    }
    push(channel, by, depth, value)
}

/// What an ask comes to at its Channel, on which its state has so many sections open: 0 where the
/// Channel is nobody's. `message` is the one that the ask sends, which the Channel then keeps.
///
/// The ask is one that is answered at once and may change the Channel. A state that isn't inside a
/// section adds an entry only where it has done nothing later at this Channel; that is tested by
/// reading the history from its end back to the last entry of the state.
///
/// # Errors
///
/// [`Memory`] where there is no room, and where the state has done something later there. The
/// Channel is as it was.
pub fn answer_ask(
    alloc: Global,
    channel: &mut Channel,
    by: Stamp,
    ask: &Ask,
    depth: u32,
    message: Option<Variant>,
) -> Result<Given, Memory>
    requires placed { IsPlaced channel.old by depth }
    requires deed { IsDeed ask.now }
    requires inside { IsInside ask.now depth }
    requires message { message ≡ message_of ask.now }
    ensures { Outcome ask.now by depth channel.old channel.new result }
{
    match ask {
        Ask::Push(_, _) => push(channel, by, depth, message.unwrap()),
        Ask::Supply(_, _) => supply(channel, by, depth, message.unwrap()),
        Ask::Pop(_) => pop(channel, by, depth),
        Ask::Peek(_) => peek(alloc, channel, by, depth),
        Ask::Clear(_) => clear(channel, by, depth),
        Ask::Enter(_) => enter(channel, by, depth),
        Ask::Leave(_) => Ok(leave(channel, by, depth)),
        _ => unreachable!(),
    }
}

//! Deeds of one state.
ghost use Rattle.std.specs.Prelude.{◌≡◌, ◌+◌, ◌<◌, ◌≤◌, []};
ghost use Rattle.channel_desk.specs.Acting.{MayLeave};
ghost use Rattle.channel_desk.specs.OnBoard.{IsActed};
ghost use Rattle.channel_desk.specs.Holding.{IsHolding};
ghost use Rattle.channel_desk.specs.Opened.{AreLaid};

use crate::tests::desks::opened;
use crate::{HeldStack, Pass, Sections, Shared};
use love_base::ChannelNo;
use std::alloc::Global;
use std::sync::Wait;
use std::test::Fail;
use turn_desk::{Bell, Desk};
use variant::{Action, Ask, Reply, StateLog, Variant};

// What an ask is answered, at this place and with or without an entry.
fn answered<R: Wait>(
    rt: &R,
    stack: &mut HeldStack<'_>,
    ask: Ask,
    place: u32,
    changed: bool,
) -> Option<Reply>
    requires holding { IsHolding stack.old.desk.now stack.old.state stack.old.next
        stack.old.pass.now stack.old.held.items }
    requires ask { IsActed ask }
    requires leave { MayLeave ask stack.old.held.items }
    requires next { stack.old.next < 1000 }
    ensures same { stack.new.pass.ghost_name ≡ stack.old.pass.ghost_name }
    ensures holding { IsHolding stack.new.desk.now stack.new.state stack.new.next
        stack.new.pass.now stack.new.held.items }
    ensures next { stack.new.next ≤ stack.old.next + 1 }
{
    match stack.act(rt, ask) {
        Ok(action) => reply_at(action, place, changed),
        Err(_) => None,
    }
}

fn reply_at(action: Action, place: u32, changed: bool) -> Option<Reply> {
    if action.place == place && action.changed == changed {
        Some(action.reply)
    } else {
        None
    }
}

fn is_done(reply: Option<Reply>) -> bool {
    matches!(reply, Some(Reply::Done))
}

fn is_id(reply: Option<Reply>, id: u32) -> bool {
    matches!(reply, Some(Reply::Id(given)) if given == id)
}

fn is_nothing(reply: Option<Reply>) -> bool {
    matches!(reply, Some(Reply::Nothing))
}

fn is_nil(reply: Option<Reply>) -> bool {
    matches!(reply, Some(Reply::Value(Variant::Nil)))
}

fn is_refused(reply: Option<Reply>) -> bool {
    matches!(reply, Some(Reply::Refused(_)))
}

// The end of the section that was begun last on the Channel.
fn left<R: Wait>(
    rt: &R,
    stack: &mut HeldStack<'_>,
    channel: ChannelNo,
    place: u32,
    changed: bool,
) -> bool
    requires holding { IsHolding stack.old.desk.now stack.old.state stack.old.next
        stack.old.pass.now stack.old.held.items }
    requires next { stack.old.next < 1000 }
    ensures same { stack.new.pass.ghost_name ≡ stack.old.pass.ghost_name }
    ensures holding { IsHolding stack.new.desk.now stack.new.state stack.new.next
        stack.new.pass.now stack.new.held.items }
    ensures next { stack.new.next ≤ stack.old.next + 1 }
{
    stack.may_leave(channel) && is_done(answered(rt, stack, Ask::Leave(channel), place, changed))
}

// Sections of one Channel in one another, with a message that is sent inside.
fn nests<R: Wait>(rt: &R, stack: &mut HeldStack<'_>, channel: ChannelNo) -> bool
    requires holding { IsHolding stack.old.desk.now stack.old.state stack.old.next
        stack.old.pass.now stack.old.held.items }
    requires next { stack.old.next < 100 }
{
    is_done(answered(rt, stack, Ask::Enter(channel), 1, true))
        && is_done(answered(rt, stack, Ask::Enter(channel), 1, false))
        && is_id(
            answered(rt, stack, Ask::Push(channel, Variant::Nil), 2, true),
            1,
        )
        && is_refused(answered(rt, stack, Ask::Supply(channel, Variant::Nil), 2, false))
        && left(rt, stack, channel, 2, false)
        && left(rt, stack, channel, 3, true)
        && is_nil(answered(rt, stack, Ask::Pop(channel), 4, true))
        && is_nothing(answered(rt, stack, Ask::Pop(channel), 4, false))
}

// The same for a state that has done nothing yet.
fn nested<R: Wait>(rt: &R, alloc: Global, desk: &Desk<Shared>, mut passes: Vec<Pass>) -> bool
    requires { AreLaid desk.now passes.items }
{
    let bell = Bell::new();
    let Some(channel) = ChannelNo::new(1) else {
        return false;
    };
    let Some(mut pass) = passes.pop() else {
        return false;
    };
    let mut stack = Sections::new(alloc, desk, &bell, &mut pass, 0);
    nests(rt, &mut stack, channel)
}

// A state that is inside two Channels leaves both, the last entered first.
fn cuts<R: Wait>(
    rt: &R,
    stack: &mut HeldStack<'_>,
    log: &mut StateLog,
    first: ChannelNo,
    second: ChannelNo,
) -> bool
    requires holding { IsHolding stack.old.desk.now stack.old.state stack.old.next
        stack.old.pass.now stack.old.held.items }
    requires none { stack.old.held.items ≡ [] }
    requires next { stack.old.next < 100 }
    requires log { (log.old.actions ≡ []) × (100 ≤ log.old.spare) }
{
    let entered = is_done(answered(rt, stack, Ask::Enter(first), 1, true))
        && is_done(answered(rt, stack, Ask::Enter(second), 1, true))
        && is_done(answered(rt, stack, Ask::Enter(first), 1, false));
    if stack.held.len() > 3 {
        return false;
    }
    stack.leave_all(log);
    entered && log.len() == 2 && is_cut(log, 0, 2) && is_cut(log, 1, 1)
}

// Whether this action of the log left the Channel.
fn is_cut(log: &StateLog, at: usize, channel: u32) -> bool {
    match log.get(at) {
        Some(cut) => cut.object == channel && cut.place == 2 && cut.changed,
        None => false,
    }
}

fn cut<R: Wait>(
    rt: &R,
    alloc: Global,
    desk: &Desk<Shared>,
    mut passes: Vec<Pass>,
    log: &mut StateLog,
) -> bool
    requires laid { AreLaid desk.now passes.items }
    requires log { (log.old.actions ≡ []) × (100 ≤ log.old.spare) }
{
    let bell = Bell::new();
    let Some(first) = ChannelNo::new(1) else {
        return false;
    };
    let Some(second) = ChannelNo::new(2) else {
        return false;
    };
    let Some(mut pass) = passes.pop() else {
        return false;
    };
    let mut stack = Sections::new(alloc, desk, &bell, &mut pass, 0);
    cuts(rt, &mut stack, log, first, second)
}

#[test]
fn sections_lie_in_one_another(rt: HostRuntime) -> Result<(), Fail> {
    let alloc = rt.alloc();
    let Ok((desk, passes)) = opened(alloc, 1) else {
        panic!(rt; "memory");
    };
    assert!(rt; nested(&rt, alloc, &desk, passes));
    Ok(())
}

#[test]
fn a_state_that_is_cut_leaves_all(rt: HostRuntime) -> Result<(), Fail> {
    let alloc = rt.alloc();
    let mut log = StateLog::new(alloc);
    let Ok(()) = log.room(100) else {
        panic!(rt; "memory");
    };
    let Ok((desk, passes)) = opened(alloc, 1) else {
        panic!(rt; "memory");
    };
    assert!(rt; cut(&rt, alloc, &desk, passes, &mut log));
    Ok(())
}

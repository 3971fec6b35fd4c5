//! Copies of asks.

ghost use Rattle.std.specs.Prelude.{◌≡◌, IfOk};

use love_base::Memory;
use std::alloc::Global;
use variant::{Ask, copy_all};

// An equal ask, in time linear in its messages.
pub(crate) fn copy_of(alloc: Global, ask: &Ask) -> Result<Ask, Memory>
    ensures { IfOk result (λ copy. copy ≡ ask.now) }
{
    let copy = match ask {
        Ask::Push(channel, message) => Ask::Push(*channel, message.copy(alloc)?),
        Ask::Supply(channel, message) => Ask::Supply(*channel, message.copy(alloc)?),
        Ask::Pop(channel) => Ask::Pop(*channel),
        Ask::Peek(channel) => Ask::Peek(*channel),
        Ask::Count(channel) => Ask::Count(*channel),
        Ask::HasRead(channel, id) => Ask::HasRead(*channel, *id),
        Ask::Clear(channel) => Ask::Clear(*channel),
        Ask::Demand(channel, limit) => Ask::Demand(*channel, *limit),
        Ask::Await(channel, id, limit) => Ask::Await(*channel, *id, *limit),
        Ask::Enter(channel) => Ask::Enter(*channel),
        Ask::Leave(channel) => Ask::Leave(*channel),
        Ask::Name(name) => Ask::Name(name.copy(alloc)?),
        Ask::NewChannel => Ask::NewChannel,
        Ask::NewThread(source) => Ask::NewThread(source.copy(alloc)?),
        Ask::Start(thread, args) => Ask::Start(*thread, copy_all(alloc, args)?),
        Ask::IsRunning(thread) => Ask::IsRunning(*thread),
        Ask::ErrorOf(thread) => Ask::ErrorOf(*thread),
        Ask::WaitFor(thread) => Ask::WaitFor(*thread),
        Ask::EventPush(name, args) => Ask::EventPush(name.copy(alloc)?, copy_all(alloc, args)?),
        Ask::EventPoll => Ask::EventPoll,
    };
    Ok(copy)
}

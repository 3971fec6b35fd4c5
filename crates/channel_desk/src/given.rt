//! What a deed comes to at a Channel, by what the Channel's own call answers.
ghost use Rattle.std.specs.Prelude.{◌≡◌, ℕ, true, false};
ghost use Rattle.std.specs.Option.{option_copied};
ghost use Rattle.variant.specs.declared.message.Variant.{Variant as Message};
ghost use Rattle.channel_core.specs.Calls.{put_answer, take_answer, wipe_answer, enter_answer, peek_answer, refused};
ghost use Rattle.channel_desk.specs.Deeds.{Stands, StandsOrNot};

use channel_core::PutFault;
use love_base::Memory;
use std::alloc::Global;
use variant::{Refusal, Reply, Variant};

/// What a deed came to.
#[derive(Debug, Drop)]
pub struct Given {
    /// What is replied.
    pub reply: Reply,
    /// Whether an entry was added.
    pub changed: bool,
}

// A reply without an entry.
pub(crate) fn only(reply: Reply) -> Given
    ensures { (result.reply ≡ reply) × (result.changed ≡ false) }
{
    Given {
        reply,
        changed: false,
    }
}

// A reply with one.
pub(crate) fn adds(reply: Reply) -> Given
    ensures { (result.reply ≡ reply) × (result.changed ≡ true) }
{
    Given {
        reply,
        changed: true,
    }
}

fn refusal(fault: PutFault) -> Result<Given, Memory>
    ensures { Stands (refused fault) result }
{
    match fault {
        PutFault::Full => Ok(only(Reply::Refused(Refusal::Full))),
        PutFault::Memory => Err(Memory),
    }
}

pub(crate) fn given_by_put(put: Result<(u32, u32), (Variant, PutFault)>) -> Result<Given, Memory>
    ensures { (message : Message) → Stands (put_answer message put) result }
{
    match put {
        Ok((_, id)) => Ok(adds(Reply::Id(id))),
        Err((_, fault)) => refusal(fault),
    }
}

pub(crate) fn given_by_take(
    taken: Result<Option<(u32, u32, Variant)>, PutFault>,
) -> Result<Given, Memory>
    ensures { Stands (take_answer taken) result }
{
    match taken {
        Ok(Some((_, _, message))) => Ok(adds(Reply::Value(message))),
        Ok(None) => Ok(only(Reply::Nothing)),
        Err(fault) => refusal(fault),
    }
}

pub(crate) fn given_by_wipe(wiped: Result<Option<u32>, PutFault>) -> Result<Given, Memory>
    ensures { Stands (wipe_answer wiped) result }
{
    match wiped {
        Ok(Some(_)) => Ok(adds(Reply::Done)),
        Ok(None) => Ok(only(Reply::Done)),
        Err(fault) => refusal(fault),
    }
}

pub(crate) fn given_by_enter(entered: Result<u32, PutFault>) -> Result<Given, Memory>
    ensures { Stands (enter_answer entered) result }
{
    match entered {
        Ok(_) => Ok(adds(Reply::Done)),
        Err(fault) => refusal(fault),
    }
}

pub(crate) fn given_by_peek(alloc: Global, found: Option<&Variant>) -> Result<Given, Memory>
    ensures { StandsOrNot (peek_answer (option_copied found.entry)) result }
{
    match found {
        Some(message) => Ok(only(Reply::Value(message.copy(alloc)?))),
        None => Ok(only(Reply::Nothing)),
    }
}

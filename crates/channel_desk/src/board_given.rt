//! What a deed comes to at the board, by what the board's own call answers.
ghost use Rattle.std.specs.Prelude.{◌≤◌, IfOk, Ok};
ghost use Rattle.std.specs.Option.{option_copied};
ghost use Rattle.thread_board.specs.declared.entry.BoardChange.{BoardChange as AChange};
ghost use Rattle.thread_board.specs.Answers.{words};
ghost use Rattle.thread_board.specs.Calls.{channel_answer, refused, started_answer, thread_answer};
ghost use Rattle.channel_desk.specs.OnBoard.{StandsOnBoard};

use crate::given::{Given, adds, only as without_entry};
use love_base::{ChannelNo, Memory, Text};
use std::alloc::Global;
use thread_board::{BoardFault, Named};
use variant::{Refusal, Reply};

// What a refusal of the board comes to: a Thread that runs, or that was never made, isn't started.
fn refusal(fault: BoardFault) -> Result<Given, Memory>
    ensures { StandsOnBoard (refused fault) result }
{
    let refusal = match fault {
        BoardFault::TooManyChannels => Refusal::TooManyChannels,
        BoardFault::TooManyThreads => Refusal::TooManyThreads,
        BoardFault::TooManyRunning { running } => Refusal::TooManyRunning(running),
        BoardFault::TooManyStarts => Refusal::TooManyStarts,
        BoardFault::Closed { place } => Refusal::GameEnded(place),
        BoardFault::AlreadyRunning { state: _ } => return Ok(without_entry(Reply::Flag(false))),
        BoardFault::NoSuchThread => return Ok(without_entry(Reply::Flag(false))),
        BoardFault::Memory => return Err(Memory),
    };
    Ok(without_entry(Reply::Refused(refusal)))
}

pub(crate) fn given_by_named(named: Result<Named, BoardFault>) -> Result<Given, Memory>
    requires { IfOk named (λ given. (1 ≤ given.channel) × (given.channel ≤ 1024)) }
    ensures { (change : AChange) → StandsOnBoard (channel_answer change named) result }
{
    match named {
        Ok(named) => {
            let Some(channel) = ChannelNo::new(named.channel) else {
                unreachable!()
            };
            Ok(Given {
                reply: Reply::Channel(channel),
                changed: named.changed,
            })
        }
        Err(fault) => refusal(fault),
    }
}

pub(crate) fn given_by_thread(made: Result<(u32, u32), BoardFault>) -> Result<Given, Memory>
    ensures { (change : AChange) → StandsOnBoard (thread_answer change made) result }
{
    match made {
        Ok((_, thread)) => Ok(adds(Reply::Thread(thread))),
        Err(fault) => refusal(fault),
    }
}

pub(crate) fn given_by_start(started: Result<(u32, u32), BoardFault>) -> Result<Given, Memory>
    ensures { (change : AChange) → StandsOnBoard (started_answer change started) result }
{
    match started {
        Ok(_) => Ok(adds(Reply::Flag(true))),
        Err(fault) => refusal(fault),
    }
}

// The text of a failure, as a reply of its own.
pub(crate) fn given_by_words(alloc: Global, text: Option<&[u8]>) -> Result<Given, Memory>
    ensures { IfOk result (λ given. StandsOnBoard (words (option_copied text.entry)) (Ok given)) }
{
    match text {
        Some(text) => Ok(without_entry(Reply::Words(Text::of(alloc, text)?))),
        None => Ok(without_entry(Reply::Nothing)),
    }
}

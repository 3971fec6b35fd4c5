//! Asks about the board.
ghost use Rattle.std.specs.Prelude.{◌≡◌, Ok, IfOk};
ghost use Rattle.variant.specs.declared.ask.Ask.TheVariants.{ErrorOf as AskErrorOf, WaitFor as AskWaitFor};
ghost use Rattle.lua_state.specs.Answered.{AnswersOnBoard, IsBoardAsk};

use crate::answer::{Answer, only, twice};
use channel_desk::answer_on_board;
use love_base::{Memory, Stamp, Text};
use std::alloc::Global;
use thread_board::Board;
use variant::{Ask, Reply};

// Whether no state of a Thread runs, which is waited for.
fn wait_for(board: &Board, by: Stamp, thread: u32) -> Option<Answer>
    ensures { AnswersOnBoard board.now.workers (AskWaitFor thread) by
        board.now.history board.now.history (Ok result) }
{
    if board.running(thread) {
        return None;
    }
    Some(twice(only(Reply::Done), None))
}

// The text of a Thread's failure. It is copied twice.
fn error_of(alloc: Global, board: &Board, by: Stamp, thread: u32) -> Result<Option<Answer>, Memory>
    ensures { AnswersOnBoard board.now.workers (AskErrorOf thread) by
        board.now.history board.now.history result }
{
    match board.error_of(thread) {
        Some(text) => Ok(Some(Answer {
            reply: Reply::Words(Text::of(alloc, text)?),
            copy: Reply::Words(Text::of(alloc, text)?),
            changed: false,
        })),
        None => Ok(Some(twice(only(Reply::Nothing), None))),
    }
}

// What an ask of a state comes to at the board.
pub(crate) fn at_board(
    alloc: Global,
    board: &mut Board,
    by: Stamp,
    ask: &Ask,
) -> Result<Option<Answer>, Memory>
    requires { IsBoardAsk ask.now }
    ensures workers { board.new.workers ≡ board.old.workers }
    ensures answers { AnswersOnBoard board.old.workers ask.now by
        board.old.history board.new.history result }
{
    match ask {
        Ask::WaitFor(thread) => Ok(wait_for(board, by, *thread)),
        Ask::ErrorOf(thread) => error_of(alloc, board, by, *thread),
        _ => {
            let given = answer_on_board(alloc, board, by, ask)?;
            Ok(Some(twice(given, None)))
        }
    }
}

//! The deeds of a state at the board that it has.
ghost use Rattle.std.specs.Prelude.{◌≡◌, true};
ghost use Rattle.variant.specs.declared.ask.Ask.TheVariants.{Name as AskName, NewChannel as AskNewChannel, NewThread as AskNewThread, Start as AskStart, IsRunning as AskIsRunning, ErrorOf as AskErrorOf};
ghost use Rattle.thread_board.specs.Lawful.{IsLater};
ghost use Rattle.thread_board.specs.Register.{register, HasBegun};
ghost use Rattle.variant.specs.declared.action.Deed.TheVariants.{Asked};
ghost use Rattle.channel_desk.specs.OnBoard.{ComesOnBoard, IsBoardDeed, OutcomeOnBoard};

use crate::board_given::{given_by_named, given_by_start, given_by_thread, given_by_words};
use crate::given::{Given, only};
use crate::stamps::is_later_on_board;
use love_base::{List, Memory, Stamp, Text};
use std::alloc::Global;
use thread_board::Board;
use variant::{Ask, Reply, Source, Variant, copy_all};

// Whether the state may add an entry with this stamp: it has begun, and has done nothing later.
fn may_add(board: &Board, by: Stamp) -> bool
    ensures begun { result ≡ true → HasBegun (register board.now.history) by.state }
    ensures later { result ≡ true → IsLater board.now.history by }
{
    board.has_begun(by.state) && is_later_on_board(board.history(), by)
}

fn name(board: &mut Board, by: Stamp, text: &Text) -> Result<Given, Memory>
    ensures workers { board.new.workers ≡ board.old.workers }
    ensures outcome { OutcomeOnBoard board.old.workers (AskName text.now) by
        board.old.history board.new.history result }
{
    if !may_add(board, by) {
        return Err(Memory);
    }
    let _old = board.history();
    let named = board.name(by, text);
    let _new = board.history();
    given_by_named(named)
}

fn new_channel(board: &mut Board, by: Stamp) -> Result<Given, Memory>
    ensures workers { board.new.workers ≡ board.old.workers }
    ensures outcome { OutcomeOnBoard board.old.workers AskNewChannel by
        board.old.history board.new.history result }
{
    if !may_add(board, by) {
        return Err(Memory);
    }
    let named = board.new_channel(by);
    let _new = board.history();
    given_by_named(named)
}

fn new_thread(board: &mut Board, by: Stamp, source: Source) -> Result<Given, Memory>
    ensures workers { board.new.workers ≡ board.old.workers }
    ensures outcome { OutcomeOnBoard board.old.workers (AskNewThread source) by
        board.old.history board.new.history result }
{
    if !may_add(board, by) {
        return Err(Memory);
    }
    let made = board.new_thread(by, source);
    let _new = board.history();
    given_by_thread(made)
}

fn start(board: &mut Board, by: Stamp, thread: u32, args: List<Variant>) -> Result<Given, Memory>
    ensures workers { board.new.workers ≡ board.old.workers }
    ensures outcome { OutcomeOnBoard board.old.workers (AskStart thread args) by
        board.old.history board.new.history result }
{
    if !may_add(board, by) {
        return Err(Memory);
    }
    let started = board.start(by, thread, args);
    let _new = board.history();
    given_by_start(started)
}

fn is_running(board: &Board, by: Stamp, thread: u32) -> Given
    ensures { ComesOnBoard board.now.workers (Asked (AskIsRunning thread)) by
        board.now.history board.now.history result }
{
    only(Reply::Flag(board.running(thread)))
}

fn error_of(alloc: Global, board: &Board, by: Stamp, thread: u32) -> Result<Given, Memory>
    ensures { OutcomeOnBoard board.now.workers (AskErrorOf thread) by
        board.now.history board.now.history result }
{
    given_by_words(alloc, board.error_of(thread))
}

/// What an ask comes to at the board. The ask is one that is answered at once: any about the board but
/// the wait for a Thread. The state adds an entry only where it has begun and has done nothing later
/// at the board; that is tested by reading the history from its end back to the last entry of the
/// state.
///
/// # Errors
///
/// [`Memory`] where there is no room, and where the state may not add an entry. The board is as it
/// was.
pub fn answer_on_board(
    alloc: Global,
    board: &mut Board,
    by: Stamp,
    ask: &Ask,
) -> Result<Given, Memory>
    requires deed { IsBoardDeed ask.now }
    ensures workers { board.new.workers ≡ board.old.workers }
    ensures outcome { OutcomeOnBoard board.old.workers ask.now by
        board.old.history board.new.history result }
{
    match ask {
        Ask::Name(text) => name(board, by, text),
        Ask::NewChannel => new_channel(board, by),
        Ask::NewThread(source) => new_thread(board, by, source.copy(alloc)?),
        Ask::Start(thread, args) => start(board, by, *thread, copy_all(alloc, args)?),
        Ask::IsRunning(thread) => Ok(is_running(board, by, *thread)),
        Ask::ErrorOf(thread) => error_of(alloc, board, by, *thread),
        _ => unreachable!(),
    }
}

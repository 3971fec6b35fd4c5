//! The end of a state.
ghost use Rattle.std.specs.Prelude.{◌≡◌, ◌+◌, ◌<◌, ◌^◌, ◌↔◌, [], true, false, Option, IfSome, IfNone, IsNone};
ghost use Rattle.variant.specs.Log.{MayFollow};
ghost use Rattle.variant.specs.declared.action.Deed.TheVariants.{End as Ended, MainEnd as MainEnded};
ghost use Rattle.channel_desk.specs.Finishing.{Finished, an_end, end_deed};
ghost use Rattle.channel_desk.specs.Holding.{IsHolding};
ghost use Rattle.channel_desk.specs.OnBoard.{ComesOnBoard};
ghost use Rattle.channel_desk.specs.Shared.{board_in, kind_of};

use crate::held::place_of;
use crate::sections::{Section, Sections};
use crate::shared::Shared;
use crate::stamps::is_later_on_board;
use crate::turns::{give, take};
use love_base::Stamp;
use std::sync::Wait;
use thread_board::Board;
use turn_desk::{Bell, Held};
use variant::{Action, Deed, EndKind, Reply, StateLog};

// Ends state 0 on the board; not where it has ended, or has done something later there.
fn end_main(board: &mut Board, by: Stamp) -> bool
    requires main { by.state ≡ 0 }
    requires workers { 0 < board.old.workers }
    ensures workers { board.new.workers ≡ board.old.workers }
    ensures ended { result ≡ true → ComesOnBoard board.old.workers MainEnded by
        board.old.history board.new.history an_end }
    ensures unchanged { result ≡ false → board.new ≡ board.old }
{
    if board.ended().is_some() || !is_later_on_board(board.history(), by) {
        return false;
    }
    board.main_end(by);
    true
}

// Ends another state on the board; not where it has ended or hasn't begun, or has done something
// later there.
fn end_other(board: &mut Board, by: Stamp, end: EndKind) -> bool
    ensures workers { board.new.workers ≡ board.old.workers }
    ensures ended { result ≡ true → ComesOnBoard board.old.workers (Ended end) by
        board.old.history board.new.history an_end }
    ensures unchanged { result ≡ false → board.new ≡ board.old }
{
    if !board.is_working(by.state) || !is_later_on_board(board.history(), by) {
        return false;
    }
    board.end(by, end);
    true
}

// The same at the board that a pass has. It gives the deed.
fn end_held(held: &mut Held<Shared>, by: Stamp, ends: Option<(EndKind, EndKind)>) -> Option<Deed>
    requires board { 1 < kind_of held.old.value }
    requires main { IsNone ends ↔ (by.state ≡ 0) }
    requires copies { IfSome ends (λ copies. copies.0 ≡ copies.1) }
    ensures object { held.new.object ≡ held.old.object }
    ensures kind { kind_of held.new.value ≡ kind_of held.old.value }
    ensures ended { IfSome result (λ deed. (deed ≡ end_deed ends)
        × ComesOnBoard (board_in held.old.value).workers deed by
        (board_in held.old.value).history (board_in held.new.value).history an_end) }
    ensures unchanged { IfNone result (held.new.value ≡ held.old.value) }
{
    match held.value_mut() {
        Shared::Board(board) => match ends {
            None => end_main(board, by).then_some(Deed::MainEnd),
            Some((end, copy)) => end_other(board, by, end).then_some(Deed::End(copy)),
        },
        Shared::Channel(_) => unreachable!(),
    }
}

// Waits for ever.
fn stay<R: Wait>(rt: &R, bell: &Bell) -> ! {
    for _ in rt.forever() {
        bell.wait_past(rt, bell.number(rt));
    }
    unreachable!()
}

impl Sections<'_, Vec<Section>> {
    /// Ends the state on the board, state 0 where there are no copies of an end, puts that action
    /// into the log, and wakes those that wait for a change. It takes no memory. A state that has
    /// ended, or has done something later on the board, gives the board back and waits for ever.
    pub fn finish<R: Wait>(&mut self, rt: &R, ends: Option<(EndKind, EndKind)>, log: &mut StateLog)
        requires holding { IsHolding self.old.desk.now self.old.state self.old.next
            self.old.pass.now self.old.held.items }
        requires none { self.old.held.items ≡ [] }
        requires main { IsNone ends ↔ (self.old.state ≡ 0) }
        requires copies { IfSome ends (λ copies. copies.0 ≡ copies.1) }
        requires order { MayFollow log.old.actions (end_deed ends) }
        requires next { self.old.next + 1 < 2 ^ 32 }
        ensures same { self.new.pass.ghost_name ≡ self.old.pass.ghost_name }
        ensures desk { self.new.desk.now ≡ self.old.desk.now }
        ensures state { self.new.state ≡ self.old.state }
        ensures holding { IsHolding self.new.desk.now self.new.state self.new.next
            self.new.pass.now self.new.held.items }
        ensures none { self.new.held.items ≡ [] }
        ensures next { self.new.next ≡ self.old.next + 1 }
        ensures finished { Finished (record { state = self.old.state; number = self.old.next })
            self.old.pass.now.view self.new.pass.now.view (end_deed ends)
            log.old.actions log.new.actions }
    {
        let by = self.stamp();
        let mut board = take(rt, self.desk, self.pass, 0);
        let deed = end_held(&mut board, by, ends);
        let place = place_of(&board);
        give(rt, self.desk, self.bell, self.pass, board);
        let Some(deed) = deed else {
            stay(rt, self.bell)
        };
        self.next += 1;
        log.put(Action {
            number: by.number,
            object: 0,
            place,
            changed: true,
            deed,
            reply: Reply::Done,
            readings: None,
        });
    }
}

//! Asks that are answered at once, about the board and about Channels.
ghost use Rattle.std.specs.Prelude.{◌≡◌, ◌≢◌, ◌+◌, ◌-◌, ◌<◌, ◌^◌, true, false, IfOk, OnOk, OnErr, Err};
ghost use Rattle.variant.specs.declared.action.Deed.TheVariants.{Asked};
ghost use Rattle.variant.specs.declared.action.Stop.{Stop as AStop};
ghost use Rattle.channel_desk.specs.declared.fault.ActFault.TheVariants.{Stopped as WasStopped};
ghost use Rattle.channel_desk.specs.Acting.{Acted, IsStopped, MayLeave};
ghost use Rattle.channel_desk.specs.Deeds.{IsDeed};
ghost use Rattle.channel_desk.specs.Holding.{IsHolding};
ghost use Rattle.channel_desk.specs.OnBoard.{ActedOnBoard, IsActed, IsBoardDeed, OutcomeOnBoard};
ghost use Rattle.channel_desk.specs.Shared.{history_of, kind_of, board_in};
ghost use Rattle.channel_desk.specs.Turns.{Waited};

use crate::acting::asked;
use crate::board_deeds::answer_on_board;
use crate::fault::ActFault;
use crate::given::Given;
use crate::held::place_of;
use crate::sections::{Section, Sections};
use crate::shared::Shared;
use crate::turns::{give, take};
use love_base::{Memory, Stamp};
use std::alloc::Global;
use std::sync::Wait;
use turn_desk::Held;
use variant::{Action, Ask};

// What an ask comes to at the board that a pass has.
pub(crate) fn answer_board(
    alloc: Global,
    held: &mut Held<Shared>,
    by: Stamp,
    ask: &Ask,
) -> Result<Given, Memory>
    requires board { 0 < kind_of held.old.value }
    requires deed { IsBoardDeed ask.now }
    ensures object { held.new.object ≡ held.old.object }
    ensures kind { kind_of held.new.value ≡ kind_of held.old.value }
    ensures outcome { OutcomeOnBoard (board_in held.old.value).workers ask.now by
        (board_in held.old.value).history (board_in held.new.value).history result }
{
    match held.value_mut() {
        Shared::Board(board) => answer_on_board(alloc, board, by, ask),
        Shared::Channel(_) => unreachable!(),
    }
}

// Whether the ask is about the board.
fn is_on_board(ask: &Ask) -> bool
    ensures yes { result ≡ true → IsBoardDeed ask.now }
    ensures no { result ≡ false → IsActed ask.now → IsDeed ask.now }
{
    match ask {
        Ask::Name(_) | Ask::NewChannel | Ask::NewThread(_) => true,
        Ask::Start(_, _) | Ask::IsRunning(_) | Ask::ErrorOf(_) => true,
        _ => false,
    }
}

impl Sections<'_, Vec<Section>> {
    // An ask about the board.
    pub(crate) fn act_on_board<R: Wait>(&mut self, rt: &R, ask: Ask) -> Result<Action, ActFault>
        requires holding { IsHolding self.old.desk.now self.old.state self.old.next
            self.old.pass.now self.old.held.items }
        requires ask { IsBoardDeed ask }
        requires next { self.old.next + 1 < 2 ^ 32 }
        ensures same { self.new.pass.ghost_name ≡ self.old.pass.ghost_name }
        ensures desk { self.new.desk.now ≡ self.old.desk.now }
        ensures state { self.new.state ≡ self.old.state }
        ensures holding { IsHolding self.new.desk.now self.new.state self.new.next
            self.new.pass.now self.new.held.items }
        ensures next { OnOk result (self.new.next ≡ self.old.next + 1) }
        ensures acted { IfOk result (λ a. ActedOnBoard
            (record { state = self.old.state; number = self.old.next })
            self.old.pass.now.view self.new.pass.now.view
            self.old.held.items self.new.held.items (Asked ask) a) }
        ensures kept { OnErr result ((self.new.next ≡ self.old.next)
            × (self.new.held.items ≡ self.old.held.items)
            × Waited self.old.pass.now.view self.new.pass.now.view) }
        ensures never_stopped { (stop : AStop) → result ≢ Err (WasStopped stop) }
    {
        let by = self.stamp();
        let mut board = take(rt, self.desk, self.pass, 0);
        let given = answer_board(self.alloc, &mut board, by, &ask);
        let place = place_of(&board);
        give(rt, self.desk, self.bell, self.pass, board);
        let Ok(given) = given else {
            return Err(ActFault::Memory);
        };
        self.next += 1;
        Ok(asked(by, 0, place, ask, given))
    }

    /// Answers an ask at once, except where another state is inside a section on its Channel, or has
    /// its turn: then it waits. It is every ask but those that wait for a change, those that a
    /// [`glance`](Sections::glance) always answers, and those about events.
    ///
    /// A section ends in the order in which the sections began: to end the outermost one on a
    /// Channel it stands last.
    ///
    /// # Errors
    ///
    /// [`ActFault::Stopped`] where state 0 has ended and the state is inside a section while another
    /// pass has the Channel of its ask; [`ActFault::Memory`] where there is no memory, or where the
    /// state has done something later at the object, or hasn't begun on the board.
    pub fn act<R: Wait>(&mut self, rt: &R, ask: Ask) -> Result<Action, ActFault>
        requires holding { IsHolding self.old.desk.now self.old.state self.old.next
            self.old.pass.now self.old.held.items }
        requires ask { IsActed ask }
        requires leave { MayLeave ask self.old.held.items }
        requires next { self.old.next + 1 < 2 ^ 32 }
        ensures same { self.new.pass.ghost_name ≡ self.old.pass.ghost_name }
        ensures desk { self.new.desk.now ≡ self.old.desk.now }
        ensures state { self.new.state ≡ self.old.state }
        ensures holding { IsHolding self.new.desk.now self.new.state self.new.next
            self.new.pass.now self.new.held.items }
        ensures next { OnOk result (self.new.next ≡ self.old.next + 1) }
        ensures on_channel { IsDeed ask → IfOk result (λ a. Acted
            (record { state = self.old.state; number = self.old.next })
            self.old.pass.now.view self.new.pass.now.view
            self.old.held.items self.new.held.items ask a) }
        ensures on_board { IsBoardDeed ask → IfOk result (λ a. ActedOnBoard
            (record { state = self.old.state; number = self.old.next })
            self.old.pass.now.view self.new.pass.now.view
            self.old.held.items self.new.held.items (Asked ask) a) }
        ensures kept { OnErr result ((self.new.next ≡ self.old.next)
            × (self.new.held.items ≡ self.old.held.items)
            × Waited self.old.pass.now.view self.new.pass.now.view) }
        ensures stopped { (stop : AStop) → result ≡ Err (WasStopped stop) → IsStopped self.old.state
            self.old.pass.now.view self.new.pass.now.view self.old.held.items ask stop }
    {
        if is_on_board(&ask) {
            self.act_on_board(rt, ask)
        } else {
            self.act_on_channel(rt, ask)
        }
    }
}

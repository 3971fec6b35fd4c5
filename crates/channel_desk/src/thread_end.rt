//! The wait for the end of a Thread.
ghost use Rattle.std.specs.Prelude.{◌≡◌, ◌≢◌, ◌+◌, ◌<◌, ◌^◌, IfOk, IfSome, IfNone, OnOk, OnErr, OnSome, None, Err};
ghost use Rattle.variant.specs.declared.action.Stop.{Stop as AStop};
ghost use Rattle.variant.specs.declared.ask.Ask.TheVariants.{WaitFor as AskWaitFor};
ghost use Rattle.channel_desk.specs.declared.fault.ActFault.TheVariants.{Stopped as WasStopped, Memory as OutOfMemory};
ghost use Rattle.channel_desk.specs.Holding.{IsHolding};
ghost use Rattle.channel_desk.specs.OnBoard.{ActedOnBoard};
ghost use Rattle.channel_desk.specs.Shared.{board_in, kind_of};
ghost use Rattle.channel_desk.specs.ThreadEnd.{IsRunningAt, IsStoppedWaiting, waits_for};
ghost use Rattle.channel_desk.specs.Turns.{Waited};

use crate::acting::asked;
use crate::fault::ActFault;
use crate::given::only;
use crate::held::place_of;
use crate::sections::{Section, Sections};
use crate::shared::Shared;
use crate::turns::take;
use std::sync::Wait;
use turn_desk::Held;
use variant::{Action, Ask, Reply, Stop};

// What the board tells of a Thread.
#[derive(Clone, Copy, Debug)]
struct Notice {
    runs: bool,
    ended: Option<u32>,
}

// Whether the Thread runs, and the place of state 0's end.
fn notice_of(held: &Held<Shared>, thread: u32) -> Notice
    requires { 0 < kind_of held.now.value }
    ensures { IsRunningAt (board_in held.now.value).history thread result.runs result.ended }
{
    match held.value() {
        Shared::Board(board) => Notice {
            runs: board.running(thread),
            ended: board.ended(),
        },
        Shared::Channel(_) => unreachable!(),
    }
}

// A state is stopped while the Thread runs.
fn stopped_at(place: u32, main_end: u32, thread: u32) -> ActFault
    ensures { result ≡ WasStopped (record {
      board_place = place;
      main_end = main_end;
      object = 0;
      place = place;
      busy = None;
      ask = AskWaitFor thread;
    }) }
{
    ActFault::Stopped(Stop {
        board_place: place,
        main_end,
        object: 0,
        place,
        busy: None,
        ask: Ask::WaitFor(thread),
    })
}

impl Sections<'_, Vec<Section>> {
    // One turn at the board, to see whether the Thread runs.
    fn wait_round<R: Wait>(&mut self, rt: &R, thread: u32) -> Result<Option<Action>, ActFault>
        requires holding { IsHolding self.old.desk.now self.old.state self.old.next
            self.old.pass.now self.old.held.items }
        requires next { self.old.next + 1 < 2 ^ 32 }
        ensures same { self.new.pass.ghost_name ≡ self.old.pass.ghost_name }
        ensures desk { self.new.desk.now ≡ self.old.desk.now }
        ensures state { self.new.state ≡ self.old.state }
        ensures items { self.new.held.items ≡ self.old.held.items }
        ensures holding { IsHolding self.new.desk.now self.new.state self.new.next
            self.new.pass.now self.new.held.items }
        ensures waited { Waited self.old.pass.now.view self.new.pass.now.view }
        ensures next { IfOk result (λ found. OnSome found (self.new.next ≡ self.old.next + 1)) }
        ensures stays { IfOk result (λ found. IfNone found (self.new.next ≡ self.old.next)) }
        ensures kept { OnErr result (self.new.next ≡ self.old.next) }
        ensures acted { IfOk result (λ found. IfSome found (λ a. ActedOnBoard
            (record { state = self.old.state; number = self.old.next })
            self.old.pass.now.view self.new.pass.now.view
            self.old.held.items self.new.held.items (waits_for thread) a)) }
        ensures stopped { (stop : AStop) → result ≡ Err (WasStopped stop)
            → IsStoppedWaiting self.old.state self.new.pass.now.view thread stop }
        ensures no_memory { result ≢ Err OutOfMemory }
    {
        let by = self.stamp();
        let board = take(rt, self.desk, self.pass, 0);
        let notice = notice_of(&board, thread);
        let place = place_of(&board);
        self.desk.release(self.pass, board);
        if notice.runs {
            return match notice.ended {
                Some(main_end) if self.state != 0 => Err(stopped_at(place, main_end, thread)),
                _ => Ok(None),
            };
        }
        self.next += 1;
        let given = only(Reply::Done);
        Ok(Some(asked(by, 0, place, Ask::WaitFor(thread), given)))
    }

    /// Waits until this Thread doesn't run (LÖVE wiki, `Thread:wait`). It takes a turn at the board
    /// at each change, and no memory. Whether a wait ends is up to the other threads.
    ///
    /// # Errors
    ///
    /// [`ActFault::Stopped`] where state 0 has ended, and the Thread runs.
    pub fn wait_for<R: Wait>(&mut self, rt: &R, thread: u32) -> Result<Action, ActFault>
        requires holding { IsHolding self.old.desk.now self.old.state self.old.next
            self.old.pass.now self.old.held.items }
        requires next { self.old.next + 1 < 2 ^ 32 }
        ensures same { self.new.pass.ghost_name ≡ self.old.pass.ghost_name }
        ensures desk { self.new.desk.now ≡ self.old.desk.now }
        ensures state { self.new.state ≡ self.old.state }
        ensures items { self.new.held.items ≡ self.old.held.items }
        ensures holding { IsHolding self.new.desk.now self.new.state self.new.next
            self.new.pass.now self.new.held.items }
        ensures waited { Waited self.old.pass.now.view self.new.pass.now.view }
        ensures next { OnOk result (self.new.next ≡ self.old.next + 1) }
        ensures kept { OnErr result (self.new.next ≡ self.old.next) }
        ensures acted { IfOk result (λ a. ActedOnBoard
            (record { state = self.old.state; number = self.old.next })
            self.old.pass.now.view self.new.pass.now.view
            self.old.held.items self.new.held.items (waits_for thread) a) }
        ensures stopped { (stop : AStop) → result ≡ Err (WasStopped stop)
            → IsStoppedWaiting self.old.state self.new.pass.now.view thread stop }
        ensures no_memory { result ≢ Err OutOfMemory }
    {
        for _ in rt.forever() {
            let heard = self.bell.number(rt);
            match self.wait_round(rt, thread) {
                Ok(Some(action)) => return Ok(action),
                Ok(None) => self.bell.wait_past(rt, heard),
                Err(fault) => return Err(fault),
            }
        }
        unreachable!()
    }
}

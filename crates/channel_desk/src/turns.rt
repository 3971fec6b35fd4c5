//! Turns at one object: it is taken, perhaps after a wait, and given back.
ghost use Rattle.std.specs.Prelude.{◌≡◌, ◌<◌, ◌≤◌, true, length, IfOk, IfErr, IfSome, IfNone, Some, None};
ghost use Rattle.turn_desk.specs.declared.view.Phase.TheVariants.{Free, Taken};
ghost use Rattle.love_base.specs.Prefix.{IsPrefix};
ghost use Rattle.turn_desk.specs.Passes.{fixed_at, object_count};
ghost use Rattle.turn_desk.specs.View.{freed, published, spot};
ghost use Rattle.thread_board.specs.Register.{register};
ghost use Rattle.channel_desk.specs.Shared.{board_entries, history_of, kind_of, rests};
ghost use Rattle.channel_desk.specs.Holding.{IsLaid};
ghost use Rattle.channel_desk.specs.Turns.{Took, Waited};
ghost use Rattle.channel_desk.specs.Acting.{IsEnded, WasRefused};

use crate::Pass;
use crate::shared::Shared;
use std::sync::Wait;
use turn_desk::{Bell, Desk, Held};

/// State 0's end, where a turn isn't waited for any longer: the length of the board's history, the
/// place of that end in it, and the pass that has the object.
#[derive(Clone, Copy, Debug)]
pub(crate) struct Halt {
    pub(crate) board_place: u32,
    pub(crate) main_end: u32,
    pub(crate) seat: u32,
}

// The length of the board's history and the place of state 0's end in it, where state 0 has ended.
fn ended_on(board: &Shared) -> Option<(u32, u32)>
    ensures { IfSome result (λ (place, end). (place ≡ length (history_of board.now))
        × ((register (board_entries (history_of board.now))).main_end ≡ Some end)) }
{
    match board {
        Shared::Board(board) => {
            let end = board.ended()?;
            Some((board.history().len() as u32, end))
        }
        Shared::Channel(_) => None,
    }
}

// State 0's end, once it is there. A look at the board's tally tells that it is; then the board is
// taken for the place.
pub(crate) fn main_end<R: Wait>(rt: &R, desk: &Desk<Shared>, pass: &mut Pass) -> Option<(u32, u32)>
    requires laid { IsLaid desk.now pass.old }
    requires board { (spot pass.old.view 0).phase ≡ Free }
    ensures own { pass.new.desk ≡ pass.old.desk }
    ensures waited { Waited pass.old.view pass.new.view }
    ensures ended { IfSome result (λ (place, end). IsEnded pass.new.view place end) }
{
    let tally = desk.look(pass, 0);
    if tally.summary == 0 {
        return None;
    }
    let board = desk.hold(rt, pass, 0);
    let ended = ended_on(board.value());
    desk.release(pass, board);
    ended
}

// Takes an object, and waits while another pass has it.
pub(crate) fn take<R: Wait>(
    rt: &R,
    desk: &Desk<Shared>,
    pass: &mut Pass,
    object: u32,
) -> Held<Shared>
    requires laid { IsLaid desk.now pass.old }
    requires object { object ≤ 1024 }
    requires free { (spot pass.old.view object).phase ≡ Free }
    ensures own { pass.new.desk ≡ pass.old.desk }
    ensures object { result.object ≡ object }
    ensures took { Took pass.old.view pass.new.view object (history_of result.value) }
    ensures kind { 0 < object → kind_of result.value ≡ 0 }
    ensures fixed { kind_of result.value ≡ fixed_at pass.old.view object }
    ensures between { rests (history_of result.value) ≡ true }
{
    desk.hold(rt, pass, object)
}

// Takes an object that another pass may keep for long: once state 0 has ended, one more try is made
// and no wait follows.
pub(crate) fn take_or_halt<R: Wait>(
    rt: &R,
    desk: &Desk<Shared>,
    bell: &Bell,
    pass: &mut Pass,
    object: u32,
) -> Result<Held<Shared>, Halt>
    requires laid { IsLaid desk.now pass.old }
    requires board { (spot pass.old.view 0).phase ≡ Free }
    requires object { (0 < object) × (object ≤ 1024) }
    requires free { (spot pass.old.view object).phase ≡ Free }
    ensures own { pass.new.desk ≡ pass.old.desk }
    ensures object { IfOk result (λ held. held.object ≡ object) }
    ensures took { IfOk result
        (λ held. Took pass.old.view pass.new.view object (history_of held.value)) }
    ensures kind { IfOk result (λ held. kind_of held.value ≡ 0) }
    ensures between { IfOk result (λ held. rests (history_of held.value) ≡ true) }
    ensures waited { IfErr result (λ halt. Waited pass.old.view pass.new.view) }
    ensures ended { IfErr result
        (λ halt. IsEnded pass.new.view halt.board_place halt.main_end) }
    ensures refused { IfErr result
        (λ halt. WasRefused pass.old.view pass.new.view object halt.seat) }
{
    for _ in rt.forever() {
        let heard = bell.number(rt);
        let ended = main_end(rt, desk, pass);
        match desk.try_hold(pass, object) {
            Ok(held) => return Ok(held),
            Err(busy) => {
                if let Some((board_place, main_end)) = ended {
                    return Err(Halt {
                        board_place,
                        main_end,
                        seat: busy.seat,
                    });
                }
            }
        }
        bell.wait_past(rt, heard);
    }
    unreachable!()
}

// Gives an object back, and wakes those that wait for a change.
pub(crate) fn give<R: Wait>(
    rt: &R,
    desk: &Desk<Shared>,
    bell: &Bell,
    pass: &mut Pass,
    held: Held<Shared>,
)
    requires own { pass.old.desk ≡ desk.now }
    requires object { held.object < object_count desk.now }
    requires taken { (spot pass.old.view held.object).phase ≡ Taken }
    requires grown { IsPrefix (spot pass.old.view held.object).known (history_of held.value) }
    requires fixed { kind_of held.value ≡ fixed_at pass.old.view held.object }
    requires between { rests (history_of held.value) ≡ true }
    ensures own { pass.new.desk ≡ pass.old.desk }
    ensures gave { pass.new.view
        ≡ freed held.object (published held.object (history_of held.value) pass.old.view) }
    ensures front { (spot pass.old.view held.object).front ≤ length (history_of held.value) }
{
    desk.release(pass, held);
    bell.ring(rt);
}

//! What becomes of a wait at a place where it has no answer.
ghost use Rattle.std.specs.Prelude.{◌≡◌, ◌≢◌, IfOk, IfSome, Err};
ghost use Rattle.variant.specs.declared.action.Deed.TheVariants.{Asked};
ghost use Rattle.variant.specs.declared.action.Stop.{Stop as AStop};
ghost use Rattle.channel_core.specs.Answers.{run_out};
ghost use Rattle.channel_desk.specs.Awaiting.{IsGivenUp, IsLate};
ghost use Rattle.channel_desk.specs.declared.fault.ActFault.TheVariants.{Stopped as WasStopped, Memory as OutOfMemory};

use crate::fault::ActFault;
use love_base::Stamp;
use variant::{Action, Ask, Deed, Reply, Stop};

// What a wait is answered whose limit ran out.
fn reply_late(ask: &Ask) -> Reply
    ensures { result ≡ run_out (Asked ask.now) }
{
    match ask {
        Ask::Demand(_, _) => Reply::Nothing,
        _ => Reply::Flag(false),
    }
}

// A wait that has no answer at this place of its object: the state is stopped, where state 0 has
// ended; else it ends with these readings, where its limit ran out; else it goes on.
pub(crate) fn unanswered(
    by: Stamp,
    object: u32,
    place: u32,
    ask: Ask,
    ended: Option<(u32, u32)>,
    late: Option<(u64, u64)>,
) -> Result<Option<Action>, ActFault>
    ensures stopped { (stop : AStop) → result ≡ Err (WasStopped stop)
        → IsGivenUp object place ask ended stop }
    ensures no_memory { result ≢ Err OutOfMemory }
    ensures late { IfOk result
        (λ found. IfSome found (λ a. IsLate by object place ask late a)) }
{
    if let Some((board_place, main_end)) = ended {
        return Err(ActFault::Stopped(Stop {
            board_place,
            main_end,
            object,
            place,
            busy: None,
            ask,
        }));
    }
    let Some(readings) = late else {
        return Ok(None);
    };
    Ok(Some(Action {
        number: by.number,
        object,
        place,
        changed: false,
        reply: reply_late(&ask),
        deed: Deed::Asked(ask),
        readings: Some(readings),
    }))
}

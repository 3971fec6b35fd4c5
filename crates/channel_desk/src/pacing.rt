//! How long a wait with a limit lasts, by the readings of a clock.
ghost use Rattle.std.specs.Prelude.{IfSome};
ghost use Rattle.channel_desk.specs.Awaiting.{HaveRunOut};

use love_base::Pacer;
use std::sync::Wait;
use turn_desk::Bell;

// The first reading of a wait that has a limit.
pub(crate) fn first_reading<P: Pacer>(pacer: &P, limit: Option<u32>) -> Option<u64>
    ensures shown { IfSome result (λ n. P.shows pacer.now n) }
{
    match limit {
        Some(_) => Some(pacer.now()),
        None => None,
    }
}

// The first reading and the present one, if the limit, in seconds, ran out between them.
pub(crate) fn readings_past<P: Pacer>(
    pacer: &P,
    first: Option<u64>,
    limit: Option<u32>,
) -> Option<(u64, u64)>
    requires shown { IfSome first (λ n. P.shows pacer.now n) }
    ensures passed { IfSome result
        (λ readings. HaveRunOut (P.shows pacer.now) limit readings) }
{
    let first = first?;
    let seconds = limit?;
    let last = pacer.now();
    if u128::from(last) >= u128::from(first) + 1000 * u128::from(seconds) {
        Some((first, last))
    } else {
        None
    }
}

// Sleeps until the bell rings once more, or for a moment where there is a limit.
pub(crate) fn wait_on<R: Wait, P: Pacer>(
    rt: &R,
    bell: &Bell,
    heard: u64,
    pacer: &P,
    limit: Option<u32>,
) {
    match limit {
        Some(_) => pacer.pause(),
        None => bell.wait_past(rt, heard),
    }
}

//! Desks of a board and 1,024 Channels.
ghost use Rattle.std.specs.Prelude.{◌≡◌, ◌<◌, ◌≤◌, IfOk, length};
ghost use Rattle.turn_desk.specs.Passes.{object_count};
ghost use Rattle.channel_desk.specs.Opened.{AreLaid, laid_out};

use crate::{Pass, Shared};
use channel_core::Channel;
use love_base::Memory;
use std::alloc::Global;
use thread_board::Board;
use turn_desk::Desk;

// A board of one worker, and the Channels.
#[tactic(auto, using(crate::proofs::Opened::laid_more))]
fn objects(alloc: Global) -> Result<Vec<Shared>, Memory>
    ensures { IfOk result (λ objects. objects.items ≡ laid_out 1 1024) }
{
    let mut objects = Vec::with_capacity(alloc, 1025)?;
    objects.push(Shared::Board(Board::new(alloc, 1)?))?;
    for channels in 0..1024u32 {
        objects.push(Shared::Channel(Channel::new(alloc)))?;
        let _made = channels;
    }
    Ok(objects)
}

// A desk of these, with so many passes.
pub(super) fn opened(alloc: Global, seats: u32) -> Result<(Desk<Shared>, Vec<Pass>), Memory>
    requires seats { (0 < seats) × (seats ≤ 17) }
    ensures laid { IfOk result (λ made. AreLaid made.0 made.1.items) }
{
    let objects = objects(alloc)?;
    let (desk, passes) = Desk::new(alloc, objects, seats)?;
    Ok((desk, passes))
}

ghost use Rattle.std.specs.Prelude.{◌≡◌, ◌+◌, ◌*◌, ◌^◌, ◌<◌};
ghost use Rattle.channel_core.specs.History.{sent, received};
ghost use Rattle.channel_desk.specs.Shared.{packed};

use channel_core::{Channel, Entry};
use love_base::Stamp;
use thread_board::{Board, BoardEntry};
use turn_desk::Logged;

/// An object that states share through a desk.
#[derive(Debug, Drop)]
pub enum Shared {
    /// The board of names and Threads.
    Board(Board),
    /// A Channel.
    Channel(Channel),
}

/// One entry of a shared object's history.
#[derive(Debug, Drop)]
pub enum SharedEntry {
    /// Of the board's.
    Board(BoardEntry),
    /// Of a Channel's.
    Channel(Entry),
}

impl Logged for Shared {
    ghost use Rattle.channel_desk.specs.Shared.{history_of, kind_of, shared_of, summary_of, rests, stamp_of};
    ghost use Rattle.channel_desk.specs.Same.{replayed};

    type Entry = SharedEntry;

    ghost history = { history_of };

    ghost fixed_number = { kind_of };

    ghost replay = { shared_of };

    ghost summed = { summary_of };

    ghost between = { rests };

    ghost stamped = { stamp_of };

    #[tactic(auto, using(crate::proofs::Objects::length_fits))]
    fn length(&self) -> u32 {
        match self {
            Shared::Board(board) => board.history().len() as u32,
            Shared::Channel(channel) => channel.history().len() as u32,
        }
    }

    #[tactic(auto, using(crate::proofs::Objects::summary_board, crate::proofs::Objects::summary_channel))]
    fn summary(&self) -> u64 {
        match self {
            Shared::Board(board) => u64::from(board.ended().is_some()),
            Shared::Channel(channel) => counts_of(channel),
        }
    }

    #[tactic(auto, using(crate::proofs::Objects::rests_board, crate::proofs::Objects::rests_channel))]
    fn is_between(&self) -> bool {
        match self {
            Shared::Board(_) => true,
            Shared::Channel(channel) => channel.holder().is_none(),
        }
    }

    fn fixed(&self) -> u64 {
        match self {
            Shared::Board(board) => u64::from(board.workers()) + 1,
            Shared::Channel(_) => 0,
        }
    }

    fn stamp(entry: &SharedEntry) -> Stamp {
        match entry {
            SharedEntry::Board(entry) => entry.by,
            SharedEntry::Channel(entry) => entry.by,
        }
    }

    ghost replays = { replayed };
}

// The sent count in the higher 21 bits of 42, and the received count in the lower 21.
#[tactic(auto, using(crate::proofs::Objects::sent_fits, crate::proofs::Objects::received_fits, crate::proofs::Objects::packed_fits))]
fn counts_of(channel: &Channel) -> u64
    ensures counts { result ≡ packed (sent channel.now) (received channel.now) }
    ensures fits { result < 2 ^ 42 }
{
    let _lawful = channel.history();
    u64::from(channel.sent()) * (1 << 21) + u64::from(channel.received())
}

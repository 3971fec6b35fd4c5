//! Whether a stamp may follow the entries of a history. A state may have used several passes, so
//! that no other rule tells it.
ghost use Rattle.std.specs.Prelude.{◌≡◌, ℕ, true};
ghost use Rattle.channel_core.specs.Lawful.{IsLater as IsLaterOnChannel, IsLawful as IsLawfulChannel};
ghost use Rattle.thread_board.specs.Lawful.{IsLater as IsLaterOnBoard, IsLawful as IsLawfulBoard};

use channel_core::Entry;
use love_base::Stamp;
use thread_board::BoardEntry;

// Whether the stamp's number is greater than each of its state on the Channel, whose history is
// read from its end back to that state's last entry.
pub(crate) fn is_later_on_channel(history: &[Entry], by: Stamp) -> bool
    requires { IsLawfulChannel history.now }
    ensures later { result ≡ true → IsLaterOnChannel history.now by }
    ensures all { IsLaterOnChannel history.now by → result ≡ true }
{
    let mut at = history.len();
    while at > 0 {
        at -= 1;
        let last = history[at].by;
        if last.state == by.state {
            return last.number < by.number;
        }
    }
    true
}

// The same of the board with so many workers.
pub(crate) fn is_later_on_board(history: &[BoardEntry], by: Stamp) -> bool
    requires { (workers : ℕ) × IsLawfulBoard workers history.now }
    ensures later { result ≡ true → IsLaterOnBoard history.now by }
    ensures all { IsLaterOnBoard history.now by → result ≡ true }
{
    let mut at = history.len();
    while at > 0 {
        at -= 1;
        let last = history[at].by;
        if last.state == by.state {
            return last.number < by.number;
        }
    }
    true
}

ghost use Rattle.std.specs.Prelude.{◌≡◌};
ghost use Rattle.variant.specs.Fits.{fits};

use crate::{Ask, Reply};

/// Whether a reply is one of the kinds that an ask is answered by, in constant time. It takes no
/// memory.
///
/// | Ask | Reply |
/// |---|---|
/// | Push, Supply | Id, Refused |
/// | Pop, Demand | Value, Nothing, Refused |
/// | Peek | Value, Nothing |
/// | Count | Number |
/// | HasRead, IsRunning, Await | Flag |
/// | Start | Flag, Refused |
/// | Clear, Enter | Done, Refused |
/// | Leave, WaitFor, EventPush | Done |
/// | Name, NewChannel | Channel, Refused |
/// | NewThread | Thread, Refused |
/// | ErrorOf | Words, Nothing |
/// | EventPoll | Event, Nothing |
pub fn fits(ask: &Ask, reply: &Reply) -> bool
    ensures { result ≡ fits ask.now reply.now }
{
    match ask {
        Ask::Push(..) | Ask::Supply(..) => matches!(reply, Reply::Id(_) | Reply::Refused(_)),
        Ask::Pop(_) | Ask::Demand(..) => {
            matches!(reply, Reply::Value(_) | Reply::Nothing | Reply::Refused(_))
        }
        Ask::Peek(_) => matches!(reply, Reply::Value(_) | Reply::Nothing),
        Ask::Count(_) => matches!(reply, Reply::Number(_)),
        Ask::HasRead(..) | Ask::IsRunning(_) | Ask::Await(..) => matches!(reply, Reply::Flag(_)),
        Ask::Start(..) => matches!(reply, Reply::Flag(_) | Reply::Refused(_)),
        Ask::Clear(_) | Ask::Enter(_) => matches!(reply, Reply::Done | Reply::Refused(_)),
        Ask::Leave(_) | Ask::WaitFor(_) | Ask::EventPush(..) => matches!(reply, Reply::Done),
        Ask::Name(_) | Ask::NewChannel => matches!(reply, Reply::Channel(_) | Reply::Refused(_)),
        Ask::NewThread(_) => matches!(reply, Reply::Thread(_) | Reply::Refused(_)),
        Ask::ErrorOf(_) => matches!(reply, Reply::Words(_) | Reply::Nothing),
        Ask::EventPoll => matches!(reply, Reply::Event(_) | Reply::Nothing),
    }
}

//! What an ask comes to, with the reply twice.
ghost use Rattle.std.specs.Prelude.{◌≡◌, false};
ghost use Rattle.lua_state.specs.Answered.{IsRepeatable, given_of};

use channel_desk::Given;
use variant::{Reply, Variant};

// What an ask came to. The reply is there twice, so that the state is told what its record keeps.
#[derive(Debug, Drop)]
pub(crate) struct Answer {
    pub(crate) reply: Reply,
    pub(crate) copy: Reply,
    pub(crate) changed: bool,
}

// A reply that changes nothing.
pub(crate) fn only(reply: Reply) -> Given
    ensures { result ≡ record { reply = reply; changed = false } }
{
    Given {
        reply,
        changed: false,
    }
}

// A reply once more. Where it is a message, that is `front`.
fn again(reply: &Reply, front: Option<Variant>) -> Reply
    requires { IsRepeatable front reply.now }
    ensures { result ≡ reply.now }
{
    match reply {
        Reply::Done => Reply::Done,
        Reply::Nothing => Reply::Nothing,
        Reply::Flag(flag) => Reply::Flag(*flag),
        Reply::Id(id) => Reply::Id(*id),
        Reply::Number(number) => Reply::Number(*number),
        Reply::Value(_) => Reply::Value(front.unwrap()),
        Reply::Channel(channel) => Reply::Channel(*channel),
        Reply::Thread(thread) => Reply::Thread(*thread),
        Reply::Words(_) => unreachable!(),
        Reply::Event(_) => unreachable!(),
        Reply::Refused(refusal) => Reply::Refused(*refusal),
    }
}

// What was given, with the reply twice.
pub(crate) fn twice(given: Given, front: Option<Variant>) -> Answer
    requires { IsRepeatable front given.reply }
    ensures given { given_of result ≡ given }
    ensures copy { result.copy ≡ result.reply }
{
    let copy = again(&given.reply, front);
    Answer {
        reply: given.reply,
        copy,
        changed: given.changed,
    }
}

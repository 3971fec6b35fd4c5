//! The deeds of a state at an object that its pass has.
ghost use Rattle.std.specs.Prelude.{◌≡◌, ℕ, ◌++◌, ◌∷◌, [], Some, length};
ghost use Rattle.variant.specs.declared.action.Deed.TheVariants.{Asked, CutLeave};
ghost use Rattle.variant.specs.declared.ask.Ask.TheVariants.{Leave};
ghost use Rattle.variant.specs.declared.reply.Reply.TheVariants.{Done};
ghost use Rattle.channel_core.specs.declared.entry.Change.TheVariants.{Leave as Left};
ghost use Rattle.channel_core.specs.Answers.{adds, answer};
ghost use Rattle.channel_core.specs.History.{holder, leave_by};
ghost use Rattle.channel_core.specs.Lawful.{IsLater, IsLawful};
ghost use Rattle.channel_desk.specs.Deeds.{IsDeed, IsInside, IsPlaced, Outcome, message_of};
ghost use Rattle.channel_desk.specs.Shared.{history_of, kind_of, channel_in};

use crate::deeds::answer_ask;
use crate::given::Given;
use crate::shared::Shared;
use love_base::{Memory, Stamp};
use std::alloc::Global;
use turn_desk::{Held, Logged};
use variant::{Ask, Variant};

// What an ask comes to at the Channel that a pass has.
pub(crate) fn answer_held(
    alloc: Global,
    held: &mut Held<Shared>,
    by: Stamp,
    ask: &Ask,
    depth: u32,
    message: Option<Variant>,
) -> Result<Given, Memory>
    requires channel { kind_of held.old.value ≡ 0 }
    requires placed { IsPlaced (channel_in held.old.value) by depth }
    requires deed { IsDeed ask.now }
    requires inside { IsInside ask.now depth }
    requires message { message ≡ message_of ask.now }
    ensures object { held.new.object ≡ held.old.object }
    ensures kind { kind_of held.new.value ≡ 0 }
    ensures outcome { Outcome ask.now by depth
        (channel_in held.old.value) (channel_in held.new.value) result }
    ensures lawful { IsLawful (channel_in held.new.value) }
{
    match held.value_mut() {
        Shared::Channel(channel) => {
            let given = answer_ask(alloc, channel, by, ask, depth, message);
            let _lawful = channel.history();
            given
        }
        Shared::Board(_) => unreachable!(),
    }
}

// The state whose section the Channel is in leaves it. It gives the place of the new entry.
pub(crate) fn leave_held(held: &mut Held<Shared>, by: Stamp) -> u32
    requires channel { kind_of held.old.value ≡ 0 }
    requires inside { holder (channel_in held.old.value) ≡ Some by.state }
    requires later { IsLater (channel_in held.old.value) by }
    ensures object { held.new.object ≡ held.old.object }
    ensures kind { kind_of held.new.value ≡ 0 }
    ensures entry { channel_in held.new.value ≡ channel_in held.old.value ++ leave_by by ∷ [] }
    ensures place { result ≡ length (channel_in held.new.value) }
    ensures answer { (channel : ℕ) →
        answer (Asked (Leave channel)) by.state 1 (channel_in held.old.value)
        ≡ adds Done Left }
    ensures cut { (channel depth : ℕ) →
        answer (CutLeave channel) by.state depth (channel_in held.old.value)
        ≡ adds Done Left }
{
    match held.value_mut() {
        Shared::Channel(channel) => channel.leave(by),
        Shared::Board(_) => unreachable!(),
    }
}

// The length of a held object's history.
pub(crate) fn place_of(held: &Held<Shared>) -> u32
    ensures { result ≡ length (history_of held.now.value) }
{
    held.value().length()
}

ghost use Rattle.std.specs.Prelude.{◌≡◌};
ghost use Rattle.std.specs.Option.{option_copied};

use love_base::Stamp;
use variant::Variant;

/// One entry of a Channel's history.
#[derive(Debug, Drop)]
pub struct Entry {
    /// Whose action it was, and which one.
    pub by: Stamp,
    /// What it did.
    pub what: Change,
}

/// What an action did to a Channel.
#[derive(Debug, Drop)]
pub enum Change {
    /// It sent this message (LÖVE wiki, `Channel:push`).
    Put(Variant),
    /// It received the message that had waited longest (LÖVE wiki, `Channel:pop`).
    Take,
    /// It received all messages that waited (LÖVE wiki, `Channel:clear`).
    Clear,
    /// It began a section that no other state comes into (LÖVE wiki, `Channel:performAtomic`).
    Enter,
    /// It ended that section.
    Leave,
}

impl Change {
    ghost use Rattle.channel_core.specs.History.{sent_by};

    // The message that this change sends, if it sends one.
    pub(crate) fn message(&self) -> Option<&Variant>
        ensures { option_copied result ≡ sent_by self.now }
    {
        match self {
            Change::Put(message) => Some(message),
            Change::Take | Change::Clear | Change::Enter | Change::Leave => None,
        }
    }
}

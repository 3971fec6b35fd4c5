//! Laws of what `send` and `poll` say of pass 1, each the contract of a function that does nothing.
ghost use Rattle.std.specs.Prelude.{◌≡◌, ◌++◌, ℕ, List};
ghost use Rattle.event_queue.specs.Passes.{PassView};
ghost use Rattle.event_queue.specs.Calls.{Numbered, Made, Went, finds_nothing, sent_of, given_of, AreBefore, AreLater, AreRising, BearTheirs};

/// What pass 1 keeps at the beginning and is sent through it is what is given of it, in order,
/// followed by what it keeps at the end.
#[tactic(auto, using(crate::proofs::Calls::in_order))]
pub fn kept_in_order()
    ensures { (old new : PassView) (calls : List Numbered) → Went old calls new → old.number ≡ 1
        → old.kept ++ sent_of calls ≡ given_of calls ++ new.kept }
{}

/// Where a poll finds nothing, all that was sent through pass 1 before has been given.
pub fn none_waits()
    ensures { (old new next : PassView) (calls : List Numbered) → Went old calls new
        → old.number ≡ 1 → Made new finds_nothing next
        → given_of calls ≡ old.kept ++ sent_of calls }
{}

/// Where actions have rising numbers and their events bear these, a kept event is given by a later
/// action than the one that sent it.
#[tactic(auto, using(crate::proofs::Calls::later))]
pub fn given_later()
    ensures { (old new : PassView) (low : ℕ) (calls : List Numbered) → Went old calls new
        → old.number ≡ 1 → AreBefore low old.kept → AreRising low calls → BearTheirs calls
        → AreLater calls }
{}

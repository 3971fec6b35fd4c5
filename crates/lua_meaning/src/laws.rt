//! Laws of the definitions, each the contract of a function that does nothing.

ghost use Rattle.lua_meaning.specs.Laws.{EachGrows, RunsSpend, AsksAreFew, RepliesExtend, EndsStay, MessagesSeen};

/// No part of a program adds ticks, and its output grows only.
pub fn each_grows()
    ensures { EachGrows }
{}

/// A run leaves at most the ticks that it was given.
pub fn runs_spend()
    ensures { RunsSpend }
{}

/// A run's asks, with the one that waits for a reply, are at most twice the ticks that it took.
pub fn asks_are_few()
    ensures { AsksAreFew }
{}

/// With more replies, a run's asks and its output begin with those of the shorter run.
pub fn replies_extend()
    ensures { RepliesExtend }
{}

/// A run that doesn't wait for a reply is the same with more replies.
pub fn ends_stay()
    ensures { EndsStay }
{}

/// How the messages of crate `variant` are seen by the definitions, case by case.
pub fn messages_seen()
    ensures { MessagesSeen }
{}

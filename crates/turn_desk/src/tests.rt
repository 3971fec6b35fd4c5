//! Turns over ledgers, each a list of stamps of one of two kinds.

mod bells;
mod crowds;
mod desks;
mod ledger;
mod meetings;
mod visits;

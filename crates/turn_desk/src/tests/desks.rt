//! Desks of ledgers.
ghost use Rattle.std.specs.Prelude.{◌≡◌, ◌<◌, ◌≤◌, All, IfOk, length, vec_len};
ghost use Rattle.turn_desk.specs.Passes.{object_count};
ghost use Rattle.turn_desk.specs.Closing.{AreNumbered, IsReady};

use crate::tests::ledger::{Ledger, Stamps};
use crate::{Desk, Fronts, Pass};
use love_base::Memory;
use std::alloc::Global;

// A desk of eight empty ledgers, a main one and a side one in turn.
#[tactic(auto, using(crate::proofs::Callers::opening_ready, crate::proofs::Callers::opening_numbered, crate::proofs::Callers::opening_count))]
pub(super) fn opened(alloc: Global, seats: u32) -> Result<(Desk<Ledger>, Vec<Pass<Ledger>>), Memory>
    requires seats { (0 < seats) × (seats ≤ 17) }
    ensures objects { IfOk result (λ made. object_count made.0 ≡ 8) }
    ensures ready { IfOk result (λ made. All (IsReady made.0) made.1.items) }
    ensures numbered { IfOk result (λ made. AreNumbered made.1.items) }
    ensures all { IfOk result (λ made. length made.1.items ≡ made.0.seats) }
    ensures seats { IfOk result (λ made. made.0.seats ≡ seats) }
{
    let mut ledgers = Vec::with_capacity(alloc, 8)?;
    ledgers.push(Ledger::Main(Stamps::new(alloc)))?;
    ledgers.push(Ledger::Side(Stamps::new(alloc)))?;
    ledgers.push(Ledger::Main(Stamps::new(alloc)))?;
    ledgers.push(Ledger::Side(Stamps::new(alloc)))?;
    ledgers.push(Ledger::Main(Stamps::new(alloc)))?;
    ledgers.push(Ledger::Side(Stamps::new(alloc)))?;
    ledgers.push(Ledger::Main(Stamps::new(alloc)))?;
    ledgers.push(Ledger::Side(Stamps::new(alloc)))?;
    Desk::new(alloc, ledgers, seats)
}

// Closes a desk to which all passes are given back.
pub(super) fn closed(desk: Desk<Ledger>, passes: Vec<Pass<Ledger>>) -> (Vec<Ledger>, Fronts)
    requires ready { All (IsReady desk) passes.items }
    requires numbered { AreNumbered passes.items }
    requires all { vec_len passes ≡ desk.seats }
    ensures count { vec_len result.0 ≡ object_count desk }
    ensures seats { length result.1 ≡ desk.seats }
    ensures rows { All (λ row. length row ≡ object_count desk) result.1 }
{
    desk.close(passes)
}

//! Where a machine stands between two calls.

use crate::errand::Errand;
use variant::Ask;

// Where a machine stands between two calls.
#[derive(Debug, Drop)]
pub(crate) enum Standing {
    // It wasn't run yet.
    Fresh,
    // It waits for the reply to an ask, which is for an errand.
    Waits(Ask, Errand),
    // Its run is over.
    Over,
}

// An ask that is handed out, and where its machine stands then.
#[derive(Debug, Drop)]
pub(crate) struct Waiting {
    pub(crate) question: Ask,
    pub(crate) standing: Standing,
}

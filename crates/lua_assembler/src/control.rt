//! Instructions that go elsewhere: calls, what becomes of their results, jumps on, ticks, ends.

ghost use Rattle.std.specs.Prelude.{[], ◌∷◌, OnOk};
ghost use Rattle.lua_code.specs.Instr as i;
ghost use Rattle.lua_code.specs.View.{site_view};
ghost use Rattle.lua_assembler.specs.Writing.{Adds};

use crate::Writer;
use love_base::Memory;
use lua_code::{Instr, Site};

// A call whose first result goes to a slot.
#[tactic(auto, using(crate::proofs::Adding::one_put))]
pub(crate) fn invoke(
    w: &mut Writer,
    site: Site,
    to: u32,
    at: u32,
    count: u32,
    tailed: bool,
) -> Result<(), Memory>
    ensures { OnOk result (Adds
        (i.invoke (site_view site) (i.to_slot to) at count tailed ∷ [])
        w.old w.new) }
{
    w.put(
        Instr::Invoke {
            to,
            at,
            count,
            tailed,
        },
        site,
    )
}

/// A call of what is in the slot `at`, with `count` arguments behind it and, where `tailed`, the tail
/// behind them. All results go to the tail.
///
/// # Errors
///
/// [`Memory`] where there is no room for it.
#[tactic(auto, using(crate::proofs::Adding::one_put))]
pub fn invoke_all(
    w: &mut Writer,
    site: Site,
    at: u32,
    count: u32,
    tailed: bool,
) -> Result<(), Memory>
    ensures { OnOk result (Adds
        (i.invoke (site_view site) i.to_tail at count tailed ∷ [])
        w.old w.new) }
{
    w.put(Instr::InvokeAll { at, count, tailed }, site)
}

/// `count` slots from one on get the first values of the tail, or none of it where not `tailed`, and
/// nil where there are no more.
///
/// # Errors
///
/// [`Memory`] where there is no room for it.
#[tactic(auto, using(crate::proofs::Adding::one_put))]
pub fn spread(w: &mut Writer, site: Site, from: u32, count: u32, tailed: bool) -> Result<(), Memory>
    ensures { OnOk result (Adds (i.spread from count tailed ∷ []) w.old w.new) }
{
    w.put(
        Instr::Spread {
            from,
            count,
            tailed,
        },
        site,
    )
}

/// A tick.
///
/// # Errors
///
/// [`Memory`] where there is no room for it.
#[tactic(auto, using(crate::proofs::Adding::one_put))]
pub fn tick(w: &mut Writer, site: Site) -> Result<(), Memory>
    ensures { OnOk result (Adds (i.tick ∷ []) w.old w.new) }
{
    w.put(Instr::Tick, site)
}

/// A jump on, over so many instructions.
///
/// # Errors
///
/// [`Memory`] where there is no room for it.
#[tactic(auto, using(crate::proofs::Adding::one_put))]
pub fn skip(w: &mut Writer, site: Site, count: u32) -> Result<(), Memory>
    ensures { OnOk result (Adds (i.skip count ∷ []) w.old w.new) }
{
    w.put(Instr::Skip { count }, site)
}

// A jump on where a slot is true.
#[tactic(auto, using(crate::proofs::Adding::one_put))]
pub(crate) fn skip_if(w: &mut Writer, site: Site, from: u32, count: u32) -> Result<(), Memory>
    ensures { OnOk result (Adds (i.skip_if from count ∷ []) w.old w.new) }
{
    w.put(Instr::SkipIf { from, count }, site)
}

/// A jump on, over so many instructions, where a slot is false or nil.
///
/// # Errors
///
/// [`Memory`] where there is no room for it.
#[tactic(auto, using(crate::proofs::Adding::one_put))]
pub fn skip_unless(w: &mut Writer, site: Site, from: u32, count: u32) -> Result<(), Memory>
    ensures { OnOk result (Adds (i.skip_unless from count ∷ []) w.old w.new) }
{
    w.put(Instr::SkipUnless { from, count }, site)
}

/// The end of the function. Its results are `count` slots from one on and, where `tailed`, the tail
/// behind them.
///
/// # Errors
///
/// [`Memory`] where there is no room for it.
#[tactic(auto, using(crate::proofs::Adding::one_put))]
pub fn leave(w: &mut Writer, site: Site, from: u32, count: u32, tailed: bool) -> Result<(), Memory>
    ensures { OnOk result (Adds (i.leave from count tailed ∷ []) w.old w.new) }
{
    w.put(
        Instr::Leave {
            from,
            count,
            tailed,
        },
        site,
    )
}

//! Lists of expressions, of which the last may have any number of values.

ghost use Rattle.std.specs.Prelude.{◌≡◌, ◌+◌, map, IfOk};
ghost use Rattle.lua_tree.specs.View.{expr_view, exprs_of};
ghost use Rattle.lua_code.specs.Code.{count, tailed};

use crate::operands::is_many;
use love_base::Memory;
use lua_tree::Expr;

/// Whether the values of a list's last expression go to the tail. Takes constant time.
#[tactic(auto, using(crate::proofs::ListSteps::tailed_at))]
pub fn is_tailed(exprs: &[Expr]) -> bool
    ensures { result ≡ tailed (exprs_of (map expr_view exprs.now)) }
{
    let n = exprs.len();
    n > 0 && is_many(&exprs[n - 1])
}

// How many values of a list don't go to the tail.
#[tactic(auto, using(crate::proofs::ListSteps::count_at))]
fn lone_count(exprs: &[Expr]) -> usize
    ensures { result ≡ count (exprs_of (map expr_view exprs.now)) }
{
    let n = exprs.len();
    if n == 0 {
        return 0;
    }
    if is_many(&exprs[n - 1]) {
        return n - 1;
    }
    n
}

/// How many slots the values of a list have that don't go to the tail.
///
/// # Errors
///
/// [`Memory`] where those are more than slots are numbered.
pub fn count_of(exprs: &[Expr]) -> Result<u32, Memory>
    ensures { IfOk result (λ n. n ≡ count (exprs_of (map expr_view exprs.now))) }
{
    match u32::try_from(lone_count(exprs)) {
        Ok(slots) => Ok(slots),
        Err(_) => Err(Memory),
    }
}

/// So many values, as a number of slots.
///
/// # Errors
///
/// [`Memory`] where those are more than slots are numbered.
pub fn slots_of(n: usize) -> Result<u32, Memory>
    ensures { IfOk result (λ slots. slots ≡ n) }
{
    match u32::try_from(n) {
        Ok(slots) => Ok(slots),
        Err(_) => Err(Memory),
    }
}

/// Both together.
///
/// # Errors
///
/// [`Memory`] where that is more than slots are numbered.
pub fn sum(a: u32, b: u32) -> Result<u32, Memory>
    ensures { IfOk result (λ n. n ≡ a + b) }
{
    match a.checked_add(b) {
        Some(n) => Ok(n),
        None => Err(Memory),
    }
}

/// The slot so many behind one.
///
/// # Errors
///
/// [`Memory`] where it is past the last number of a slot.
pub fn slot_at(slot: u32, n: usize) -> Result<u32, Memory>
    ensures { IfOk result (λ at. at ≡ slot + n) }
{
    sum(slot, slots_of(n)?)
}

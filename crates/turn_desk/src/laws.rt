//! Laws of the definitions that [`crate::Desk::close`] cites, each the contract of a function that
//! does nothing.
ghost use Rattle.std.specs.Prelude.{◌≡◌, ◌≤◌, ℕ, List, [], true, slice_index};
ghost use lib.ListN.{get_elem?};
ghost use mathlib.Core.Option.{some};
ghost use Rattle.turn_desk.specs.declared.view.Action.{Action};
ghost use Rattle.turn_desk.specs.declared.view.Own.{Own};
ghost use Rattle.turn_desk.specs.declared.view.View.{View};
ghost use Rattle.turn_desk.specs.View.{spot};
ghost use Rattle.turn_desk.specs.Closing.{ActionsStand, EntriesStand};

/// No pass that is given back has a change that was noted with the fronts after it.
pub fn no_change_is_noted_late<E>()
    ensures { (v : View E) (k : ℕ) (a : Action) → get_elem? v.actions k ≡ some a
        → a.changed ≡ true → a.place ≤ slice_index a.fronts a.object → ¬ ActionsStand v }
{}

/// No pass that is given back made an entry that carries nothing.
pub fn no_entry_carries_nothing<E>()
    ensures { (v : View E) (o k : ℕ) (w : Own) (log : List E)
        → get_elem? (spot v o).own k ≡ some w → w.carries ≡ [] → ¬ EntriesStand v o log }
{}

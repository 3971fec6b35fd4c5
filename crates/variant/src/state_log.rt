ghost use Rattle.std.specs.Prelude.{◌≡◌, ◌+◌, ◌≤◌, ◌↔◌, [], ◌∷◌, ◌++◌, length, slice_get, IsTrue, OnOk, Option};
ghost use Rattle.std.specs.Option.{option_copied};
ghost use Rattle.variant.specs.Log.{MayFollow, HasPlace, UsesRoom};

use crate::{Action, Deed};
use love_base::Memory;
use std::alloc::Global;
use std::marker::Model;

// Puts an action into a place of its own.
fn fill(place: &mut Option<Action>, action: Action)
    ensures { place.new ≡ Option.Some action }
{
    *place = Some(action);
}

/// One state's actions, in order.
///
/// Room for actions is taken beforehand, so that to put one needs no memory. The first and the last
/// ones, as the deeds say, have places of their own and need no room.
#[derive(Debug, Drop)]
pub struct StateLog {
    begin: Option<Action>,
    asked: Vec<Action>,
    told: Option<Action>,
    end: Option<Action>,
}

// Contracts see a log as the list of its actions, and the number of those for which there is room.
impl Model for StateLog {
    ghost use Rattle.variant.specs.Log.{Log};
    ghost use Rattle.std.specs.Coded.{codes};
    ghost use Rattle.variant.specs.contracts.message.Variant as message;

    ghost Value = { Log };

    ghost coded = { Prim.hlevel (codes, message.the_row.coded) };

    ghost use Rattle.variant.specs.LogParts.{parts, IsSorted};
    ghost use Rattle.std.specs.Prelude.{◌-◌, length, vec_capacity};

    ghost view = { λ log. record {
      actions = parts log.begin log.asked.items log.told log.end;
      spare = vec_capacity log.asked - length log.asked.items;
    } };

    ghost invariant = { λ log. IsSorted log.told log.end };
}

impl StateLog {
    /// A log of nothing, which has room for nothing yet. It takes no memory.
    pub fn new(alloc: Global) -> StateLog
        ensures { result ≡ record { actions = []; spare = 0 } }
    {
        StateLog {
            begin: None,
            asked: Vec::new(alloc),
            told: None,
            end: None,
        }
    }

    /// Takes room for at least so many further actions, in amortised constant time for each.
    ///
    /// # Errors
    ///
    /// [`Memory`] where there is none.
    pub fn room(&mut self, more: u32) -> Result<(), Memory>
        ensures actions { self.new.actions ≡ self.old.actions }
        ensures room { OnOk result (more ≤ self.new.spare) }
        ensures kept { self.old.spare ≤ self.new.spare }
    {
        self.asked.reserve(more as usize)?;
        Ok(())
    }

    /// Puts an action behind the others, in constant time. It takes no memory.
    pub fn put(&mut self, action: Action)
        requires place { HasPlace action.deed self.old.spare }
        requires order { MayFollow self.old.actions action.deed }
        ensures actions { self.new.actions ≡ self.old.actions ++ action ∷ [] }
        ensures room { UsesRoom action.deed self.old.spare self.new.spare }
    {
        match action.deed {
            Deed::Begin => fill(&mut self.begin, action),
            Deed::Asked(_) | Deed::CutLeave(_) => self.asked.push(action).unwrap(),
            Deed::Told(_) => fill(&mut self.told, action),
            Deed::End(_) | Deed::MainEnd => fill(&mut self.end, action),
        }
    }

    /// How many actions there are, in constant time.
    pub fn len(&self) -> usize
        ensures { result ≡ length self.now.actions }
    {
        let begun = self.begin.is_some() as usize;
        let closed = self.told.is_some() as usize + self.end.is_some() as usize;
        begun + self.asked.len() + closed
    }

    /// Whether there are no actions, in constant time.
    pub fn is_empty(&self) -> bool
        ensures { IsTrue result ↔ (self.now.actions ≡ []) }
    {
        self.len() == 0
    }

    /// The action at a place, counted from 0; `None` past the end. Constant time.
    pub fn get(&self, at: usize) -> Option<&Action>
        ensures { option_copied result ≡ slice_get self.now.actions at }
    {
        let begun = self.begin.is_some() as usize;
        if at < begun {
            return self.begin.as_ref();
        }
        let at = at - begun;
        if at < self.asked.len() {
            return self.asked.get(at);
        }
        let at = at - self.asked.len();
        let told = self.told.is_some() as usize;
        if at < told {
            return self.told.as_ref();
        }
        match at - told {
            0 => self.end.as_ref(),
            _ => None,
        }
    }
}

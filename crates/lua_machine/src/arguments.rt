//! The arguments of a call: those that stand in slots, and more behind them.

ghost use Rattle.std.specs.Prelude.{◌≡◌, ◌+◌, ◌-◌, ◌<◌, ◌≤◌, ◌++◌, ◌∷◌, length, drop, slice_range, OnOk};
ghost use Rattle.lua_heap.specs.Heap.{IsMade};
ghost use Rattle.lua_code.specs.declared.instr.Instr.TheVariants.{Spread};
ghost use Rattle.lua_machine.specs.declared.status.Status.TheVariants.{Goes};
ghost use Rattle.lua_machine.specs.View.{value_at};
ghost use Rattle.lua_machine.specs.Arguments.{filled, behind_where, behind_of, given, extra_given};
ghost use Rattle.lua_machine.specs.Ready.{IsReadyFor};
ghost use Rattle.lua_machine.specs.Does.{Takes};

use crate::engine::Engine;
use love_base::Memory;
use lua_heap::Value;

// What comes behind the values in slots.
#[derive(Clone, Copy, Debug)]
pub(crate) enum Behind {
    Nothing,
    // The values of the last expression of a list.
    Tail,
    // The arguments that were put together.
    Args,
}

// A value of a list, nil behind the last one.
#[inline]
fn item(values: &[Value], n: usize) -> Value
    ensures { result ≡ value_at values.now n }
{
    match values.get(n) {
        Some(value) => *value,
        None => Value::Nil,
    }
}

// So many slots from a place on get values, and nil where there are no more.
#[inline]
#[tactic(auto, using(crate::proofs::InSlots::filled_start, crate::proofs::InSlots::filled_next, crate::proofs::InSlots::filled_none))]
fn fill(values: &mut Vec<Value>, at: usize, count: usize, more: &[Value])
    requires slots { at + count ≤ length values.old.items }
    ensures { values.new.items ≡ filled values.old.items at count more.now }
{
    for n in 0..count {
        values[at + n] = item(more, n);
    }
}

// The tail, where it is wanted.
#[inline]
pub(crate) fn behind_where(tailed: bool) -> Behind
    ensures { result ≡ behind_where tailed }
{
    if tailed {
        Behind::Tail
    } else {
        Behind::Nothing
    }
}

impl<'a> Engine<'a> {
    // So many slots from a place on get the values behind others, and nil where there are no more.
    #[inline]
    pub(crate) fn fill_slots(&mut self, at: usize, count: usize, behind: Behind)
        requires slots { at + count ≤ length self.old.values }
        ensures { self.new ≡ record self.old {
          values = filled self.old.values at count (behind_of behind self.old);
        } }
    {
        match behind {
            Behind::Nothing => fill(&mut self.values, at, count, &[]),
            Behind::Tail => fill(&mut self.values, at, count, self.tail.as_slice()),
            Behind::Args => fill(&mut self.values, at, count, self.args.as_slice()),
        }
    }

    // Values of slots come to the end of the extra arguments.
    fn keep_slots(&mut self, from: usize, to: usize) -> Result<(), Memory>
        requires order { from ≤ to }
        requires slots { to ≤ length self.old.values }
        ensures { OnOk result (self.new ≡ record self.old {
          extras = self.old.extras ++ slice_range self.old.values from to;
        }) }
    {
        self.extras.extend_from_slice(&self.values[from..to])?;
        Ok(())
    }

    // So do the values behind others, but for the first ones.
    #[tactic(auto, using(crate::proofs::InSlots::kept_rest, crate::proofs::InSlots::kept_none))]
    fn keep_behind(&mut self, skipped: usize, behind: Behind) -> Result<(), Memory>
        ensures { OnOk result (self.new ≡ record self.old {
          extras = self.old.extras ++ drop skipped (behind_of behind self.old);
        }) }
    {
        match behind {
            Behind::Nothing => Ok(()),
            Behind::Tail => {
                let from = skipped.min(self.tail.len());
                self.extras.extend_from_slice(&self.tail[from..])?;
                Ok(())
            }
            Behind::Args => {
                let from = skipped.min(self.args.len());
                self.extras.extend_from_slice(&self.args[from..])?;
                Ok(())
            }
        }
    }

    // The arguments behind the parameters are kept, where the function keeps them.
    #[inline]
    #[tactic(auto, using(crate::proofs::InSlots::kept_both, crate::proofs::InSlots::kept_later))]
    pub(crate) fn keep_extra(
        &mut self,
        varargs: bool,
        params: usize,
        first: usize,
        count: usize,
        behind: Behind,
    ) -> Result<(), Memory>
        requires slots { first + count ≤ length self.old.values }
        ensures { OnOk result (self.new ≡ record self.old {
          extras = self.old.extras ++ extra_given varargs params (given self.old first count behind);
        }) }
    {
        if !varargs {
            return Ok(());
        }
        let _values = &self.values;
        if params >= count {
            return self.keep_behind(params - count, behind);
        }
        self.keep_slots(first + params, first + count)?;
        self.keep_behind(0, behind)
    }

    // What comes behind the values in slots is put at the end of a list.
    fn put_behind(&self, all: &mut Vec<Value>, behind: Behind) -> Result<(), Memory>
        ensures { OnOk result (all.new.items ≡ all.old.items ++ behind_of behind self.now) }
    {
        match behind {
            Behind::Nothing => {}
            Behind::Tail => all.extend_from_slice(self.tail.as_slice())?,
            Behind::Args => all.extend_from_slice(self.args.as_slice())?,
        }
        Ok(())
    }

    // The arguments are put together.
    #[inline]
    pub(crate) fn put_args(
        &mut self,
        first: usize,
        count: usize,
        behind: Behind,
    ) -> Result<(), Memory>
        requires slots { first + count ≤ length self.old.values }
        ensures { OnOk result (self.new ≡ record self.old {
          args = given self.old first count behind;
        }) }
    {
        let _values = &self.values;
        let end = first + count;
        if let Behind::Args = behind {
            let mut all = Vec::from_slice(self.alloc, &self.values[first..end])?;
            all.extend_from_slice(self.args.as_slice())?;
            self.args = all;
            return Ok(());
        }
        self.args.clear();
        self.args.extend_from_slice(&self.values[first..end])?;
        if let Behind::Tail = behind {
            self.args.extend_from_slice(self.tail.as_slice())?;
        }
        Ok(())
    }

    // A value comes before the arguments, which are put together.
    #[inline(never)]
    pub(crate) fn put_before(
        &mut self,
        value: Value,
        first: usize,
        count: usize,
        behind: Behind,
    ) -> Result<(), Memory>
        requires slots { first + count ≤ length self.old.values }
        requires made { IsMade self.old.heap value }
        ensures { OnOk result (self.new ≡ record self.old {
          args = value ∷ given self.old first count behind;
        }) }
    {
        let _values = &self.values;
        let end = first + count;
        let mut all = Vec::new(self.alloc);
        all.push(value)?;
        all.extend_from_slice(&self.values[first..end])?;
        self.put_behind(&mut all, behind)?;
        self.args = all;
        Ok(())
    }

    // Slots get values of the tail, or none of it.
    pub(crate) fn spread(&mut self, from: u32, count: u32, tailed: bool)
        requires ready { IsReadyFor (Spread from count tailed) self.old }
        ensures { Takes (Spread from count tailed) Goes self.old self.new }
    {
        let behind = behind_where(tailed);
        let _values = &self.values;
        self.fill_slots(self.base + from as usize, count as usize, behind);
        self.pass();
    }
}

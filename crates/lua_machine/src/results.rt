//! Results, and the end of a function.

ghost use Rattle.std.specs.Prelude.{◌≡◌, ◌+◌, ◌<◌, ◌≤◌, ◌^◌, length, map, OnOk, IfOk};
ghost use Rattle.lua_meaning.specs.Value.{first as first_of};
ghost use Rattle.lua_heap.specs.Heap.{IsMade};
ghost use Rattle.lua_heap.specs.Value.{value_view};
ghost use Rattle.lua_code.specs.declared.instr.Instr.TheVariants.{Leave};
ghost use Rattle.lua_machine.specs.Results.{held_at, results_at, received_values, truth, WantsOne, Gathers};
ghost use Rattle.lua_machine.specs.Ready.{WantsFit, AreFit, IsReadyFor};
ghost use Rattle.lua_machine.specs.Does.{Takes};
ghost use Rattle.lua_machine.specs.Frames.{IsTop};
ghost use Rattle.lua_machine.specs.Serving.{Delivers};
ghost use Rattle.lua_machine.specs.declared.frame.Role.TheVariants.{Waits};
ghost use Rattle.lua_machine.specs.declared.status.Status.TheVariants.{Goes};

use crate::arguments::behind_where;
use crate::engine::Engine;
use crate::frame::{Frame, Role, Wants};
use crate::status::Status;
use love_base::Memory;
use lua_heap::Value;
use lua_operators::is_true;

impl<'a> Engine<'a> {
    // The first of the values from a slot of the list on, and of the tail where it is wanted.
    #[inline]
    fn first_of(&self, first: usize, count: u32, tailed: bool) -> Value
        requires slots { first + count ≤ length self.now.values }
        ensures value { value_view self.now.heap.texts result
            ≡ first_of (results_at self.now first count tailed) }
        ensures made { IsMade self.now.heap result }
    {
        if count > 0 {
            return self.values[first];
        }
        if tailed && !self.tail.is_empty() {
            return self.tail[0];
        }
        Value::Nil
    }

    // The tail gets these values.
    fn gather(&mut self, first: usize, count: u32, tailed: bool) -> Result<(), Memory>
        requires slots { first + count ≤ length self.old.values }
        ensures { OnOk result (self.new
            ≡ record self.old { tail = held_at self.old first count tailed }) }
    {
        let _values = &self.values;
        let end = first + count as usize;
        if tailed {
            let mut all = Vec::from_slice(self.alloc, &self.values[first..end])?;
            all.extend_from_slice(self.tail.as_slice())?;
            self.tail = all;
        } else {
            self.tail.clear();
            self.tail.extend_from_slice(&self.values[first..end])?;
        }
        Ok(())
    }

    // A function that went on gets the first result.
    #[inline]
    fn receive(&mut self, wants: Wants, value: Value)
        requires one { WantsOne wants }
        requires fits { WantsFit self.old.base (length self.old.values) wants }
        requires made { IsMade self.old.heap value }
        ensures { self.new ≡ record self.old { values = received_values wants value self.old } }
    {
        match wants {
            Wants::ToSlot(n) => {
                let at = self.base + n as usize;
                self.values[at] = value;
            }
            Wants::TruthTo(n) => {
                let at = self.base + n as usize;
                self.values[at] = Value::Bool(is_true(&value));
            }
            Wants::UntruthTo(n) => {
                let at = self.base + n as usize;
                self.values[at] = Value::Bool(!is_true(&value));
            }
            Wants::Nothing | Wants::ToTail => {}
        }
    }

    // The results of the running function go to the frames that wait, put together as arguments are.
    fn give(&mut self, first: usize, count: u32, tailed: bool) -> Result<Status, Memory>
        requires slots { first + count ≤ length self.old.values }
        ensures { IfOk result (λ status. Gathers first count tailed status self.old self.new) }
    {
        self.put_args(first, count as usize, behind_where(tailed))?;
        Ok(Status::Gives)
    }

    // The running function ends.
    pub(crate) fn leave(&mut self, from: u32, count: u32, tailed: bool) -> Result<Status, Memory>
        requires ready { IsReadyFor (Leave from count tailed) self.old }
        ensures { IfOk result (λ status. Takes (Leave from count tailed) status self.old self.new) }
    {
        let first = self.base + from as usize;
        let Some(frame) = self.top() else {
            return self.give(first, count, tailed);
        };
        let Role::Waits(wants) = frame.role else {
            return self.give(first, count, tailed);
        };
        self.resume(frame);
        if let Wants::ToTail = wants {
            self.gather(first, count, tailed)?;
            return Ok(Status::Goes);
        }
        let value = self.first_of(first, count, tailed);
        self.receive(wants, value);
        Ok(Status::Goes)
    }

    // The first of the results that were put together as arguments are.
    pub(crate) fn first_arg(&self) -> Value
        ensures value { value_view self.now.heap.texts result
            ≡ first_of (map (value_view self.now.heap.texts) self.now.args) }
        ensures made { IsMade self.now.heap result }
    {
        match self.args.get(0) {
            Some(value) => *value,
            None => Value::Nil,
        }
    }

    // The tail gets all of them.
    fn keep_args(&mut self) -> Result<(), Memory>
        ensures { OnOk result (self.new ≡ record self.old { tail = self.old.args }) }
    {
        self.tail.clear();
        self.tail.extend_from_slice(self.args.as_slice())?;
        Ok(())
    }

    // The function of Lua on top gets them, and goes on.
    pub(crate) fn receive_args(&mut self, frame: Frame, wants: Wants) -> Result<(), Memory>
        requires top { IsTop (Some frame) self.old.frames }
        requires waits { frame.role ≡ Waits wants }
        requires fit { AreFit self.old }
        ensures { OnOk result (Delivers Goes self.old self.new) }
    {
        let _frames = &self.frames;
        self.resume(frame);
        if let Wants::ToTail = wants {
            return self.keep_args();
        }
        let value = self.first_arg();
        self.receive(wants, value);
        Ok(())
    }
}

//! Calls of values (Lua 5.1 manual §2.5.8, §2.8).

ghost use Rattle.std.specs.Prelude.{◌≡◌, List, IfOk};
ghost use Rattle.lua_tree.specs.Tree.{Bytes};
ghost use Rattle.lua_meaning.specs.Fault.{call_text};
ghost use Rattle.lua_heap.specs.Value.{value_view};
ghost use Rattle.lua_heap.specs.Heap.{IsMade};
ghost use Rattle.lua_heap.specs.Native.{native_view};
ghost use Rattle.lua_code.specs.declared.instr.Instr.TheVariants.{Invoke, InvokeAll};
ghost use Rattle.lua_code.specs.Frames.{built_in};
ghost use Rattle.lua_machine.specs.Ready.{AreFit, IsReady, IsReadyFor};
ghost use Rattle.lua_machine.specs.Does.{Takes};
ghost use Rattle.lua_machine.specs.Errors.{Raised};
ghost use Rattle.lua_machine.specs.Callees.{callee_at};
ghost use Rattle.lua_machine.specs.Entering.{HasFunction, CanCall};
ghost use Rattle.lua_machine.specs.Calling.{IsNoFunction, IsCallee, EntersAs, CallsAs};

use crate::arguments::{Behind, behind_where};
use crate::engine::Engine;
use crate::frame::Wants;
use crate::status::Status;
use love_base::Memory;
use lua_heap::{FuncId, Native, Value};
use lua_operators::{Event, TypeName};
use std::alloc::Global;

// What a call of a value runs.
#[derive(Clone, Copy, Debug)]
pub(crate) enum Callee {
    // A function of Lua, on the arguments.
    Runs(FuncId),
    // The same, on the value and the arguments.
    Handles(FuncId),
    // A function of the library, in the same two ways.
    Library(Native),
    HandlesLibrary(Native),
    // It can't be called.
    Nothing,
}

// How many calls may be active.
pub(crate) const MOST_CALLS: usize = 4096;

// What a call of a value says that can't be called.
pub(crate) fn refusal_text(alloc: Global, value: &Value) -> Result<Vec<u8>, Memory>
    ensures { IfOk result (λ text. (texts : List Bytes) →
        text.items ≡ call_text (value_view texts value.now)) }
{
    let mut text = Vec::from_slice(alloc, b"attempt to call a ")?;
    text.extend_from_slice(TypeName::of(value).text())?;
    text.extend_from_slice(b" value")?;
    Ok(text)
}

impl<'a> Engine<'a> {
    // What a call of a value runs.
    #[inline]
    pub(crate) fn callee(&self, value: &Value) -> Callee
        requires fit { AreFit self.now }
        requires made { IsMade self.now.heap value.now }
        ensures { IsCallee result value.now self.now }
    {
        match *value {
            Value::Func(id) => Callee::Runs(id),
            Value::Native(native) => Callee::Library(native),
            _ => self.handling_callee(value),
        }
    }

    // The same, where it is no function.
    #[inline(never)]
    fn handling_callee(&self, value: &Value) -> Callee
        requires fit { AreFit self.now }
        requires made { IsMade self.now.heap value.now }
        requires other { IsNoFunction value.now }
        ensures { IsCallee result value.now self.now }
    {
        match self.events.handler(&self.heap, value, Event::Call) {
            Value::Func(id) => Callee::Handles(id),
            Value::Native(native) => Callee::HandlesLibrary(native),
            _ => Callee::Nothing,
        }
    }

    // Calls a function of Lua: a call takes its tick, and then the limit on active calls is tested.
    #[inline]
    fn call_function(
        &mut self,
        wants: Wants,
        id: FuncId,
        first: usize,
        count: usize,
        behind: Behind,
    ) -> Result<Status, Memory>
        requires function { HasFunction self.old id }
        requires ready { CanCall wants first count self.old }
        ensures { IfOk result (λ status. EntersAs wants (callee_at self.old id) first count behind
            status self.old self.new) }
    {
        if self.ticks == 0 {
            return Ok(Status::NoTick);
        }
        self.ticks -= 1;
        if self.frames.len() >= MOST_CALLS {
            let value = self.error(b"stack overflow")?;
            return Ok(Status::Raises(value));
        }
        self.enter(wants, id, first, count, behind)?;
        Ok(Status::Goes)
    }

    // Calls a function of the library, which takes its tick and counts as active too.
    #[inline(never)]
    fn call_library(
        &mut self,
        wants: Wants,
        native: Native,
        first: usize,
        count: usize,
        behind: Behind,
    ) -> Result<Status, Memory>
        requires ready { CanCall wants first count self.old }
        ensures { IfOk result (λ status. EntersAs wants (built_in (native_view native)) first count
            behind status self.old self.new) }
    {
        if self.ticks == 0 {
            return Ok(Status::NoTick);
        }
        self.ticks -= 1;
        if self.frames.len() >= MOST_CALLS {
            let value = self.error(b"stack overflow")?;
            return Ok(Status::Raises(value));
        }
        self.enter_library(wants, first, count, behind)?;
        Ok(Status::Serves(native))
    }

    // The error of a value that can't be called.
    #[inline(never)]
    fn call_error(&mut self, value: &Value) -> Result<Value, Memory>
        requires ready { IsReady self.old }
        ensures { IfOk result (λ error. Raised
            (call_text (value_view self.old.heap.texts value.now)) error self.old self.new) }
    {
        let text = refusal_text(self.alloc, value)?;
        self.error(text.as_slice())
    }

    // Calls a value, on the values of slots and those behind them. The slots from the first of these
    // on are free for what is called.
    #[inline]
    pub(crate) fn call(
        &mut self,
        wants: Wants,
        value: Value,
        first: usize,
        count: usize,
        behind: Behind,
    ) -> Result<Status, Memory>
        requires made { IsMade self.old.heap value }
        requires ready { CanCall wants first count self.old }
        ensures { IfOk result (λ status. CallsAs wants value first count behind status self.old self.new) }
    {
        match self.callee(&value) {
            Callee::Runs(id) => self.call_function(wants, id, first, count, behind),
            Callee::Handles(id) => {
                self.put_before(value, first, count, behind)?;
                self.call_function(wants, id, first, 0, Behind::Args)
            }
            Callee::Library(native) => self.call_library(wants, native, first, count, behind),
            Callee::HandlesLibrary(native) => {
                self.put_before(value, first, count, behind)?;
                self.call_library(wants, native, first, 0, Behind::Args)
            }
            Callee::Nothing => {
                let error = self.call_error(&value)?;
                Ok(Status::Raises(error))
            }
        }
    }

    #[inline]
    pub(crate) fn invoke(
        &mut self,
        to: u32,
        at: u32,
        count: u32,
        tailed: bool,
    ) -> Result<Status, Memory>
        requires ready { IsReadyFor (Invoke to at count tailed) self.old }
        ensures { IfOk result (λ status. Takes (Invoke to at count tailed) status self.old self.new) }
    {
        let value = self.at(at);
        let first = self.base + at as usize + 1;
        self.call(
            Wants::ToSlot(to),
            value,
            first,
            count as usize,
            behind_where(tailed),
        )
    }

    #[inline]
    pub(crate) fn invoke_all(&mut self, at: u32, count: u32, tailed: bool) -> Result<Status, Memory>
        requires ready { IsReadyFor (InvokeAll at count tailed) self.old }
        ensures { IfOk result (λ status. Takes (InvokeAll at count tailed) status self.old self.new) }
    {
        let value = self.at(at);
        let first = self.base + at as usize + 1;
        self.call(
            Wants::ToTail,
            value,
            first,
            count as usize,
            behind_where(tailed),
        )
    }
}

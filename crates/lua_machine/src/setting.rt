//! Fields set (Lua 5.1 manual §2.4.3, §2.8).

ghost use Rattle.std.specs.Prelude.{◌+◌, ◌<◌, ◌^◌, IfOk};
ghost use Rattle.lua_meaning.specs.Fault.{index_text};
ghost use Rattle.lua_heap.specs.Value.{value_view};
ghost use Rattle.lua_heap.specs.Heap.{IsMade};
ghost use Rattle.lua_heap.specs.Index.{setting_view, IsMadeStore};
ghost use Rattle.lua_code.specs.declared.instr.Instr.TheVariants.{SetField, SetFieldConst, SetNamed, SetNamedConst, SetGlobal, SetGlobalConst};
ghost use Rattle.lua_machine.specs.Ready.{IsReady, IsReadyFor};
ghost use Rattle.lua_machine.specs.Does.{Takes};
ghost use Rattle.lua_machine.specs.Errors.{Raised};
ghost use Rattle.lua_machine.specs.Settled.{GoesOn, StoresAs, Sets};

use crate::engine::Engine;
use crate::frame::Wants;
use crate::status::Status;
use love_base::Memory;
use lua_heap::{Store, Value};
use lua_operators::{Fault, TypeName};

impl<'a> Engine<'a> {
    // The error of a value without fields.
    #[inline(never)]
    fn index_error(&mut self, value: Value) -> Result<Value, Memory>
        requires ready { IsReady self.old }
        ensures { IfOk result (λ error. Raised
            (index_text (value_view self.old.heap.texts value)) error self.old self.new) }
    {
        self.fault(Fault::Index(TypeName::of(&value)))
    }

    // Does what setting a field comes to.
    fn store(&mut self, found: Store, key: Value, value: Value) -> Result<Status, Memory>
        requires ready { IsReady self.old }
        requires leads { GoesOn self.old }
        requires pc { self.old.pc + 1 < 2 ^ 32 }
        requires found { IsMadeStore self.old.heap found }
        requires key { IsMade self.old.heap key }
        requires value { IsMade self.old.heap value }
        ensures { IfOk result (λ status. StoresAs (setting_view self.old.heap.texts found)
            key value status self.old self.new) }
    {
        match found {
            Store::Raw(id) => self.put_raw(id, key, value),
            Store::Ask(handler, at) => self.handle(Wants::Nothing, handler, &[at, key, value]),
            Store::Not(other) => {
                let error = self.index_error(other)?;
                Ok(Status::Raises(error))
            }
            Store::Loop => {
                let error = self.fault(Fault::IndexLoop)?;
                Ok(Status::Raises(error))
            }
        }
    }

    // A field of a value is set.
    #[inline]
    fn set(&mut self, base: Value, key: &Value, value: Value) -> Result<Status, Memory>
        requires ready { IsReady self.old }
        requires leads { GoesOn self.old }
        requires pc { self.old.pc + 1 < 2 ^ 32 }
        requires base { IsMade self.old.heap base }
        requires key { IsMade self.old.heap key.now }
        requires value { IsMade self.old.heap value }
        ensures { IfOk result (λ status. Sets base key.now value status self.old self.new) }
    {
        let found = self.heap.new_index(base, *key);
        self.store(found, *key, value)
    }

    pub(crate) fn set_field(&mut self, base: u32, key: u32, from: u32) -> Result<Status, Memory>
        requires ready { IsReadyFor (SetField base key from) self.old }
        ensures { IfOk result (λ status.
            Takes (SetField base key from) status self.old self.new) }
    {
        let base = self.at(base);
        let key = self.at(key);
        let value = self.at(from);
        self.set(base, &key, value)
    }

    pub(crate) fn set_field_const(&mut self, base: u32, key: u32, n: u32) -> Result<Status, Memory>
        requires ready { IsReadyFor (SetFieldConst base key n) self.old }
        ensures { IfOk result (λ status.
            Takes (SetFieldConst base key n) status self.old self.new) }
    {
        let base = self.at(base);
        let key = self.at(key);
        let value = self.constant(n);
        self.set(base, &key, value)
    }

    pub(crate) fn set_named(&mut self, base: u32, name: u32, from: u32) -> Result<Status, Memory>
        requires ready { IsReadyFor (SetNamed base name from) self.old }
        ensures { IfOk result (λ status.
            Takes (SetNamed base name from) status self.old self.new) }
    {
        let base = self.at(base);
        let key = self.constant(name);
        let value = self.at(from);
        self.set(base, &key, value)
    }

    pub(crate) fn set_named_const(&mut self, base: u32, name: u32, n: u32) -> Result<Status, Memory>
        requires ready { IsReadyFor (SetNamedConst base name n) self.old }
        ensures { IfOk result (λ status.
            Takes (SetNamedConst base name n) status self.old self.new) }
    {
        let base = self.at(base);
        let key = self.constant(name);
        let value = self.constant(n);
        self.set(base, &key, value)
    }

    pub(crate) fn set_global(&mut self, name: u32, from: u32) -> Result<Status, Memory>
        requires ready { IsReadyFor (SetGlobal name from) self.old }
        ensures { IfOk result (λ status. Takes (SetGlobal name from) status self.old self.new) }
    {
        let base = Value::Table(self.heap.globals());
        let key = self.constant(name);
        let value = self.at(from);
        self.set(base, &key, value)
    }

    pub(crate) fn set_global_const(&mut self, name: u32, n: u32) -> Result<Status, Memory>
        requires ready { IsReadyFor (SetGlobalConst name n) self.old }
        ensures { IfOk result (λ status.
            Takes (SetGlobalConst name n) status self.old self.new) }
    {
        let base = Value::Table(self.heap.globals());
        let key = self.constant(name);
        let value = self.constant(n);
        self.set(base, &key, value)
    }
}

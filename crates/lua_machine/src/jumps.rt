//! Jumps and ticks.

ghost use Rattle.std.specs.Prelude.{◌≡◌, ◌+◌, ◌<◌, ◌≤◌, ◌^◌};
ghost use Rattle.lua_code.specs.declared.instr.Instr.TheVariants.{Tick, Skip, SkipIf, SkipUnless, BackIf, BackUnless};
ghost use Rattle.lua_meaning.specs.Value.{is_true};
ghost use Rattle.lua_heap.specs.Value.{value_view};
ghost use Rattle.lua_machine.specs.declared.status.Status.TheVariants.{Goes};
ghost use Rattle.lua_machine.specs.View.{value_at};
ghost use Rattle.lua_machine.specs.Ready.{IsReadyFor};
ghost use Rattle.lua_machine.specs.Does.{Takes, HasSlot};

use crate::engine::Engine;
use crate::status::Status;
use lua_heap::Value;

impl<'a> Engine<'a> {
    // Whether a slot is true.
    #[inline]
    pub(crate) fn is_true(&self, slot: u32) -> bool
        requires slot { HasSlot self.now slot }
        ensures { result ≡ is_true (value_view self.now.heap.texts
            (value_at self.now.values (self.now.base + slot))) }
    {
        match self.at(slot) {
            Value::Nil | Value::Bool(false) => false,
            _ => true,
        }
    }

    #[inline]
    pub(crate) fn tick(&mut self) -> Status
        requires ready { IsReadyFor Tick self.old }
        ensures { Takes Tick result self.old self.new }
    {
        if self.ticks == 0 {
            return Status::NoTick;
        }
        self.ticks -= 1;
        self.pc += 1;
        Status::Goes
    }

    #[inline]
    pub(crate) fn skip(&mut self, count: u32)
        requires ready { IsReadyFor (Skip count) self.old }
        ensures { Takes (Skip count) Goes self.old self.new }
    {
        self.pc += 1 + count as usize;
    }

    #[inline]
    pub(crate) fn skip_if(&mut self, from: u32, count: u32)
        requires ready { IsReadyFor (SkipIf from count) self.old }
        ensures { Takes (SkipIf from count) Goes self.old self.new }
    {
        if self.is_true(from) {
            self.pc += 1 + count as usize;
        } else {
            self.pc += 1;
        }
    }

    #[inline]
    pub(crate) fn skip_unless(&mut self, from: u32, count: u32)
        requires ready { IsReadyFor (SkipUnless from count) self.old }
        ensures { Takes (SkipUnless from count) Goes self.old self.new }
    {
        if self.is_true(from) {
            self.pc += 1;
        } else {
            self.pc += 1 + count as usize;
        }
    }

    #[inline]
    pub(crate) fn back_if(&mut self, from: u32, count: u32) -> Status
        requires ready { IsReadyFor (BackIf from count) self.old }
        ensures { Takes (BackIf from count) result self.old self.new }
    {
        if !self.is_true(from) {
            self.pc += 1;
            return Status::Goes;
        }
        if self.ticks == 0 {
            return Status::NoTick;
        }
        self.ticks -= 1;
        self.pc -= count as usize;
        Status::Goes
    }

    #[inline]
    pub(crate) fn back_unless(&mut self, from: u32, count: u32) -> Status
        requires ready { IsReadyFor (BackUnless from count) self.old }
        ensures { Takes (BackUnless from count) result self.old self.new }
    {
        if self.is_true(from) {
            self.pc += 1;
            return Status::Goes;
        }
        if self.ticks == 0 {
            return Status::NoTick;
        }
        self.ticks -= 1;
        self.pc -= count as usize;
        Status::Goes
    }
}

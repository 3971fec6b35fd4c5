//! Frames that wait, and go on.

ghost use Rattle.std.specs.Prelude.{◌≡◌, ◌+◌, ◌<◌, ◌^◌, length, Some, OnOk, OnErr};
ghost use Rattle.lua_machine.specs.View.{protos_at};
ghost use Rattle.lua_machine.specs.Frames.{pushed, IsTop, WentOn, WasTakenOff};
ghost use Rattle.lua_machine.specs.Entering.{pushed_duty};

use crate::engine::Engine;
use crate::frame::{Duty, Frame, Role, Wants};
use love_base::Memory;

impl<'a> Engine<'a> {
    // The running function waits. Its place is at the next instruction.
    pub(crate) fn push(&mut self, wants: Wants) -> Result<(), Memory>
        requires pc { self.old.pc + 1 < 2 ^ 32 }
        ensures pushed { OnOk result (self.new ≡ pushed self.old wants) }
        ensures refused { OnErr result (self.new ≡ self.old) }
    {
        let frame = Frame {
            chunk: self.chunk,
            func: self.func,
            pc: self.pc + 1,
            base: self.base,
            cell_base: self.cell_base,
            extra_base: self.extra_base,
            role: Role::Waits(wants),
        };
        self.frames.push(frame)?;
        self.extra_base = self.extras.len();
        Ok(())
    }

    // A function of the library waits. What it keeps are the values behind the extra arguments of
    // the frame on top.
    pub(crate) fn push_duty(&mut self, duty: Duty) -> Result<(), Memory>
        ensures { OnOk result (self.new ≡ pushed_duty self.old duty) }
    {
        let frame = Frame {
            chunk: self.chunk,
            func: self.func,
            pc: self.pc,
            base: self.base,
            cell_base: self.cell_base,
            extra_base: self.extra_base,
            role: Role::Serves(duty),
        };
        self.frames.push(frame)?;
        self.extra_base = self.extras.len();
        Ok(())
    }

    // The frame on top.
    #[inline]
    pub(crate) fn top(&self) -> Option<Frame>
        ensures { IsTop result self.now.frames }
    {
        self.frames.last().copied()
    }

    // The frame on top is taken off. What it keeps, its slots and its cells are at hand.
    #[inline]
    pub(crate) fn take_off(&mut self, frame: Frame)
        requires top { IsTop (Some frame) self.old.frames }
        ensures { WasTakenOff frame self.old self.new }
    {
        self.frames.pop();
        self.extras.truncate(self.extra_base);
        self.base = frame.base;
        self.cell_base = frame.cell_base;
        self.extra_base = frame.extra_base;
    }

    // The function of Lua on top goes on.
    #[inline]
    pub(crate) fn resume(&mut self, frame: Frame)
        requires top { IsTop (Some frame) self.old.frames }
        requires code { frame.func < length (protos_at self.old.chunks frame.chunk) }
        ensures { WentOn frame self.old self.new }
    {
        let code = self.chunks[frame.chunk as usize].code;
        self.proto = &code.protos()[frame.func as usize];
        self.chunk = frame.chunk;
        self.func = frame.func;
        self.pc = frame.pc;
        self.take_off(frame);
    }
}

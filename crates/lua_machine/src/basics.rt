//! The basic functions that raise an error or call back (Lua 5.1 manual §5.1).

ghost use Rattle.std.specs.Prelude.{◌≡◌, drop, IfOk, IfSome};
ghost use Rattle.lua_meaning.specs.Arguments.{argument};
ghost use Rattle.lua_meaning.specs.Value.{str};
ghost use Rattle.lua_meaning.specs.Control.{level_place, error_value, value_text};
ghost use Rattle.lua_heap.specs.Value.{value_view};
ghost use Rattle.lua_heap.specs.Heap.{store_of, IsMade};
ghost use Rattle.lua_code.specs.Frames.{places};
ghost use Rattle.lua_machine.specs.View.{frames_of};
ghost use Rattle.lua_machine.specs.Back.{args_of};
ghost use Rattle.lua_machine.specs.Ready.{AreFit, IsServing};
ghost use Rattle.lua_machine.specs.Refusing.{frame_place, outer, HasSite, IsOuter, IsValue};
ghost use Rattle.lua_machine.specs.Basics.{ServedAlone, GivesValue};

use crate::engine::Engine;
use crate::frame::{Duty, Frame, Role};
use crate::status::Status;
use love_base::Memory;
use lua_heap::{Native, Value};
use lua_lib::call::arguments::{argument, number_or_natural};
use lua_operators::Event;
use lua_value::Num;

impl<'a> Engine<'a> {
    // The function of Lua that called the caller, where one did.
    fn outer_caller(&self) -> Option<Frame>
        requires fit { AreFit self.now }
        ensures { IsOuter result self.now }
    {
        let count = self.frames.len();
        if count < 2 {
            return None;
        }
        let frame = self.frames[count - 2];
        match frame.role {
            Role::Waits(_) => Some(frame),
            Role::Serves(_) => None,
        }
    }

    // The function of Lua in which an error of a level arises, where there is one.
    fn level_frame(&self, level: Num) -> Option<Frame>
        requires fit { AreFit self.now }
        ensures place { frame_place self.now.chunks result
            ≡ level_place level (places (frames_of self.now)) }
        ensures site { IfSome result (λ frame. HasSite frame self.now) }
    {
        match level.get() {
            1 => self.caller(),
            2 => self.outer_caller(),
            _ => None,
        }
    }

    // The value of an error of a level: a string gets its place, no other value does.
    fn error_value(&mut self, level: Num) -> Result<Value, Memory>
        requires fit { AreFit self.old }
        ensures { IfOk result (λ value. IsValue (error_value (argument 0 (args_of self.old))
            (level_place level (places (frames_of self.old)))) value self.old self.new) }
    {
        let value = argument(self.args.as_slice(), 0);
        let Value::Str(id) = value else {
            return Ok(value);
        };
        let text = Vec::from_slice(self.alloc, self.heap.string(id))?;
        let frame = self.level_frame(level);
        self.text_at(text.as_slice(), frame)
    }

    // `error(v, level)`
    pub(crate) fn raise_error(&mut self) -> Result<Status, Memory>
        requires ready { IsServing self.old }
        ensures { IfOk result (λ status. ServedAlone Native.Error status self.old self.new) }
    {
        match number_or_natural(&self.heap, self.args.as_slice(), 1, 1) {
            Ok(level) => {
                let value = self.error_value(level)?;
                Ok(Status::Raises(value))
            }
            Err(cause) => {
                let value = self.cause_error(Native::Error, &cause)?;
                Ok(Status::Raises(value))
            }
        }
    }

    // The first argument is taken out.
    fn take_first(&mut self) -> Value
        ensures value { value_view self.old.heap.texts result ≡ argument 0 (args_of self.old) }
        ensures made { IsMade self.old.heap result }
        ensures rest { self.new ≡ record self.old { args = drop 1 self.old.args } }
    {
        if self.args.is_empty() {
            Value::Nil
        } else {
            self.args.remove(0)
        }
    }

    // `pcall(f, ...)`
    pub(crate) fn try_call(&mut self) -> Result<Status, Memory>
        requires ready { IsServing self.old }
        ensures { IfOk result (λ status. ServedAlone Native.Pcall status self.old self.new) }
    {
        let value = self.take_first();
        self.call_back(Duty::Tries, value)
    }

    // A value's own text is given.
    fn give_text(&mut self, value: Value) -> Result<Status, Memory>
        requires ready { IsServing self.old }
        requires made { IsMade self.old.heap value }
        ensures { IfOk result (λ status. GivesValue
            (str (value_text (store_of self.old.heap) (value_view self.old.heap.texts value))) status
            self.old self.new) }
    {
        let text = self.own_text(value)?;
        self.give_one(text)
    }

    // `tostring(v)`
    pub(crate) fn convert_text(&mut self) -> Result<Status, Memory>
        requires ready { IsServing self.old }
        ensures { IfOk result (λ status. ServedAlone Native.ToString status self.old self.new) }
    {
        let value = self.first_arg();
        let handler = self.events.handler(&self.heap, &value, Event::Text);
        if let Value::Nil = handler {
            return self.give_text(value);
        }
        self.call_text(Duty::Converts, value, handler)
    }
}

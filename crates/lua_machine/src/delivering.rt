//! Results and errors go to the frames that wait.

ghost use Rattle.std.specs.Prelude.{◌≡◌, IfOk};
ghost use Rattle.lua_heap.specs.Heap.{IsMade};
ghost use Rattle.lua_machine.specs.Ready.{AreFit, IsServing};
ghost use Rattle.lua_machine.specs.Does.{IsKept};
ghost use Rattle.lua_machine.specs.Serving.{Delivers, Unwinds, Falls};
ghost use Rattle.lua_machine.specs.Fulfilling.{Fulfils, Fails as FailsBy, GivesOne};
ghost use Rattle.lua_machine.specs.Runs.{Lands};
ghost use Rattle.lua_machine.specs.declared.status.Status.TheVariants.{Gives, Raises};

use crate::engine::Engine;
use crate::errand::Errand;
use crate::frame::{Duty, Role};
use crate::status::{Pause, Status, Turn};
use love_base::Memory;
use lua_heap::Value;
use variant::Ask;

impl<'a> Engine<'a> {
    // `pcall` gives true and the results.
    fn give_tried(&mut self) -> Result<Status, Memory>
        requires ready { IsServing self.old }
        ensures { IfOk result (λ status. Fulfils Duty.Tries status self.old self.new) }
    {
        self.args.insert(0, Value::Bool(true))?;
        Ok(Status::Gives)
    }

    // One value is given.
    pub(crate) fn give_one(&mut self, value: Value) -> Result<Status, Memory>
        requires ready { AreFit self.old }
        requires made { IsMade self.old.heap value }
        ensures { IfOk result (λ status. GivesOne value status self.old self.new) }
    {
        self.args.clear();
        self.args.push(value)?;
        Ok(Status::Gives)
    }

    // A function of the library, whose frame was taken off, goes on with results.
    fn fulfil(&mut self, duty: Duty) -> Result<Status, Memory>
        requires ready { IsServing self.old }
        ensures { IfOk result (λ status. Fulfils duty status self.old self.new) }
    {
        match duty {
            Duty::Tries => self.give_tried(),
            Duty::Converts => {
                let value = self.first_arg();
                self.give_one(value)
            }
            Duty::Prints(count) => self.take_text(count),
            Duty::Requires => self.keep_module(),
            Duty::Guards(channel) => Ok(Status::Asks(Ask::Leave(channel), Errand::ComesOut(None))),
        }
    }

    // It goes on with an error.
    fn fail(&mut self, duty: Duty, value: Value) -> Result<Status, Memory>
        requires ready { IsServing self.old }
        requires made { IsMade self.old.heap value }
        ensures { IfOk result (λ status. FailsBy duty value status self.old self.new) }
    {
        match duty {
            Duty::Tries => {
                self.args.clear();
                self.args.push(Value::Bool(false))?;
                self.args.push(value)?;
                Ok(Status::Gives)
            }
            Duty::Converts | Duty::Prints(_) | Duty::Requires => Ok(Status::Raises(value)),
            Duty::Guards(channel) => Ok(Status::Asks(
                Ask::Leave(channel),
                Errand::ComesOut(Some(value)),
            )),
        }
    }

    // Results, which were put together as arguments are, go to the frame on top.
    fn deliver(&mut self) -> Result<Status, Memory>
        requires fit { AreFit self.old }
        ensures came { IfOk result (λ status. Delivers status self.old self.new) }
        ensures falls { IfOk result (λ status. Falls Gives status self.old self.new) }
    {
        let _frames = &self.frames;
        let Some(frame) = self.top() else {
            return Ok(Status::Ends);
        };
        let role = frame.role;
        match role {
            Role::Waits(wants) => {
                self.receive_args(frame, wants)?;
                Ok(Status::Goes)
            }
            Role::Serves(duty) => {
                self.take_off(frame);
                self.fulfil(duty)
            }
        }
    }

    // An error goes to it. A function of Lua ends by it.
    fn unwind(&mut self, value: Value) -> Result<Status, Memory>
        requires fit { AreFit self.old }
        requires made { IsMade self.old.heap value }
        ensures came { IfOk result (λ status. Unwinds value status self.old self.new) }
        ensures falls { IfOk result (λ status. Falls (Raises value) status self.old self.new) }
    {
        let _frames = &self.frames;
        let Some(frame) = self.top() else {
            return Ok(Status::Fails(value));
        };
        let role = frame.role;
        self.take_off(frame);
        match role {
            Role::Waits(_) => Ok(Status::Raises(value)),
            Role::Serves(duty) => self.fail(duty, value),
        }
    }

    // Results and errors go on to the frame that takes them.
    pub(crate) fn land(&mut self, from: Status) -> Result<Turn, Memory>
        requires kept { IsKept from self.old }
        ensures { IfOk result (λ turn. Lands from turn self.old self.new) }
    {
        let mut status = from;
        loop {
            status = match status {
                Status::Gives => self.deliver()?,
                Status::Raises(value) => self.unwind(value)?,
                Status::Goes => return Ok(Turn::Goes),
                Status::Serves(native) => return Ok(Turn::Serves(native)),
                Status::NoTick => return Ok(Turn::Pauses(Pause::NoTick)),
                Status::Prints(line) => return Ok(Turn::Pauses(Pause::Prints(line))),
                Status::Asks(question, errand) => {
                    return Ok(Turn::Pauses(Pause::Asks(question, errand)));
                }
                Status::Ends => return Ok(Turn::Pauses(Pause::Ended)),
                Status::Fails(value) => return Ok(Turn::Pauses(Pause::Failed(value))),
            };
        }
    }
}

//! Functions of LÖVE, which may ask, and replies.

ghost use Rattle.std.specs.Prelude.{IfOk};
ghost use Rattle.lua_heap.specs.Heap.{IsMade};
ghost use Rattle.lua_heap.specs.Native.{native_view};
ghost use Rattle.lua_code.specs.Held.{program_view};
ghost use Rattle.love_functions.specs.Asking.{is_here};
ghost use Rattle.love_functions.specs.View.{IsMadeCalled, IsMadeErrand as IsMadeCall};
ghost use Rattle.lua_lib.specs.Causes.{AreMade};
ghost use Rattle.lua_machine.specs.Ready.{IsServing};
ghost use Rattle.lua_machine.specs.Does.{IsMadeErrand};
ghost use Rattle.lua_machine.specs.Asking.{ComesTo, Asks, IsWaited, Attends};

use crate::engine::Engine;
use crate::errand::Errand;
use crate::frame::Duty;
use crate::status::Status;
use love_base::{ChannelNo, Memory};
use love_functions::{Called, Errand as Call, call, given, laws};
use lua_code::Program;
use lua_heap::{Native, Value};
use lua_lib::call::LibFault;
use variant::{Ask, Reply};

// What a wait gives: without a limit true, where it ends.
fn waited(limit: Option<u32>, called: Called) -> Result<Called, Memory>
    ensures { IfOk result (IsWaited limit called) }
{
    if limit.is_some() {
        return Ok(called);
    }
    match called {
        Called::Gives(mut values) => {
            values.clear();
            values.push(Value::Bool(true))?;
            Ok(Called::Gives(values))
        }
        other => Ok(other),
    }
}

impl<'a> Engine<'a> {
    // What a function of LÖVE, or a reply, came to.
    fn come_to(&mut self, called: Called) -> Result<Status, Memory>
        requires ready { IsServing self.old }
        requires made { IsMadeCalled self.old.heap called }
        ensures { IfOk result (λ status. ComesTo called status self.old self.new) }
    {
        match called {
            Called::Gives(values) => {
                self.args = values;
                Ok(Status::Gives)
            }
            Called::Refuses(text) => {
                let value = self.refusal(text.as_slice())?;
                Ok(Status::Raises(value))
            }
            Called::Asks(question, call) => Ok(Status::Asks(question, Errand::Answers(call))),
        }
    }

    // Runs a function of LÖVE that asks or looks into the game's folder.
    pub(crate) fn ask(
        &mut self,
        program: &'a Program,
        state: u32,
        native: Native,
    ) -> Result<Option<Status>, Memory>
        requires ready { IsServing self.old }
        ensures { IfOk result (λ status. Asks (program_view program.now state)
            (is_here (native_view native)) status native self.old self.new) }
    {
        laws::serves();
        let files = program.files.as_slice();
        match call(
            self.alloc,
            &mut self.heap,
            files,
            state,
            native,
            self.args.as_slice(),
        ) {
            Ok(called) => {
                let status = self.come_to(called)?;
                Ok(Some(status))
            }
            Err(LibFault::Elsewhere) => Ok(None),
            Err(LibFault::Fails(cause)) => {
                let value = self.cause_error(native, &cause)?;
                Ok(Some(Status::Raises(value)))
            }
        }
    }

    // The values of a reply are given; a refusal is an error.
    fn give_reply(&mut self, reply: &Reply) -> Result<Status, Memory>
        requires ready { IsServing self.old }
        ensures { IfOk result (λ status. Attends (Errand.Answers Call.GivesValues) reply.now status
            self.old self.new) }
    {
        let called = given(self.alloc, &mut self.heap, reply)?;
        self.come_to(called)
    }

    // A message was sent by `supply`: its receipt is waited for.
    fn await_receipt(
        &mut self,
        channel: ChannelNo,
        limit: Option<u32>,
        reply: &Reply,
    ) -> Result<Status, Memory>
        requires ready { IsServing self.old }
        ensures { IfOk result (λ status. Attends (Errand.Answers (Call.Awaits channel limit)) reply.now
            status self.old self.new) }
    {
        match reply {
            Reply::Id(id) => {
                let question = Ask::Await(channel, *id, limit);
                let errand = Errand::Answers(Call::GivesWaited(limit));
                Ok(Status::Asks(question, errand))
            }
            _ => self.give_reply(reply),
        }
    }

    // The wait of `supply` ended.
    fn give_waited(&mut self, limit: Option<u32>, reply: &Reply) -> Result<Status, Memory>
        requires ready { IsServing self.old }
        ensures { IfOk result (λ status. Attends (Errand.Answers (Call.GivesWaited limit)) reply.now status
            self.old self.new) }
    {
        let called = given(self.alloc, &mut self.heap, reply)?;
        let called = waited(limit, called)?;
        self.come_to(called)
    }

    // `performAtomic` came into the section of a Channel: it calls its function.
    fn enter_section(
        &mut self,
        channel: ChannelNo,
        function: Value,
        args: Vec<Value>,
        reply: &Reply,
    ) -> Result<Status, Memory>
        requires ready { IsServing self.old }
        requires made { IsMade self.old.heap function }
        requires args { AreMade self.old.heap args.items }
        ensures { IfOk result (λ status. Attends (Errand.Answers (Call.Enters channel function args))
            reply.now status self.old self.new) }
    {
        match reply {
            Reply::Refused(_) => self.give_reply(reply),
            _ => {
                self.args = args;
                self.args.insert(0, Value::Channel(channel))?;
                self.call_back(Duty::Guards(channel), function)
            }
        }
    }

    // An event was cleared, and the next one is asked for; or there was none.
    fn clear_next(&mut self, reply: &Reply) -> Result<Status, Memory>
        requires ready { IsServing self.old }
        ensures { IfOk result (λ status. Attends (Errand.Answers Call.Clears) reply.now status self.old
            self.new) }
    {
        match reply {
            Reply::Event(_) => {
                if self.ticks == 0 {
                    return Ok(Status::NoTick);
                }
                self.ticks -= 1;
                Ok(Status::Asks(Ask::EventPoll, Errand::Answers(Call::Clears)))
            }
            _ => {
                self.args.clear();
                Ok(Status::Gives)
            }
        }
    }

    // A reply has come for a call of a function of LÖVE.
    fn answer(&mut self, call: Call, reply: &Reply) -> Result<Status, Memory>
        requires ready { IsServing self.old }
        requires made { IsMadeCall self.old.heap call }
        ensures { IfOk result (λ status. Attends (Errand.Answers call) reply.now status self.old self.new) }
    {
        match call {
            Call::GivesValues => self.give_reply(reply),
            Call::Awaits(channel, limit) => self.await_receipt(channel, limit, reply),
            Call::GivesWaited(limit) => self.give_waited(limit, reply),
            Call::Enters(channel, function, args) => {
                self.enter_section(channel, function, args, reply)
            }
            Call::GivesTrue => self.give_one(Value::Bool(true)),
            Call::Clears => self.clear_next(reply),
        }
    }

    // A reply has come.
    pub(crate) fn attend(&mut self, errand: Errand, reply: &Reply) -> Result<Status, Memory>
        requires ready { IsServing self.old }
        requires made { IsMadeErrand errand self.old }
        ensures { IfOk result (λ status. Attends errand reply.now status self.old self.new) }
    {
        match errand {
            Errand::Answers(call) => self.answer(call, reply),
            Errand::ComesOut(None) => Ok(Status::Gives),
            Errand::ComesOut(Some(value)) => Ok(Status::Raises(value)),
        }
    }
}

//! An engine at work on a program, and what it has printed.

ghost use Rattle.std.specs.Prelude.{◌≡◌, IfOk};
ghost use Rattle.love_base.specs.Prefix.{IsPrefix};
ghost use Rattle.lua_code.specs.Growing.{Past};
ghost use Rattle.lua_code.specs.Held.{program_view};
ghost use Rattle.lua_code.specs.Sound.{IsSoundProgram};
ghost use Rattle.lua_machine.specs.Does.{IsKept, step_as};
ghost use Rattle.lua_machine.specs.Runs.{IsKeptPause};
ghost use Rattle.lua_machine.specs.Ending.{IsEnd};
ghost use Rattle.lua_machine.specs.declared.standing.Standing.TheVariants.{Waits};
ghost use Rattle.lua_machine.specs.Standing.{FitsAt, stand_of};
ghost use Rattle.lua_machine.specs.Session.{HasTurned, HasRun, HasGone, IsKeptStanding, resumed, told_past};

use crate::ask_copy::copy_of;
use crate::engine::Engine;
use crate::errand::Errand;
use crate::standing::{Standing, Waiting};
use crate::status::{Pause, Status};
use love_base::Memory;
use lua_code::Program;
use variant::{Ask, EndKind, Reply};

// An engine, the program that it runs as the state of a number, and what was printed.
#[derive(Debug, Drop)]
pub(crate) struct Session<'a> {
    pub(crate) program: &'a Program,
    pub(crate) state: u32,
    pub(crate) engine: Engine<'a>,
    pub(crate) output: Vec<u8>,
}

impl<'a> Session<'a> {
    // Goes on to where the engine stands still. A line that is printed goes to the output, and then
    // there is no pause: results, none of them, are to go on.
    fn turn(&mut self, from: Status) -> Result<Option<Pause>, Memory>
        requires sound { IsSoundProgram (program_view self.old.program.now self.old.state) }
        requires kept { IsKept from self.old.engine }
        ensures turned { HasTurned (program_view self.old.program.now self.old.state) from result
            self.old.engine self.old.output.items self.new.engine self.new.output.items }
        ensures program { self.new.program.now ≡ self.old.program.now }
        ensures state { self.new.state ≡ self.old.state }
    {
        match self.engine.run(self.program, self.state, from)? {
            Pause::Prints(line) => {
                self.output.extend_from_slice(line.as_slice())?;
                Ok(None)
            }
            pause => Ok(Some(pause)),
        }
    }

    // Goes on to where the run is over or asks.
    fn run(&mut self, from: Status) -> Result<Pause, Memory>
        requires sound { IsSoundProgram (program_view self.old.program.now self.old.state) }
        requires kept { IsKept from self.old.engine }
        ensures ran { HasRun (program_view self.old.program.now self.old.state)
            (λ past. step_as from past self.old.engine) result
            self.old.output.items self.new.engine self.new.output.items }
        ensures program { self.new.program.now ≡ self.old.program.now }
        ensures state { self.new.state ≡ self.old.state }
    {
        let mut from = from;
        // A print takes a tick, so there are never as many.
        for _ in 0..u64::MAX {
            if let Some(pause) = self.turn(from)? {
                return Ok(pause);
            }
            from = Status::Gives;
        }
        Err(Memory)
    }

    // What a reply leads to, or the beginning of the run.
    fn resume(&mut self, standing: Standing, reply: Option<Reply>) -> Result<Status, Memory>
        requires kept { IsKeptStanding standing self.old.engine }
        requires expected { FitsAt (stand_of standing) reply }
        ensures kept { IfOk result (λ from. IsKept from self.new.engine) }
        ensures step { IfOk result (λ from. (past : Past) →
            resumed (program_view self.old.program.now self.old.state) standing reply
            self.old.engine past ≡ step_as from (told_past standing past) self.new.engine) }
        ensures output { self.new.output.items ≡ self.old.output.items }
        ensures program { self.new.program.now ≡ self.old.program.now }
        ensures state { self.new.state ≡ self.old.state }
    {
        let Some(reply) = reply else {
            return Ok(Status::Goes);
        };
        match standing {
            Standing::Waits(_, errand) => self.engine.attend(errand, &reply),
            _ => Ok(Status::Goes),
        }
    }

    // Goes on from where it stands to where it stands still again.
    pub(crate) fn go_on(
        &mut self,
        standing: Standing,
        reply: Option<Reply>,
    ) -> Result<Pause, Memory>
        requires sound { IsSoundProgram (program_view self.old.program.now self.old.state) }
        requires kept { IsKeptStanding standing self.old.engine }
        requires expected { FitsAt (stand_of standing) reply }
        ensures gone { HasGone (program_view self.old.program.now self.old.state) standing reply result
            self.old.engine self.old.output.items self.new.engine self.new.output.items }
        ensures program { self.new.program.now ≡ self.old.program.now }
        ensures state { self.new.state ≡ self.old.state }
    {
        let from = self.resume(standing, reply)?;
        self.run(from)
    }

    // An ask is to be handed out: the machine keeps a copy until the reply has come.
    pub(crate) fn wait(&self, question: Ask, errand: Errand) -> Result<Waiting, Memory>
        ensures question { IfOk result (λ waiting. waiting.question ≡ question) }
        ensures standing { IfOk result (λ waiting. waiting.standing ≡ Waits question errand) }
    {
        let copy = copy_of(self.engine.alloc, &question)?;
        Ok(Waiting {
            question,
            standing: Standing::Waits(copy, errand),
        })
    }

    // How a run ends that stands still for good.
    pub(crate) fn end_at(&self, pause: Pause) -> EndKind
        requires kept { IsKeptPause pause self.now.engine }
        ensures { IsEnd pause self.now.engine result }
    {
        self.engine.end_at(&pause)
    }
}

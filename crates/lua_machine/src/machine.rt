//! What runs a state: it asks, is told the replies, and comes to an end.

ghost use Rattle.std.specs.Prelude.{◌≡◌, ℕ, List as Items, [], IfOk};
ghost use Rattle.love_base.specs.Prefix.{IsPrefix};
ghost use Rattle.lua_tree.specs.Tree.{Block};
ghost use Rattle.lua_meaning.specs.Message.{Ask as AnAsk, Reply as AReply};
ghost use Rattle.lua_meaning.specs.Run.{Start};
ghost use Rattle.lua_code.specs.Held.{file_code_view, program_view};
ghost use Rattle.lua_code.specs.Sound.{IsSoundFile, IsSoundProgram};
ghost use Rattle.lua_machine.specs.Machine.{Expects, IsFresh, IsIn, IsStart, Says, asked, cells_in, stand_after, stand_at, told};

use crate::engine::Engine;
use crate::session::Session;
use crate::standing::{Standing, Waiting};
use crate::status::Pause;
use love_base::{List, Memory, Text};
use lua_code::{Code, File, FileCode, Program};
use std::alloc::Global;
use std::marker::Model;
use std::mem;
use variant::{Ask, EndKind, Reply, Variant};

/// What a machine comes to next.
#[derive(Debug, Drop)]
pub enum Step {
    /// It asks this, and waits for the reply.
    Ask(Ask),
    /// Its run is over; never by [`EndKind::Stopped`].
    Ended(EndKind),
}

/// What runs the code of a state: it is run up to its next ask, is told the reply, and goes on from
/// there.
#[derive(Debug, Drop)]
pub struct Machine<'a> {
    session: Session<'a>,
    standing: Standing,
}

impl<'a> Model for Machine<'a> {
    ghost use Rattle.lua_code.specs.Held.{program_view};
    ghost use Rattle.lua_code.specs.Sound.{IsSoundProgram};
    ghost use Rattle.lua_machine.specs.Session.{IsKeptStanding};
    ghost use Rattle.lua_machine.specs.Machine.{MachineView};
    ghost use Rattle.std.specs.Coded.{codes};
    ghost use Rattle.variant.specs.contracts.message.Variant as message;

    ghost Value = { MachineView };

    ghost coded = { Prim.hlevel (codes, message.the_row.coded) };

    ghost view = { λ m. record {
      program = m.session.program.now;
      state = m.session.state;
      engine = m.session.engine;
      standing = m.standing;
      output = m.session.output.items;
    } };

    ghost invariant = { λ m. IsSoundProgram (program_view m.session.program.now m.session.state)
        × IsKeptStanding m.standing m.session.engine };
}

// The code of a file is in order.
fn is_sound_file(file: &File)
    ensures { IsSoundFile (file_code_view file.now.code) }
{
    if let FileCode::Ready(code) = &file.code {
        let _protos = code.protos();
    }
}

// So is that of each file.
fn is_sound(program: &Program)
    ensures { (state : ℕ) → IsSoundProgram (program_view program.now state) }
{
    for file in program.files.as_slice() {
        is_sound_file(file);
    }
}

impl<'a> Machine<'a> {
    /// A machine at the beginning of this code as the main function of a state of this number, which
    /// is given these arguments and so many ticks. State 0 has `love.event` from the start.
    ///
    /// # Errors
    ///
    /// [`Memory`] where there is no room.
    pub fn start(
        alloc: Global,
        program: &'a Program,
        code: &'a Code,
        args: &List<Variant>,
        steps: u32,
        state: u32,
    ) -> Result<Machine<'a>, Memory>
        ensures begins { IfOk result (λ machine. (start : Start) (b : Block) →
            IsStart program.now code.now args.now steps state start b →
            IsIn start b [] [] machine) }
        ensures fresh { IfOk result (λ machine. IsFresh machine) }
    {
        is_sound(program);
        let engine = Engine::begin(alloc, code, args, steps, state)?;
        Ok(Machine {
            session: Session {
                program,
                state,
                engine,
                output: Vec::new(alloc),
            },
            standing: Standing::Fresh,
        })
    }

    /// Runs up to the next ask or the end. The first call has no reply, each later one has the reply
    /// to the last ask.
    pub fn next(&mut self, reply: Option<Reply>) -> Step
        requires expected { Expects reply self.old }
        ensures says { (start : Start) (b : Block) (asks : Items AnAsk) (replies : Items AReply) →
            IsIn start b asks replies self.old →
            Says result start b (asked self.old asks) (told reply replies) self.new }
        ensures output { IsPrefix self.old.output self.new.output }
        ensures stand { stand_at self.new ≡ stand_after result }
    {
        let standing = mem::replace(&mut self.standing, Standing::Over);
        let Ok(pause) = self.session.go_on(standing, reply) else {
            return Step::Ended(EndKind::Memory);
        };
        match pause {
            Pause::Asks(question, errand) => match self.session.wait(question, errand) {
                Ok(Waiting { question, standing }) => {
                    self.standing = standing;
                    Step::Ask(question)
                }
                Err(Memory) => Step::Ended(EndKind::Memory),
            },
            pause => Step::Ended(self.session.end_at(pause)),
        }
    }

    /// The output so far. It takes no memory.
    pub fn abandon(self) -> Text
        ensures { result ≡ self.entry.output }
    {
        Text::from_vec(self.session.output)
    }

    /// How many cells were made. It takes no memory.
    pub fn cells(&self) -> u64
        ensures { result ≡ cells_in self.now }
    {
        self.session.engine.heap.cells()
    }
}

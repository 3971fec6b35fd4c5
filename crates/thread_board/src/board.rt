ghost use Rattle.std.specs.Prelude.{◌≡◌, ℕ, ◌<◌, ◌^◌, ◌↔◌, [], is_some, IsTrue, IfOk, All, length};
ghost use Rattle.std.specs.Option.{option_copied};

use crate::place::{Started, Thread, started_at, thread_at};
use crate::{BoardEntry, Job};
use indexmap::IndexMap;
use love_base::Memory;
use std::alloc::Global;
use std::collections::VecDeque;
use std::marker::Model;

// The number of state 0's end among what must not be refused.
const MAIN_END: usize = 1;

/// The names of Channels, the Threads, the states that were started, and the history of all that
/// was done to them (LÖVE wiki, `love.thread`).
///
/// Room for the beginnings and ends that are to come is kept, so that they are never refused.
#[derive(Debug, Drop)]
pub struct Board {
    pub(crate) workers: u32,
    pub(crate) history: Vec<BoardEntry>,
    pub(crate) channels: u32,
    pub(crate) names: IndexMap<Vec<u8>, u32>,
    pub(crate) threads: Vec<Thread>,
    pub(crate) states: Vec<Started>,
    pub(crate) jobs: VecDeque<Job>,
    pub(crate) begun: u32,
    pub(crate) running: u32,
    pub(crate) main_end: Option<u32>,
}

// Contracts see a board as the number of its workers and its history.
impl Model for Board {
    ghost use Rattle.std.specs.Prelude.{vec_capacity, length};
    ghost use Rattle.std.specs.Coded.{codes};
    ghost use Rattle.variant.specs.contracts.message.Variant as message;
    ghost use Rattle.thread_board.specs.View.{BoardView};

    ghost Value = { BoardView };

    ghost coded = { Prim.hlevel (codes, message.the_row.coded) };

    ghost use Rattle.thread_board.specs.Sound.{IsSound, kept_names};

    ghost view = { λ b. record {
      workers = b.workers;
      history = b.history.items;
    } };

    ghost invariant = { λ b.
        IsSound b.workers b.history.items
        (record {
          entries = length b.history.items;
          channels = b.channels;
          names = kept_names b.names.entries;
          threads = b.threads.items;
          states = b.states.items;
          waiting = b.jobs.items;
          begun = b.begun;
          main_end = b.main_end;
        })
        b.running (vec_capacity b.history) };
}

impl Board {
    ghost use Rattle.variant.specs.declared.ask.Ask.{Ask};
    ghost use Rattle.variant.specs.declared.reply.Reply.{Reply};
    ghost use Rattle.thread_board.specs.Answers.{only, words};
    ghost use Rattle.thread_board.specs.Calls.{Answers};
    ghost use Rattle.thread_board.specs.Lawful.{IsLawful};
    ghost use Rattle.thread_board.specs.Register.{register, state_of, error_of, is_working, HasBegun};
    ghost use Rattle.thread_board.specs.Sound.{owed};

    /// A board without workers, which starts nothing. It takes no memory.
    pub fn empty(alloc: Global) -> Board
        ensures { result ≡ record { workers = 0; history = [] } }
    {
        Board {
            workers: 0,
            history: Vec::new(alloc),
            channels: 0,
            names: IndexMap::new(alloc),
            threads: Vec::new(alloc),
            states: Vec::new(alloc),
            jobs: VecDeque::new(alloc),
            begun: 0,
            running: 0,
            main_end: None,
        }
    }

    /// A board for so many workers. At most as many states run at once. It keeps room for state 0's
    /// end.
    ///
    /// # Errors
    ///
    /// [`Memory`] where there is no room.
    pub fn new(alloc: Global, workers: u32) -> Result<Board, Memory>
        requires { 0 < workers }
        ensures { IfOk result (λ board. board ≡ record { workers = workers; history = [] }) }
    {
        let mut history = Vec::new(alloc);
        history.reserve(MAIN_END)?;
        Ok(Board {
            workers,
            history,
            channels: 0,
            names: IndexMap::new(alloc),
            threads: Vec::new(alloc),
            states: Vec::new(alloc),
            jobs: VecDeque::new(alloc),
            begun: 0,
            running: 0,
            main_end: None,
        })
    }

    /// Whether a state of this Thread was started and hasn't ended (LÖVE wiki, `Thread:isRunning`):
    /// a read, which takes no memory.
    pub fn running(&self, thread: u32) -> bool
        ensures running { result ≡ is_some (state_of (register self.now.history) thread) }
        ensures answer { (state : ℕ) →
            Answers self.now (Ask.IsRunning thread) state (only (Reply.Flag result)) }
    {
        match thread_at(&self.threads, thread) {
            Some(made) => made.runs.is_some(),
            None => false,
        }
    }

    /// The text of this Thread's last end, where that has one and no start of the Thread follows
    /// (LÖVE wiki, `Thread:getError`); `None` elsewhere. A read, which takes no memory.
    pub fn error_of(&self, thread: u32) -> Option<&[u8]>
        ensures failure { option_copied result ≡ error_of self.now.history thread }
        ensures answer { (state : ℕ) →
            Answers self.now (Ask.ErrorOf thread) state (words (option_copied result)) }
    {
        let place = thread_at(&self.threads, thread)?.ended?;
        self.history.get(place as usize)?.what.failure()
    }

    /// The place of state 0's end in the history, counted from 1; `None` while it hasn't ended. A
    /// read, which takes no memory.
    pub fn ended(&self) -> Option<u32>
        ensures { result ≡ (register self.now.history).main_end }
    {
        self.main_end
    }

    /// Whether a state has begun, as state 0 always has: a read, which takes no memory.
    pub fn has_begun(&self, state: u32) -> bool
        ensures { IsTrue result ↔ HasBegun (register self.now.history) state }
    {
        state <= self.begun
    }

    /// Whether a state has a beginning and no end, as state 0 never has: a read, which takes no
    /// memory.
    pub fn is_working(&self, state: u32) -> bool
        ensures { result ≡ is_working (register self.now.history) state }
    {
        match started_at(&self.states, state) {
            Some(started) => state <= self.begun && !started.ended,
            None => false,
        }
    }

    /// The number of workers: a read, which takes no memory.
    pub fn workers(&self) -> u32
        ensures { result ≡ self.now.workers }
    {
        self.workers
    }

    /// All that was done to this board, from the first entry on, in constant time. It takes no
    /// memory.
    pub fn history(&self) -> &[BoardEntry]
        ensures entries { result.now ≡ self.now.history }
        ensures lawful { IsLawful self.now.workers self.now.history }
        ensures begun { All (λ e. HasBegun (register self.now.history) e.by.state)
            self.now.history }
        ensures few { length self.now.history < 2 ^ 16 }
    {
        self.history.as_slice()
    }

    // How many entries must not be refused.
    pub(crate) fn owed(&self) -> usize
        ensures { result ≡ owed self.now.workers (register self.now.history) }
    {
        let main = self.workers > 0 && self.main_end.is_none();
        self.jobs.len() + self.running as usize + main as usize
    }
}

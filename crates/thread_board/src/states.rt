//! The states of a board: each is started, begins and ends.
ghost use Rattle.std.specs.Prelude.{◌≡◌, ℕ, ◌+◌, ◌<◌, ◌≤◌, ◌↔◌, length, slice_get, Option, true, IfSome, IfNone, IfOk, IfErr, OnErr};

use crate::board::Board;
use crate::entry::append;
use crate::place::{Started, set_thread, thread_at};
use crate::{BoardChange, BoardEntry, BoardFault, Job};
use love_base::{List, Stamp};
use variant::{EndKind, Variant, copy_all};

// How many states may be started. It is this project's own.
const START_LIMIT: usize = 1_000;

impl Board {
    ghost use Rattle.variant.specs.declared.ask.Ask.{Ask};
    ghost use Rattle.variant.specs.declared.action.Deed.{Deed};
    ghost use Rattle.variant.specs.declared.reply.Reply.{Reply};
    ghost use Rattle.thread_board.specs.Answers.{answer, adds, start_limit};
    ghost use Rattle.thread_board.specs.Calls.{Answers, refused, started_answer};
    ghost use Rattle.thread_board.specs.Lawful.{IsLater};
    ghost use Rattle.thread_board.specs.Register.{register, numbered, running, state_of, is_working, HasBegun, IsIdle};
    ghost use Rattle.thread_board.specs.Sound.{MayStart};
    ghost use Rattle.thread_board.specs.View.{with_entry};

    /// Starts a Thread on these values (LÖVE wiki, `Thread:start`): a new state of it waits for a
    /// worker. It gives the place of the new entry in the history and the state's number. Both
    /// begin at 1.
    ///
    /// Room for the state's beginning and end is kept, and the job that a worker takes is made
    /// here. Amortised constant time, and the time of one copy of source and values.
    ///
    /// # Errors
    ///
    /// The first of these that holds: [`BoardFault::Closed`] where state 0 has ended,
    /// [`BoardFault::NoSuchThread`] where the Thread wasn't made, [`BoardFault::AlreadyRunning`]
    /// where a state of it runs, [`BoardFault::TooManyStarts`] where 1,000 states were started,
    /// [`BoardFault::TooManyRunning`] where as many states run as there are workers, and
    /// [`BoardFault::Memory`] where there is no room.
    pub fn start(
        &mut self,
        by: Stamp,
        thread: u32,
        args: List<Variant>,
    ) -> Result<(u32, u32), BoardFault>
        requires begun { HasBegun (register self.old.history) by.state }
        requires later { IsLater self.old.history by }
        ensures entry { IfOk result (λ (place, state).
            self.new ≡ with_entry self.old by (BoardChange.Start state thread args)) }
        ensures place { IfOk result (λ (place, state). place ≡ length self.new.history) }
        ensures closed { (place : ℕ) → (result ≡ Err (BoardFault.Closed place))
            ↔ ((register self.old.history).main_end ≡ Option.Some place) }
        ensures no_such { (result ≡ Err BoardFault.NoSuchThread)
            ↔ (((register self.old.history).main_end ≡ Option.None)
            × (numbered (register self.old.history).threads thread ≡ Option.None)) }
        ensures already { (state : ℕ) → (result ≡ Err (BoardFault.AlreadyRunning state))
            ↔ (((register self.old.history).main_end ≡ Option.None)
            × (state_of (register self.old.history) thread ≡ Option.Some state)) }
        ensures many_starts { (result ≡ Err BoardFault.TooManyStarts)
            ↔ (IsIdle (register self.old.history) thread
            × (start_limit ≤ length (register self.old.history).states)) }
        ensures many_running { (count : ℕ) → (result ≡ Err (BoardFault.TooManyRunning count))
            ↔ (IsIdle (register self.old.history) thread
            × (length (register self.old.history).states < start_limit)
            × (running (register self.old.history) ≡ self.old.workers)
            × (count ≡ self.old.workers)) }
        ensures unchanged { OnErr result (self.new ≡ self.old) }
        ensures answer { Answers self.old (Ask.Start thread args) by.state (started_answer
            (BoardChange.Start (length (register self.old.history).states + 1) thread args)
            result) }
    {
        // A `?` would hide from the contract which fault it was.
        let job = match self.job_for(thread, &args) {
            Ok(job) => job,
            Err(fault) => return Err(fault),
        };
        let owed = self.owed();
        self.history.reserve(owed + 3)?;
        self.states.reserve(1)?;
        let state = job.state;
        self.jobs.push_back(job)?;
        let ended = false;
        self.states.push(Started { thread, ended }).unwrap();
        set_thread(&mut self.threads, thread, Some(state), None);
        self.running += 1;
        let what = BoardChange::Start {
            state,
            thread,
            args,
        };
        let place = append(&mut self.history, BoardEntry { by, what });
        Ok((place, state))
    }

    // The job of a Thread that may be started, or why it may not.
    fn job_for(&self, thread: u32, args: &List<Variant>) -> Result<Job, BoardFault>
        ensures job { IfOk result (λ job.
            MayStart self.now.workers (register self.now.history) thread args.now job) }
        ensures closed { (place : ℕ) → (result ≡ Err (BoardFault.Closed place))
            ↔ ((register self.now.history).main_end ≡ Option.Some place) }
        ensures no_such { (result ≡ Err BoardFault.NoSuchThread)
            ↔ (((register self.now.history).main_end ≡ Option.None)
            × (numbered (register self.now.history).threads thread ≡ Option.None)) }
        ensures already { (state : ℕ) → (result ≡ Err (BoardFault.AlreadyRunning state))
            ↔ (((register self.now.history).main_end ≡ Option.None)
            × (state_of (register self.now.history) thread ≡ Option.Some state)) }
        ensures many_starts { (result ≡ Err BoardFault.TooManyStarts)
            ↔ (IsIdle (register self.now.history) thread
            × (start_limit ≤ length (register self.now.history).states)) }
        ensures many_running { (count : ℕ) → (result ≡ Err (BoardFault.TooManyRunning count))
            ↔ (IsIdle (register self.now.history) thread
            × (length (register self.now.history).states < start_limit)
            × (running (register self.now.history) ≡ self.now.workers)
            × (count ≡ self.now.workers)) }
        ensures refused { (by : ℕ) → IfErr result (λ fault.
            Answers self.now (Ask.Start thread args.now) by (refused fault)) }
    {
        if let Some(place) = self.main_end {
            return Err(BoardFault::Closed { place });
        }
        let Some(made) = thread_at(&self.threads, thread) else {
            return Err(BoardFault::NoSuchThread);
        };
        if let Some(state) = made.runs {
            return Err(BoardFault::AlreadyRunning { state });
        }
        if self.states.len() >= START_LIMIT {
            return Err(BoardFault::TooManyStarts);
        }
        if self.running == self.workers {
            return Err(BoardFault::TooManyRunning {
                running: self.running,
            });
        }
        let alloc = *self.history.allocator();
        let source = made.source.copy(alloc)?;
        let args = copy_all(alloc, args)?;
        Ok(Job {
            state: self.states.len() as u32 + 1,
            thread,
            source,
            args,
        })
    }

    /// The oldest job that waits, which this worker begins; `None` where none waits. Its beginning
    /// is the state's first action. Constant time, and no memory.
    pub fn take_job(&mut self, worker: u32) -> Option<Job>
        requires { (1 ≤ worker) × (worker ≤ self.old.workers) }
        ensures job { result ≡ slice_get (register self.old.history).waiting 0 }
        ensures entry { IfSome result (λ job. self.new
            ≡ with_entry self.old (record { state = job.state; number = 1 })
            (BoardChange.Begin worker)) }
        ensures unchanged { IfNone result (self.new ≡ self.old) }
        ensures answer { IfSome result (λ job.
            answer self.old.workers worker Deed.Begin job.state self.old.history
            ≡ adds Reply.Done (BoardChange.Begin worker)) }
    {
        let job = self.jobs.pop_front()?;
        self.begun += 1;
        let what = BoardChange::Begin { worker };
        let by = Stamp {
            state: job.state,
            number: 1,
        };
        append(&mut self.history, BoardEntry { by, what });
        Some(job)
    }

    /// Ends a state other than 0, and gives the place of the new entry in the history. It is never
    /// refused. Constant time, and no memory.
    pub fn end(&mut self, by: Stamp, end: EndKind) -> u32
        requires working { is_working (register self.old.history) by.state ≡ true }
        requires later { IsLater self.old.history by }
        ensures entry { self.new ≡ with_entry self.old by (BoardChange.End end) }
        ensures place { result ≡ length self.new.history }
        ensures answer { (worker : ℕ) →
            answer self.old.workers worker (Deed.End end) by.state self.old.history
            ≡ adds Reply.Done (BoardChange.End end) }
    {
        let index = by.state as usize - 1;
        let thread = self.states[index].thread;
        let at = self.history.len() as u32;
        self.states[index] = Started {
            thread,
            ended: true,
        };
        set_thread(&mut self.threads, thread, None, Some(at));
        self.running -= 1;
        let what = BoardChange::End { end };
        append(&mut self.history, BoardEntry { by, what })
    }

    /// Ends state 0, and with it the game; gives the place of the new entry in the history. It is
    /// never refused. Constant time, and no memory.
    pub fn main_end(&mut self, by: Stamp) -> u32
        requires main { by.state ≡ 0 }
        requires open_until_now { (register self.old.history).main_end ≡ Option.None }
        requires workers { 0 < self.old.workers }
        requires later { IsLater self.old.history by }
        ensures entry { self.new ≡ with_entry self.old by BoardChange.MainEnd }
        ensures place { result ≡ length self.new.history }
        ensures answer { (worker : ℕ) →
            answer self.old.workers worker Deed.MainEnd by.state self.old.history
            ≡ adds Reply.Done BoardChange.MainEnd }
    {
        let what = BoardChange::MainEnd;
        let place = append(&mut self.history, BoardEntry { by, what });
        self.main_end = Some(place);
        place
    }
}

//! What is made on a board: Channels, with a name or without, and Threads.
ghost use Rattle.std.specs.Prelude.{◌≡◌, ◌+◌, ◌≤◌, ◌↔◌, ℕ, length, Option, is_none, if◌then◌else◌, true, IfOk, IsOkAnd, OnErr};

use crate::board::Board;
use crate::entry::append;
use crate::place::Thread;
use crate::{BoardChange, BoardEntry, BoardFault};
use love_base::{Stamp, Text};
use variant::Source;

// How many Channels may be made. It is this project's own.
const CHANNEL_LIMIT: u32 = 1_024;

// How many Threads may be made. It is this project's own.
const THREAD_LIMIT: usize = 1_000;

/// What a call answers that gives a Channel.
#[derive(Clone, Copy, Debug, PartialEq, Eq)]
pub struct Named {
    /// The length of the history, with the new entry where there is one.
    pub place: u32,
    /// The Channel's number, from 1.
    pub channel: u32,
    /// Whether the Channel is new, and so an entry was added.
    pub changed: bool,
}

impl Board {
    ghost use Rattle.variant.specs.declared.ask.Ask.{Ask};
    ghost use Rattle.thread_board.specs.Answers.{channel_limit, thread_limit};
    ghost use Rattle.thread_board.specs.Calls.{Answers, channel_answer, thread_answer};
    ghost use Rattle.thread_board.specs.Lawful.{IsLater};
    ghost use Rattle.thread_board.specs.Register.{register, channel_of, HasBegun};
    ghost use Rattle.thread_board.specs.View.{with_entry};

    /// The Channel of a name, which is made where no Channel has the name yet (LÖVE wiki,
    /// `love.thread.getChannel`). A known name changes nothing, and is never refused.
    ///
    /// Expected time in the length of the name, whatever the length of the history.
    ///
    /// # Errors
    ///
    /// [`BoardFault::TooManyChannels`] where the name is new and 1,024 Channels were made;
    /// [`BoardFault::Memory`] where there is no room.
    pub fn name(&mut self, by: Stamp, name: &Text) -> Result<Named, BoardFault>
        requires begun { HasBegun (register self.old.history) by.state }
        requires later { IsLater self.old.history by }
        ensures entry { IfOk result (λ given. self.new ≡ (if given.changed
            then with_entry self.old by (BoardChange.Name given.channel name.now)
            else self.old)) }
        ensures place { IfOk result (λ given. given.place ≡ length self.new.history) }
        ensures changed { IfOk result (λ given.
            given.changed ≡ is_none (channel_of (register self.old.history).names name.now)) }
        ensures known { (channel : ℕ)
            → channel_of (register self.old.history).names name.now ≡ Option.Some channel
            → IsOkAnd result (λ given. given.channel ≡ channel) }
        ensures full { (result ≡ Err BoardFault.TooManyChannels)
            ↔ ((channel_of (register self.old.history).names name.now ≡ Option.None)
            × (channel_limit ≤ (register self.old.history).channels)) }
        ensures unchanged { OnErr result (self.new ≡ self.old) }
        ensures answer { Answers self.old (Ask.Name name.now) by.state (channel_answer
            (BoardChange.Name ((register self.old.history).channels + 1) name.now) result) }
    {
        if let Some(channel) = self.known(name) {
            return Ok(Named {
                place: self.history.len() as u32,
                channel,
                changed: false,
            });
        }
        if self.channels >= CHANNEL_LIMIT {
            return Err(BoardFault::TooManyChannels);
        }
        let owed = self.owed();
        let alloc = *self.history.allocator();
        let copy = name.copy(alloc)?;
        let key = Vec::from_slice(alloc, name.bytes())?;
        self.history.reserve(owed + 1)?;
        let channel = self.channels + 1;
        self.names.insert(key, channel)?;
        self.channels = channel;
        let what = BoardChange::Name {
            channel,
            name: copy,
        };
        let place = append(&mut self.history, BoardEntry { by, what });
        Ok(Named {
            place,
            channel,
            changed: true,
        })
    }

    /// A new Channel without a name (LÖVE wiki, `love.thread.newChannel`). Amortised constant time.
    ///
    /// # Errors
    ///
    /// [`BoardFault::TooManyChannels`] where 1,024 Channels were made; [`BoardFault::Memory`] where
    /// there is no room.
    pub fn new_channel(&mut self, by: Stamp) -> Result<Named, BoardFault>
        requires begun { HasBegun (register self.old.history) by.state }
        requires later { IsLater self.old.history by }
        ensures entry { IfOk result (λ given.
            self.new ≡ with_entry self.old by (BoardChange.NewChannel given.channel)) }
        ensures place { IfOk result (λ given. given.place ≡ length self.new.history) }
        ensures changed { IfOk result (λ given. given.changed ≡ true) }
        ensures full { (result ≡ Err BoardFault.TooManyChannels)
            ↔ (channel_limit ≤ (register self.old.history).channels) }
        ensures unchanged { OnErr result (self.new ≡ self.old) }
        ensures answer { Answers self.old Ask.NewChannel by.state (channel_answer
            (BoardChange.NewChannel ((register self.old.history).channels + 1)) result) }
    {
        if self.channels >= CHANNEL_LIMIT {
            return Err(BoardFault::TooManyChannels);
        }
        let owed = self.owed();
        self.history.reserve(owed + 1)?;
        let channel = self.channels + 1;
        self.channels = channel;
        let what = BoardChange::NewChannel { channel };
        let place = append(&mut self.history, BoardEntry { by, what });
        Ok(Named {
            place,
            channel,
            changed: true,
        })
    }

    /// A new Thread, which runs this once it is started (LÖVE wiki, `love.thread.newThread`). It
    /// gives the place of the new entry in the history and the Thread's number. Both begin at 1.
    ///
    /// Amortised constant time, and the time of one copy of the source.
    ///
    /// # Errors
    ///
    /// [`BoardFault::TooManyThreads`] where 1,000 Threads were made; [`BoardFault::Memory`] where
    /// there is no room.
    pub fn new_thread(&mut self, by: Stamp, source: Source) -> Result<(u32, u32), BoardFault>
        requires begun { HasBegun (register self.old.history) by.state }
        requires later { IsLater self.old.history by }
        ensures entry { IfOk result (λ (place, thread).
            self.new ≡ with_entry self.old by (BoardChange.NewThread thread source)) }
        ensures place { IfOk result (λ (place, thread). place ≡ length self.new.history) }
        ensures full { (result ≡ Err BoardFault.TooManyThreads)
            ↔ (thread_limit ≤ length (register self.old.history).threads) }
        ensures unchanged { OnErr result (self.new ≡ self.old) }
        ensures answer { Answers self.old (Ask.NewThread source) by.state (thread_answer
            (BoardChange.NewThread (length (register self.old.history).threads + 1) source)
            result) }
    {
        if self.threads.len() >= THREAD_LIMIT {
            return Err(BoardFault::TooManyThreads);
        }
        let owed = self.owed();
        let copy = source.copy(*self.history.allocator())?;
        self.history.reserve(owed + 1)?;
        self.threads.push(Thread {
            source: copy,
            runs: None,
            ended: None,
        })?;
        let thread = self.threads.len() as u32;
        let what = BoardChange::NewThread { thread, source };
        let place = append(&mut self.history, BoardEntry { by, what });
        Ok((place, thread))
    }

    // The Channel of a name that has one.
    fn known(&self, name: &Text) -> Option<u32>
        ensures { result ≡ channel_of (register self.now.history).names name.now }
    {
        self.names.get(name.bytes()).copied()
    }
}

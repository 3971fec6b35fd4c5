ghost use Rattle.std.specs.Prelude.{◌≡◌, ◌≢◌, ℕ, ◌+◌, ◌-◌, ◌<◌, ◌≤◌, ◌↔◌, [], ◌∷◌, ◌++◌, length, slice_get, vec_capacity, IsTrue, IfOk, OnOk, IfErr, OnErr};
ghost use Rattle.std.specs.Option.{option_copied};
ghost use Rattle.channel_core.specs.Index.{message_at};
ghost use Rattle.channel_core.specs.Lawful.{entry_limit};

use crate::{Change, Entry, PutFault};
use love_base::Stamp;
use std::alloc::Global;
use std::marker::Model;
use variant::Variant;

// The number of entries from which on a history takes no further message and gives none. It is this
// project's own.
const ENTRY_LIMIT: usize = 2_000_000;

// The room that a change needs: for its own entry, and for the one that ends a section, which must
// not be refused.
const ROOM: usize = 2;

// The message of the entry at this place of a history, counted from 0, if it sends one.
fn message_at(history: &[Entry], place: u32) -> Option<&Variant>
    ensures { option_copied result ≡ message_at history.now place }
{
    let entry = history.get(place as usize)?;
    entry.what.message()
}

// The place of the message after the first `taken` ones.
fn place_of(puts: &[u32], taken: u32) -> Option<u32>
    ensures { result ≡ slice_get puts.now taken }
{
    puts.get(taken as usize).copied()
}

// Adds an entry for which there is room, and gives its place, counted from 1.
fn append(history: &mut Vec<Entry>, entry: Entry) -> u32
    requires room { length history.old.items < vec_capacity history.old }
    requires few { length history.old.items ≤ entry_limit }
    ensures items { history.new.items ≡ history.old.items ++ entry ∷ [] }
    ensures place { result ≡ length history.old.items + 1 }
    ensures capacity { vec_capacity history.old ≤ vec_capacity history.new }
{
    history.push(entry).unwrap();
    history.len() as u32
}

/// A queue of messages between states, and the history of all that was done to it (LÖVE wiki,
/// `Channel`).
///
/// A message is stored once, in the entry that put it. Beside the history stand the places of these
/// entries, in order, so that each message is found by its number in one step.
#[derive(Debug, Drop)]
pub struct Channel {
    history: Vec<Entry>,
    puts: Vec<u32>,
    taken: u32,
    held: Option<u32>,
}

// Contracts see a Channel as its history, the list of its entries.
impl Model for Channel {
    ghost use Rattle.std.specs.Prelude.{List};
    ghost use Rattle.std.specs.Coded.{codes};
    ghost use Rattle.variant.specs.contracts.message.Variant as message;
    ghost use Rattle.channel_core.specs.declared.entry.Entry.{Entry};

    ghost Value = { List Entry };

    ghost coded = { Prim.hlevel (codes, message.the_row.coded) };

    ghost use Rattle.std.specs.Prelude.{vec_capacity};
    ghost use Rattle.channel_core.specs.Index.{IsIndexed};

    ghost view = { λ c. c.history.items };

    ghost invariant = { λ c.
        IsIndexed c.history.items c.puts.items c.taken c.held (vec_capacity c.history) };
}

impl Channel {
    ghost use Rattle.variant.specs.declared.ask.Ask.{Ask};
    ghost use Rattle.variant.specs.declared.action.Deed.{Deed};
    ghost use Rattle.variant.specs.declared.reply.Reply.{Reply};
    ghost use Rattle.channel_core.specs.declared.entry.Change.{Change};
    ghost use Rattle.channel_core.specs.Answers.{answer, only, adds};
    ghost use Rattle.channel_core.specs.Calls.{Answers, put_answer, take_answer, wipe_answer, enter_answer, peek_answer};
    ghost use Rattle.channel_core.specs.History.{put_by, take_by, clear_by, enter_by, leave_by, sent_messages, received_messages, message, sent, received, queue, front, is_read, holder};
    ghost use Rattle.channel_core.specs.Lawful.{IsAdmitted, IsLater, IsLawful};
    ghost use Rattle.channel_core.specs.Taking.{IfTaken, UnlessTaken};

    /// A Channel that nothing was done to yet, in constant time. It takes no memory until a message
    /// is put.
    pub fn new(alloc: Global) -> Channel
        ensures { result ≡ [] }
    {
        Channel {
            history: Vec::new(alloc),
            puts: Vec::new(alloc),
            taken: 0,
            held: None,
        }
    }

    /// Sends a message (LÖVE wiki, `Channel:push`). It gives the place of the new entry in the
    /// history, and the message's id, which counts the messages that were ever sent. Both begin at
    /// 1.
    ///
    /// Amortised constant time, whatever the length of the history: the message is moved in and not
    /// copied.
    ///
    /// # Errors
    ///
    /// The message again, with [`PutFault::Full`] where the history has 2,000,000 entries or more,
    /// and with [`PutFault::Memory`] where there is no room for the entry.
    pub fn put(&mut self, by: Stamp, value: Variant) -> Result<(u32, u32), (Variant, PutFault)>
        requires admitted { IsAdmitted self.old by.state }
        requires later { IsLater self.old by }
        ensures entry { OnOk result (self.new ≡ self.old ++ put_by by value ∷ []) }
        ensures place { IfOk result (λ (place, id). place ≡ length self.old + 1) }
        ensures id { IfOk result (λ (place, id). id ≡ sent self.old + 1) }
        ensures numbered { IfOk result (λ (place, id). message self.new id ≡ Some value) }
        ensures full { (result ≡ Err (value, PutFault.Full)) ↔ (entry_limit ≤ length self.old) }
        ensures returned { IfErr result (λ (given, fault). given ≡ value) }
        ensures unchanged { OnErr result (self.new ≡ self.old) }
        ensures answer { (channel : ℕ) →
            Answers (Ask.Push channel value) by.state self.old (put_answer value result) }
    {
        if self.is_full() {
            return Err((value, PutFault::Full));
        }
        if self.history.reserve(ROOM).is_err() || self.puts.reserve(1).is_err() {
            return Err((value, PutFault::Memory));
        }
        self.puts.push(self.history.len() as u32).unwrap();
        let what = Change::Put(value);
        let place = append(&mut self.history, Entry { by, what });
        Ok((place, self.puts.len() as u32))
    }

    /// Receives the message that has waited longest (LÖVE wiki, `Channel:pop`). It gives the place
    /// of the new entry in the history, the message's id and the message; `None` where none waits,
    /// also at the limit of the history.
    ///
    /// Amortised constant time, whatever the length of the history, and the time of one copy of the
    /// message.
    ///
    /// # Errors
    ///
    /// [`PutFault::Full`] where a message waits and the history has 2,000,000 entries or more;
    /// [`PutFault::Memory`] where there is no room for the entry or the copy.
    pub fn take(&mut self, by: Stamp) -> Result<Option<(u32, u32, Variant)>, PutFault>
        requires admitted { IsAdmitted self.old by.state }
        requires later { IsLater self.old by }
        ensures none { (result ≡ Ok None) ↔ (queue self.old ≡ []) }
        ensures entry { IfTaken result (λ _. self.new ≡ self.old ++ take_by by ∷ []) }
        ensures place { IfTaken result (λ (place, id, value). place ≡ length self.old + 1) }
        ensures id { IfTaken result (λ (place, id, value). id ≡ received self.old + 1) }
        ensures first { IfTaken result (λ (place, id, value). front self.old ≡ Some value) }
        ensures numbered { IfTaken result (λ (place, id, value). message self.old id ≡ Some value) }
        ensures full { (result ≡ Err PutFault.Full)
            ↔ ((queue self.old ≢ []) × (entry_limit ≤ length self.old)) }
        ensures unchanged { UnlessTaken result (self.new ≡ self.old) }
        ensures answer { (channel : ℕ) →
            Answers (Ask.Pop channel) by.state self.old (take_answer result) }
    {
        let Some(message) = self.peek() else {
            return Ok(None);
        };
        if self.is_full() {
            return Err(PutFault::Full);
        }
        let message = message.copy(*self.history.allocator())?;
        self.history.reserve(ROOM)?;
        let what = Change::Take;
        let place = append(&mut self.history, Entry { by, what });
        self.taken += 1;
        Ok(Some((place, self.taken, message)))
    }

    /// Receives all messages that wait, and drops them (LÖVE wiki, `Channel:clear`). It gives the
    /// place of the new entry in the history; `None` where no message waits, also at the limit of
    /// the history. From then on each message that was sent counts as received.
    ///
    /// Amortised constant time, whatever the length of the history.
    ///
    /// # Errors
    ///
    /// [`PutFault::Full`] where a message waits and the history has 2,000,000 entries or more;
    /// [`PutFault::Memory`] where there is no room for the entry.
    pub fn wipe(&mut self, by: Stamp) -> Result<Option<u32>, PutFault>
        requires admitted { IsAdmitted self.old by.state }
        requires later { IsLater self.old by }
        ensures none { (result ≡ Ok None) ↔ (queue self.old ≡ []) }
        ensures entry { IfTaken result (λ _. self.new ≡ self.old ++ clear_by by ∷ []) }
        ensures place { IfTaken result (λ place. place ≡ length self.old + 1) }
        ensures full { (result ≡ Err PutFault.Full)
            ↔ ((queue self.old ≢ []) × (entry_limit ≤ length self.old)) }
        ensures unchanged { UnlessTaken result (self.new ≡ self.old) }
        ensures answer { (channel : ℕ) →
            Answers (Ask.Clear channel) by.state self.old (wipe_answer result) }
    {
        let Some(_) = self.peek() else {
            return Ok(None);
        };
        let all = self.sent();
        if self.is_full() {
            return Err(PutFault::Full);
        }
        self.history.reserve(ROOM)?;
        let what = Change::Clear;
        let place = append(&mut self.history, Entry { by, what });
        self.taken = all;
        Ok(Some(place))
    }

    /// Begins a section of the state, into which no other state comes (LÖVE wiki,
    /// `Channel:performAtomic`). It gives the place of the new entry in the history, and keeps room
    /// for the entry that ends the section.
    ///
    /// Amortised constant time, whatever the length of the history.
    ///
    /// # Errors
    ///
    /// [`PutFault::Full`] where the history has 2,000,000 entries or more; [`PutFault::Memory`]
    /// where there is no room for the two entries.
    pub fn enter(&mut self, by: Stamp) -> Result<u32, PutFault>
        requires alone { holder self.old ≡ None }
        requires later { IsLater self.old by }
        ensures entry { OnOk result (self.new ≡ self.old ++ enter_by by ∷ []) }
        ensures place { IfOk result (λ place. place ≡ length self.old + 1) }
        ensures full { (result ≡ Err PutFault.Full) ↔ (entry_limit ≤ length self.old) }
        ensures unchanged { OnErr result (self.new ≡ self.old) }
        ensures answer { (channel : ℕ) →
            Answers (Ask.Enter channel) by.state self.old (enter_answer result) }
    {
        if self.is_full() {
            return Err(PutFault::Full);
        }
        self.history.reserve(ROOM)?;
        let what = Change::Enter;
        let place = append(&mut self.history, Entry { by, what });
        self.held = Some(by.state);
        Ok(place)
    }

    /// Ends the section of the state, and gives the place of the new entry in the history. It is
    /// never refused and takes no memory; the limit of the history doesn't count. Constant time.
    pub fn leave(&mut self, by: Stamp) -> u32
        requires inside { holder self.old ≡ Some by.state }
        requires later { IsLater self.old by }
        ensures entry { self.new ≡ self.old ++ leave_by by ∷ [] }
        ensures place { result ≡ length self.old + 1 }
        ensures answer { (channel : ℕ) →
            answer (Deed.Asked (Ask.Leave channel)) by.state 1 self.old
            ≡ adds Reply.Done Change.Leave }
        ensures cut { (channel depth : ℕ) →
            answer (Deed.CutLeave channel) by.state depth self.old
            ≡ adds Reply.Done Change.Leave }
    {
        let what = Change::Leave;
        let place = append(&mut self.history, Entry { by, what });
        self.held = None;
        place
    }

    /// The message that has waited longest, which stays (LÖVE wiki, `Channel:peek`); `None` where
    /// none waits. A read of two entries, which takes no memory.
    pub fn peek(&self) -> Option<&Variant>
        ensures front { option_copied result ≡ front self.now }
        ensures answer { (channel state : ℕ) → IsAdmitted self.now state →
            Answers (Ask.Peek channel) state self.now (peek_answer (option_copied result)) }
    {
        let place = place_of(&self.puts, self.taken)?;
        message_at(&self.history, place)
    }

    /// How many messages wait (LÖVE wiki, `Channel:getCount`): a read, which takes no memory.
    pub fn count(&self) -> u32
        ensures count { result ≡ sent self.now - received self.now }
        ensures waiting { result ≡ length (queue self.now) }
        ensures answer { (channel state : ℕ) → IsAdmitted self.now state →
            Answers (Ask.Count channel) state self.now (only (Reply.Number result)) }
    {
        self.sent() - self.taken
    }

    /// Whether the message of this id was received (LÖVE wiki, `Channel:hasRead`): so are those of
    /// 1 up to the received count, and an id that was never given is not. A read, which takes no
    /// memory.
    pub fn has_read(&self, id: i64) -> bool
        ensures read { result ≡ is_read self.now id }
        ensures answer { (channel state : ℕ) → IsAdmitted self.now state →
            Answers (Ask.HasRead channel id) state self.now (only (Reply.Flag result)) }
    {
        1 <= id && id <= self.taken as i64
    }

    /// The state in whose section the Channel is, if there is one: a read, which takes no memory.
    pub fn holder(&self) -> Option<u32>
        ensures { result ≡ holder self.now }
    {
        self.held
    }

    /// All that was done to this Channel, from the first entry on, in constant time. It takes no
    /// memory.
    ///
    /// What was sent is what was received, in that order, and then what waits.
    pub fn history(&self) -> &[Entry]
        ensures entries { result.now ≡ self.now }
        ensures lawful { IsLawful self.now }
        ensures in_order { sent_messages self.now ≡ received_messages self.now ++ queue self.now }
    {
        self.history.as_slice()
    }

    /// How many messages were sent: a read, which takes no memory.
    pub fn sent(&self) -> u32
        ensures { result ≡ sent self.now }
    {
        self.puts.len() as u32
    }

    /// How many messages were received: a read, which takes no memory.
    pub fn received(&self) -> u32
        ensures { result ≡ received self.now }
    {
        self.taken
    }

    // Whether the history takes no further message and gives none.
    fn is_full(&self) -> bool
        ensures { IsTrue result ↔ (entry_limit ≤ length self.now) }
    {
        self.history.len() >= ENTRY_LIMIT
    }
}

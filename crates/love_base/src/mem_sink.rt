ghost use Rattle.std.specs.Prelude.{◌≡◌, ◌++◌, ◌<◌, ◌↔◌, [], Option, length, take, min, IfOk, OnErr, OnOk, IsErrOf, IsTrue};
ghost use Rattle.love_base.specs.Fault.{HasRisen};
ghost use Rattle.love_base.specs.Scripted.{after_call, fails_next, unused};

use crate::script::Script;
use crate::{Memory, Sink, SinkErr};
use std::alloc::Global;
use std::marker::Model;

/// A sink in memory that tells its bytes, takes few at a time and fails at chosen calls.
#[derive(Debug, Drop)]
pub struct MemSink {
    most: usize,
    script: Script,
    taken: Vec<u8>,
}

impl Model for MemSink {
    ghost use Rattle.std.specs.Prelude.{◌<◌};
    ghost use Rattle.love_base.specs.Scripted.{ScriptedSink};

    ghost Value = { ScriptedSink };

    ghost view = { λ sink. record {
      most = sink.most;
      script = sink.script;
      taken = sink.taken.items;
    } };

    ghost invariant = { λ sink. 0 < sink.most };
}

impl MemSink {
    /// A sink that takes at most `most` bytes a call. The calls whose numbers, counted from 1,
    /// stand in `fails` answer [`SinkErr::Failed`]. It takes no memory until bytes are written.
    pub fn new(alloc: Global, most: usize, fails: Vec<u64>) -> MemSink
        requires { 0 < most }
        ensures most { result.most ≡ most }
        ensures script { result.script ≡ unused fails.items }
        ensures taken { result.taken ≡ [] }
    {
        MemSink {
            most,
            script: Script::new(fails),
            taken: Vec::new(alloc),
        }
    }

    /// The bytes taken so far, in order, in constant time.
    pub fn taken(&self) -> &[u8]
        ensures { result.now ≡ self.now.taken }
    {
        self.taken.as_slice()
    }

    // Puts the bytes behind those taken.
    fn append(&mut self, bytes: &[u8]) -> Result<(), Memory>
        ensures taken { OnOk result (self.new.taken ≡ self.old.taken ++ bytes.now) }
        ensures refused { OnErr result (self.new.taken ≡ self.old.taken) }
        ensures most { self.new.most ≡ self.old.most }
        ensures script { self.new.script ≡ self.old.script }
    {
        self.taken.extend_from_slice(bytes)?;
        Ok(())
    }
}

impl Sink for MemSink {
    ghost faults = { λ sink. sink.script.faults };

    ghost taken = { λ sink. Option.Some sink.taken };

    /// A write for which there is no room answers [`SinkErr::Memory`], takes nothing, and is no
    /// fault. The bytes taken are copied.
    fn write(&mut self, piece: &[u8]) -> Result<usize, SinkErr>
        requires { 0 < length piece.now }
        ensures count { IfOk result (λ count. count ≡ min self.old.most (length piece.now)) }
        ensures some { IfOk result (λ count. 0 < count) }
        ensures taken { IfOk result (λ count.
            self.new.taken ≡ self.old.taken ++ take count piece.now) }
        ensures refused { OnErr result (self.new.taken ≡ self.old.taken) }
        ensures fails { IsErrOf result SinkErr.Failed ↔ IsTrue (fails_next self.old.script) }
        ensures failed { IsErrOf result SinkErr.Failed
            → HasRisen self.old.script.faults self.new.script.faults }
        ensures script { self.new.script ≡ after_call self.old.script }
        ensures most { self.new.most ≡ self.old.most }
    {
        if self.script.call_fails() {
            return Err(SinkErr::Failed);
        }
        let count = self.most.min(piece.len());
        self.append(&piece[..count])?;
        Ok(count)
    }
}

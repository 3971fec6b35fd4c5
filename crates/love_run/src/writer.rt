ghost use Rattle.std.specs.Prelude.{◌≡◌, ◌++◌, ◌<◌, List, ℕ, OnOk, OnErr, IsErrOf};
ghost use Rattle.std.specs.Option.{option_map};
ghost use Rattle.love_base.specs.Fault.{HasRisen};
ghost use Rattle.love_base.specs.Prefix.{IsPrefix};

use love_base::{Sink, SinkErr};

// The most bytes that are offered to a sink at once.
const PIECE: usize = 4096;

// Writes all of `out`, in pieces of the next 4,096 bytes that aren't taken yet, or of all that are
// left.
pub(crate) fn write_all<S: Sink>(sink: &mut S, out: &[u8]) -> Result<(), SinkErr>
    ensures all { OnOk result
        (S.taken sink.new ≡ option_map (λ before. before ++ out.now) (S.taken sink.old)) }
    ensures part { OnErr result ((sent : List ℕ) × IsPrefix sent out.now
        × (S.taken sink.new ≡ option_map (λ before. before ++ sent) (S.taken sink.old))) }
    ensures failed { IsErrOf result SinkErr.Failed
        → HasRisen (S.faults sink.old) (S.faults sink.new) }
    ensures told { S.faults sink.old < S.faults sink.new → IsErrOf result SinkErr.Failed }
{
    let mut written = 0;
    while written < out.len() {
        let end = out.len().min(written + PIECE);
        written += sink.write(&out[written..end])?;
    }
    Ok(())
}

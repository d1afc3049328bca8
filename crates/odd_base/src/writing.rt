ghost use Rattle.std.specs.Prelude.{◌≡◌, ◌≤◌, ◌+◌, ◌++◌, List, ℕ, Some, length, IsTrue, IsOk, OnOk, OnErr};
ghost use Rattle.odd_text.specs.Count.{HasRisen};
ghost use Rattle.odd_base.specs.Sink.{IsPartWritten};

use crate::sink::{Sink, SinkFault};

/// Writes all of the bytes. Each `put` is given all of them that are not yet written, which no clause says. After a fault a
/// front of them is written, and not the whole.
pub fn write_whole<W: Sink>(out: &mut W, bytes: &[u8]) -> Result<(), SinkFault>
    ensures whole { (before : List ℕ) → W.written out.old ≡ Some before → OnOk result (W.written out.new ≡ Some (before ++ bytes.now)) }
    ensures part { (before : List ℕ) → W.written out.old ≡ Some before → OnErr result (IsPartWritten before bytes.now (W.written out.new)) }
    ensures rose { OnErr result (HasRisen (W.faults out.old) (W.faults out.new)) }
    ensures room { IsTrue (W.steady out.old) → length bytes.now ≤ W.room out.old → IsOk result }
    ensures room_taken { IsTrue (W.steady out.old) → OnOk result (W.room out.new + length bytes.now ≡ W.room out.old) }
    ensures same_steady { W.steady out.new ≡ W.steady out.old }
    ensures never_falls { W.faults out.old ≤ W.faults out.new }
{
    let mut done = 0;
    'writing: while done < bytes.len() {
        match out.put(&bytes[done..]) {
            Ok(n) => done += n,
            Err(fault) => return Err(fault),
        }
    }
    Ok(())
}

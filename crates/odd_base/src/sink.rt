ghost use Rattle.std.specs.Prelude.{◌≡◌, ◌≤◌, ◌<◌, ◌+◌, ◌++◌, ℕ, List, Option, Some, [], length, take, IsTrue, IfOk, OnErr, Bool};
ghost use Rattle.odd_text.specs.Count.{last_count, HasRisen};

/// Nothing of a piece could be written.
#[derive(Clone, Copy, Debug, PartialEq, Eq)]
pub struct SinkFault;

/// An output, which is written in pieces.
pub trait Sink {
    /// The bytes that are written, where it tells them.
    ghost written: { Self → Option (List ℕ) };

    /// The count of faults.
    ghost faults: { Self → ℕ };

    /// How many bytes it still takes, where it is steady.
    ghost room: { Self → ℕ };

    /// Whether it faults only where no room is left.
    ghost steady: { Self → Bool };

    /// Writes the front of a piece, and says how many bytes it took.
    fn put(&mut self, bytes: &[u8]) -> Result<usize, SinkFault>
        ensures same_steady { steady self.new ≡ steady self.old }

        // An empty piece changes nothing.
        ensures empty { bytes.now ≡ [] → (result ≡ Ok 0) × (self.new ≡ self.old) }

        ensures some { 0 < length bytes.now → IfOk result (λ n. 0 < n) }
        ensures within { IfOk result (λ n. n ≤ length bytes.now) }
        ensures appended { (before : List ℕ) → written self.old ≡ Some before → IfOk result (λ n. written self.new ≡ Some (before ++ take n bytes.now)) }
        ensures unwritten { OnErr result (written self.new ≡ written self.old) }

        ensures never_falls { faults self.old ≤ faults self.new }
        ensures stands_still { faults self.old ≡ last_count → faults self.new ≡ last_count }
        ensures rose { OnErr result (HasRisen (faults self.old) (faults self.new)) }

        ensures room_taken { IsTrue (steady self.old) → IfOk result (λ n. room self.new + n ≡ room self.old) }
        ensures room_kept { IsTrue (steady self.old) → OnErr result (room self.new ≡ room self.old) }
        ensures steady_fault { IsTrue (steady self.old) → OnErr result (room self.old ≡ 0) };
}

ghost use Rattle.std.specs.Prelude.{◌≡◌, ◌≤◌, ◌<◌, ℕ, List, Option, Some, [], length, IsTrue, IsOk, IsErr, IfOk, IfSome, OnOk, OnErr, Bool, if◌then◌else◌};
ghost use Rattle.odd_text.specs.Count.{last_count, next_count, HasRisen};
ghost use Rattle.odd_base.specs.Shelf.{FileMap, NotHeld, Opened, TakesFront, brings};

use odd_text::Text;

/// A file could not be begun or read.
#[derive(Clone, Copy, Debug, PartialEq, Eq)]
pub struct ShelfFault;

/// Files by name, which are read one after the other in pieces.
pub trait Shelf {
    /// The files that it holds, where it tells them.
    ghost holds: { Self → Option FileMap };

    /// The unread bytes of the file that was begun, where it tells them.
    ghost rest: { Self → Option (List ℕ) };

    /// The count of faults.
    ghost faults: { Self → ℕ };

    /// The count of reads that brought bytes.
    ghost reads: { Self → ℕ };

    /// The count of files that were begun, also of those that could not be.
    ghost begins: { Self → ℕ };

    /// Whether it faults only at a name that it does not hold, and at a read before any file was begun.
    ghost steady: { Self → Bool };

    /// Begins the file of a name.
    fn begin(&mut self, name: &Text) -> Result<(), ShelfFault>
        ensures same_files { holds self.new ≡ holds self.old }
        ensures same_steady { steady self.new ≡ steady self.old }
        ensures same_reads { reads self.new ≡ reads self.old }
        ensures counted { begins self.new ≡ next_count (begins self.old) }

        // Ok only at a file that is held, of which all is unread then.
        ensures opened { (files : FileMap) → holds self.old ≡ Some files → OnOk result (Opened files name.now (rest self.new)) }

        // A fault leaves nothing unread.
        ensures closed { (files : FileMap) → holds self.old ≡ Some files → OnErr result (rest self.new ≡ Some []) }
        ensures emptied { OnErr result (IfSome (rest self.new) (λ left. left ≡ [])) }

        ensures begins_never_fall { begins self.old ≤ begins self.new }
        ensures never_falls { faults self.old ≤ faults self.new }
        ensures stands_still { faults self.old ≡ last_count → faults self.new ≡ last_count }
        ensures rose { OnErr result (HasRisen (faults self.old) (faults self.new)) }
        ensures steady_fault { (files : FileMap) → holds self.old ≡ Some files → IsTrue (steady self.old) → OnErr result (NotHeld files name.now) };

    /// Reads the next bytes into the front of the buffer, and says how many. None into a buffer that is not empty
    /// says that the file has no more.
    fn read(&mut self, buf: &mut [u8]) -> Result<usize, ShelfFault>
        ensures same_files { holds self.new ≡ holds self.old }
        ensures same_steady { steady self.new ≡ steady self.old }
        ensures same_begins { begins self.new ≡ begins self.old }

        ensures within { IfOk result (λ n. n ≤ length buf.old) }
        ensures moved { (unread : List ℕ) → rest self.old ≡ Some unread → IfOk result (TakesFront unread buf.old buf.new (rest self.new)) }
        ensures unmoved { OnErr result (rest self.new ≡ rest self.old) }
        ensures counted { reads self.new ≡ (if brings result then next_count (reads self.old) else reads self.old) }

        ensures not_begun { begins self.old ≡ 0 → IsErr result }
        ensures reads_never_fall { reads self.old ≤ reads self.new }
        ensures never_falls { faults self.old ≤ faults self.new }
        ensures stands_still { faults self.old ≡ last_count → faults self.new ≡ last_count }
        ensures rose { OnErr result (HasRisen (faults self.old) (faults self.new)) }
        ensures steady_fault { IsTrue (steady self.old) → 0 < begins self.old → IsOk result };
}

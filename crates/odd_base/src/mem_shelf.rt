ghost use Rattle.std.specs.Prelude.{◌≡◌, ◌≤◌, ◌<◌, ◌+◌, ◌^◌, ◌⊎◌, ℕ, List, Some, [], length, if◌then◌else◌, is_err, IsTrue, IsOk, IsErr, IfOk, IfSome, OnOk, OnErr};
ghost use Rattle.odd_text.specs.Count.{last_count, next_count, HasRisen};
ghost use Rattle.odd_base.specs.Shelf.{FileMap, NotHeld, Opened, TakesFront, brings};
ghost use Rattle.std.specs.FinMap as finite;
ghost use Rattle.odd_text.specs.Text.{text_cmp};
ghost use Rattle.odd_base.specs.Memory.{files_of, pairs_of, bytes_at, rest_of, is_empty, IsToFail};

use crate::shelf::{Shelf, ShelfFault};
use odd_text::count::next_count;
use odd_text::{Bytes, Seq, Text};

/// A file in memory.
#[derive(Debug, Drop)]
pub struct File {
    pub name: Text,
    pub bytes: Bytes,
}

/// A list of files. Of two files of one name the first counts.
pub type Files = Seq<File>;

/// A list of the numbers of calls, counted from 1.
pub type Calls = Seq<u64>;

/// The number of a file, and how many of its bytes were read.
#[derive(Clone, Copy, Debug, PartialEq, Eq)]
struct Place {
    number: usize,
    at: usize,
}

/// Files in memory, of which a read brings at most `chunk` bytes. Beside the faults of a steady shelf, the calls
/// whose numbers are in `fail` fault; calls of `begin` and `read` are counted together.
#[derive(Drop)]
pub struct MemShelf {
    files: Files,
    chunk: usize,
    fail: Calls,
    begins: u64,
    place: Option<Place>,
    calls: u64,
    faults: u64,
    reads: u64,
    ghost some: { 1 ≤ chunk },
}

impl MemShelf {
    /// A shelf that holds the files. `chunk` is a number of bytes.
    pub fn new(files: Files, chunk: usize, fail: Calls) -> MemShelf
        requires { 1 ≤ chunk }
        ensures holds { ⟦<MemShelf as Shelf>⟧.holds result ≡ Some (files_of files) }
        ensures nothing_unread { ⟦<MemShelf as Shelf>⟧.rest result ≡ Some [] }
        ensures not_begun { ⟦<MemShelf as Shelf>⟧.begins result ≡ 0 }
        ensures no_faults { ⟦<MemShelf as Shelf>⟧.faults result ≡ 0 }
        ensures keeps { (result.chunk ≡ chunk) × (result.fail ≡ fail) }
        ensures no_calls { result.calls ≡ 0 }
        ensures no_reads { ⟦<MemShelf as Shelf>⟧.reads result ≡ 0 }
        ensures steady { ⟦<MemShelf as Shelf>⟧.steady result ≡ is_empty fail }
    {
        MemShelf {
            files,
            chunk,
            fail,
            begins: 0,
            place: None,
            calls: 0,
            faults: 0,
            reads: 0,
        }
    }
}

// The number of the first file of a name.
fn find_file(files: &[File], name: &Text) -> Option<usize>
    ensures bytes { bytes_at files.now result ≡ finite.find text_cmp name.now (pairs_of files.now) }
    ensures within { IfSome result (λ number. number < length files.now) }
{
    for (number, file) in files.iter().enumerate() {
        if file.name == *name {
            return Some(number);
        }
    }
    None
}

// What is unread at a place.
fn rest_at<'a>(files: &'a [File], place: Option<Place>) -> &'a [u8]
    ensures value { result.now ≡ rest_of files.now place }
    ensures fits { IfSome place (λ p. 0 < length result.now → p.at + length result.now < 2 ^ 64) }
{
    match place {
        None => &[],
        Some(Place { number, at }) => match files.get(number) {
            None => &[],
            Some(file) => {
                let bytes = file.bytes.as_slice();
                if at <= bytes.len() { &bytes[at..] } else { &[] }
            }
        },
    }
}

impl Shelf for MemShelf {
    ghost use Rattle.std.specs.Prelude.{Some};
    ghost use Rattle.odd_base.specs.Memory.{files_of, rest_of, is_empty};

    ghost holds = { λ s. Some (files_of s.files) };

    ghost rest = { λ s. Some (rest_of s.files s.place) };

    ghost faults = { λ s. s.faults };

    ghost reads = { λ s. s.reads };

    ghost begins = { λ s. s.begins };

    ghost steady = { λ s. is_empty s.fail };

    fn begin(&mut self, name: &Text) -> Result<(), ShelfFault>
        ensures same_files { ⟦<MemShelf as Shelf>⟧.holds self.new ≡ ⟦<MemShelf as Shelf>⟧.holds self.old }
        ensures same_steady { ⟦<MemShelf as Shelf>⟧.steady self.new ≡ ⟦<MemShelf as Shelf>⟧.steady self.old }
        ensures same_reads { ⟦<MemShelf as Shelf>⟧.reads self.new ≡ ⟦<MemShelf as Shelf>⟧.reads self.old }
        ensures counted { ⟦<MemShelf as Shelf>⟧.begins self.new ≡ next_count (⟦<MemShelf as Shelf>⟧.begins self.old) }
        ensures opened { (files : FileMap) → ⟦<MemShelf as Shelf>⟧.holds self.old ≡ Some files → OnOk result (Opened files name.now (⟦<MemShelf as Shelf>⟧.rest self.new)) }
        ensures closed { (files : FileMap) → ⟦<MemShelf as Shelf>⟧.holds self.old ≡ Some files → OnErr result (⟦<MemShelf as Shelf>⟧.rest self.new ≡ Some []) }
        ensures emptied { OnErr result (IfSome (⟦<MemShelf as Shelf>⟧.rest self.new) (λ left. left ≡ [])) }
        ensures begins_never_fall { ⟦<MemShelf as Shelf>⟧.begins self.old ≤ ⟦<MemShelf as Shelf>⟧.begins self.new }
        ensures never_falls { ⟦<MemShelf as Shelf>⟧.faults self.old ≤ ⟦<MemShelf as Shelf>⟧.faults self.new }
        ensures stands_still { ⟦<MemShelf as Shelf>⟧.faults self.old ≡ last_count → ⟦<MemShelf as Shelf>⟧.faults self.new ≡ last_count }
        ensures rose { OnErr result (HasRisen (⟦<MemShelf as Shelf>⟧.faults self.old) (⟦<MemShelf as Shelf>⟧.faults self.new)) }
        ensures steady_fault { (files : FileMap) → ⟦<MemShelf as Shelf>⟧.holds self.old ≡ Some files → IsTrue (⟦<MemShelf as Shelf>⟧.steady self.old) → OnErr result (NotHeld files name.now) }

        // Beside the clauses of the trait: which calls fault, and what is counted.
        ensures called { self.new.calls ≡ next_count self.old.calls }
        ensures kept { (self.new.chunk ≡ self.old.chunk) × (self.new.fail ≡ self.old.fail) }
        ensures fails { IsToFail self.old.fail (next_count self.old.calls) → IsErr result }
        ensures fails_only { OnErr result (IsToFail self.old.fail (next_count self.old.calls) ⊎ NotHeld (files_of self.old.files) name.now) }
        ensures counts_faults { self.new.faults ≡ (if is_err result then next_count self.old.faults else self.old.faults) }
    {
        self.begins = next_count(self.begins);
        self.place = None;
        self.calls = next_count(self.calls);
        if self.fail.as_slice().contains(&self.calls) {
            self.faults = next_count(self.faults);
            return Err(ShelfFault);
        }
        match find_file(self.files.as_slice(), name) {
            Some(number) => {
                self.place = Some(Place { number, at: 0 });
                Ok(())
            }
            None => {
                self.faults = next_count(self.faults);
                Err(ShelfFault)
            }
        }
    }

    fn read(&mut self, buf: &mut [u8]) -> Result<usize, ShelfFault>
        ensures same_files { ⟦<MemShelf as Shelf>⟧.holds self.new ≡ ⟦<MemShelf as Shelf>⟧.holds self.old }
        ensures same_steady { ⟦<MemShelf as Shelf>⟧.steady self.new ≡ ⟦<MemShelf as Shelf>⟧.steady self.old }
        ensures same_begins { ⟦<MemShelf as Shelf>⟧.begins self.new ≡ ⟦<MemShelf as Shelf>⟧.begins self.old }
        ensures within { IfOk result (λ n. n ≤ length buf.old) }
        ensures moved { (unread : List ℕ) → ⟦<MemShelf as Shelf>⟧.rest self.old ≡ Some unread → IfOk result (TakesFront unread buf.old buf.new (⟦<MemShelf as Shelf>⟧.rest self.new)) }
        ensures unmoved { OnErr result (⟦<MemShelf as Shelf>⟧.rest self.new ≡ ⟦<MemShelf as Shelf>⟧.rest self.old) }
        ensures counted { ⟦<MemShelf as Shelf>⟧.reads self.new ≡ (if brings result then next_count (⟦<MemShelf as Shelf>⟧.reads self.old) else ⟦<MemShelf as Shelf>⟧.reads self.old) }
        ensures not_begun { ⟦<MemShelf as Shelf>⟧.begins self.old ≡ 0 → IsErr result }
        ensures reads_never_fall { ⟦<MemShelf as Shelf>⟧.reads self.old ≤ ⟦<MemShelf as Shelf>⟧.reads self.new }
        ensures never_falls { ⟦<MemShelf as Shelf>⟧.faults self.old ≤ ⟦<MemShelf as Shelf>⟧.faults self.new }
        ensures stands_still { ⟦<MemShelf as Shelf>⟧.faults self.old ≡ last_count → ⟦<MemShelf as Shelf>⟧.faults self.new ≡ last_count }
        ensures rose { OnErr result (HasRisen (⟦<MemShelf as Shelf>⟧.faults self.old) (⟦<MemShelf as Shelf>⟧.faults self.new)) }
        ensures steady_fault { IsTrue (⟦<MemShelf as Shelf>⟧.steady self.old) → 0 < ⟦<MemShelf as Shelf>⟧.begins self.old → IsOk result }

        // Beside the clauses of the trait: which calls fault, how much comes, and what is counted.
        ensures called { self.new.calls ≡ next_count self.old.calls }
        ensures kept { (self.new.chunk ≡ self.old.chunk) × (self.new.fail ≡ self.old.fail) }
        ensures at_most_chunk { IfOk result (λ n. n ≤ self.old.chunk) }
        ensures fails { IsToFail self.old.fail (next_count self.old.calls) → IsErr result }
        ensures fails_only { OnErr result (IsToFail self.old.fail (next_count self.old.calls) ⊎ (self.old.begins ≡ 0)) }
        ensures counts_faults { self.new.faults ≡ (if is_err result then next_count self.old.faults else self.old.faults) }
    {
        self.calls = next_count(self.calls);
        if self.begins == 0 || self.fail.as_slice().contains(&self.calls) {
            self.faults = next_count(self.faults);
            return Err(ShelfFault);
        }
        let rest = rest_at(self.files.as_slice(), self.place);
        let n = rest.len().min(self.chunk).min(buf.len());
        buf[..n].copy_from_slice(&rest[..n]);
        if n > 0 {
            self.reads = next_count(self.reads);
            if let Some(Place { number, at }) = self.place {
                self.place = Some(Place { number, at: at + n });
            }
        }
        Ok(n)
    }
}

ghost use Rattle.std.specs.Prelude.{◌≡◌, ◌≤◌, ◌<◌, ◌+◌, ◌-◌, ◌++◌, ◌⊎◌, ℕ, List, Some, [], length, take, vec_len, vec_capacity, if◌then◌else◌, is_err, IsTrue, IsErr, IfOk, OnErr};
ghost use Rattle.odd_text.specs.Count.{last_count, next_count, HasRisen};
ghost use Rattle.odd_base.specs.Memory.{is_empty, IsToFail};

use crate::mem_shelf::Calls;
use crate::sink::{Sink, SinkFault};
use odd_text::NoMemory;
use odd_text::count::next_count;
use std::alloc::Global;

/// An output in memory, with room for a number of bytes, of which a call of `put` takes at most `chunk` bytes. It
/// faults where no room is left, and at the calls whose numbers, counted from 1, are in `fail`.
#[derive(Drop)]
pub struct MemSink {
    bytes: Vec<u8>,
    room: usize,
    chunk: usize,
    fail: Calls,
    calls: u64,
    faults: u64,
    ghost some: { 1 ≤ chunk },
    ghost within: { vec_len bytes ≤ room },
    ghost reserved: { room ≤ vec_capacity bytes },
}

impl MemSink {
    /// An empty output. `room` and `chunk` are numbers of bytes; memory for the room is taken here.
    pub fn new(alloc: Global, room: usize, chunk: usize, fail: Calls) -> Result<MemSink, NoMemory>
        requires { 1 ≤ chunk }
        ensures nothing { IfOk result (λ made. ⟦<MemSink as Sink>⟧.written made ≡ Some []) }
        ensures no_faults { IfOk result (λ made. ⟦<MemSink as Sink>⟧.faults made ≡ 0) }
        ensures room { IfOk result (λ made. ⟦<MemSink as Sink>⟧.room made ≡ room) }
        ensures keeps { IfOk result (λ made. (made.chunk ≡ chunk) × (made.fail ≡ fail)) }
        ensures no_calls { IfOk result (λ made. made.calls ≡ 0) }
        ensures steady { IfOk result (λ made. ⟦<MemSink as Sink>⟧.steady made ≡ is_empty fail) }
    {
        let bytes = Vec::with_capacity(alloc, room)?;
        Ok(MemSink {
            bytes,
            room,
            chunk,
            fail,
            calls: 0,
            faults: 0,
        })
    }

    /// The bytes that are written.
    pub fn written(&self) -> &[u8]
        ensures { ⟦<MemSink as Sink>⟧.written self.now ≡ Some result.now }
    {
        self.bytes.as_slice()
    }
}

impl Sink for MemSink {
    ghost use Rattle.std.specs.Prelude.{Some, ◌-◌, vec_len};
    ghost use Rattle.odd_base.specs.Memory.{is_empty};

    ghost written = { λ s. Some s.bytes.items };

    ghost faults = { λ s. s.faults };

    ghost room = { λ s. s.room - vec_len s.bytes };

    ghost steady = { λ s. is_empty s.fail };

    fn put(&mut self, bytes: &[u8]) -> Result<usize, SinkFault>
        ensures same_steady { ⟦<MemSink as Sink>⟧.steady self.new ≡ ⟦<MemSink as Sink>⟧.steady self.old }
        ensures empty { bytes.now ≡ [] → (result ≡ Ok 0) × (self.new ≡ self.old) }
        ensures some { 0 < length bytes.now → IfOk result (λ n. 0 < n) }
        ensures within { IfOk result (λ n. n ≤ length bytes.now) }
        ensures appended { (before : List ℕ) → ⟦<MemSink as Sink>⟧.written self.old ≡ Some before → IfOk result (λ n. ⟦<MemSink as Sink>⟧.written self.new ≡ Some (before ++ take n bytes.now)) }
        ensures unwritten { OnErr result (⟦<MemSink as Sink>⟧.written self.new ≡ ⟦<MemSink as Sink>⟧.written self.old) }
        ensures never_falls { ⟦<MemSink as Sink>⟧.faults self.old ≤ ⟦<MemSink as Sink>⟧.faults self.new }
        ensures stands_still { ⟦<MemSink as Sink>⟧.faults self.old ≡ last_count → ⟦<MemSink as Sink>⟧.faults self.new ≡ last_count }
        ensures rose { OnErr result (HasRisen (⟦<MemSink as Sink>⟧.faults self.old) (⟦<MemSink as Sink>⟧.faults self.new)) }
        ensures room_taken { IsTrue (⟦<MemSink as Sink>⟧.steady self.old) → IfOk result (λ n. ⟦<MemSink as Sink>⟧.room self.new + n ≡ ⟦<MemSink as Sink>⟧.room self.old) }
        ensures room_kept { IsTrue (⟦<MemSink as Sink>⟧.steady self.old) → OnErr result (⟦<MemSink as Sink>⟧.room self.new ≡ ⟦<MemSink as Sink>⟧.room self.old) }
        ensures steady_fault { IsTrue (⟦<MemSink as Sink>⟧.steady self.old) → OnErr result (⟦<MemSink as Sink>⟧.room self.old ≡ 0) }

        // Beside the clauses of the trait: which calls fault, how much is taken, and what is counted.
        ensures called { 0 < length bytes.now → self.new.calls ≡ next_count self.old.calls }
        ensures kept { (self.new.chunk ≡ self.old.chunk) × (self.new.fail ≡ self.old.fail) }
        ensures at_most_chunk { IfOk result (λ n. n ≤ self.old.chunk) }
        ensures at_most_room { IfOk result (λ n. n ≤ ⟦<MemSink as Sink>⟧.room self.old) }
        ensures fails { 0 < length bytes.now → IsToFail self.old.fail (next_count self.old.calls) → IsErr result }
        ensures fails_only { OnErr result (IsToFail self.old.fail (next_count self.old.calls) ⊎ (⟦<MemSink as Sink>⟧.room self.old ≡ 0)) }
        ensures counts_faults { self.new.faults ≡ (if is_err result then next_count self.old.faults else self.old.faults) }
    {
        if bytes.is_empty() {
            return Ok(0);
        }
        self.calls = next_count(self.calls);
        let left = self.room - self.bytes.len();
        if left == 0 || self.fail.as_slice().contains(&self.calls) {
            self.faults = next_count(self.faults);
            return Err(SinkFault);
        }
        let n = left.min(self.chunk).min(bytes.len());
        let piece = &bytes[..n];
        self.bytes.extend_from_slice(piece).unwrap();
        Ok(n)
    }
}

ghost use Rattle.std.specs.Prelude.{◌≡◌, ◌≤◌, ◌+◌, ℕ, List, Some, [], length, IsTrue, IfOk, OnOk};
ghost use Rattle.odd_text.specs.Count.{HasRisen, next_count};
ghost use Rattle.odd_base.specs.Shelf.{FileMap, Held, NotHeld, IsTooLong, LeavesSuffix};

use crate::shelf::Shelf;
use odd_text::{Bytes, Text};
use std::alloc::Global;

/// Why a file was not read.
#[derive(Clone, Copy, Debug, PartialEq, Eq, thiserror::Error)]
pub enum SlurpRefusal {
    #[error("the file cannot be read")]
    ReadFault,
    #[error("the file is too long")]
    TooLong,
    #[error("there is no memory")]
    NoMemory,
}

// How many bytes one read asks for.
const PIECE: usize = 8192;

/// The bytes of a file. `limit` is the greatest number of bytes that it may have.
///
/// ReadFault comes only where the shelf's count of faults rose; always where no file of the name is held, and over a steady
/// shelf nowhere else. TooLong comes only where the file has more bytes than the limit, which is then never read as Ok.
/// NoMemory is answered for want of memory.
pub fn slurp<F: Shelf>(
    alloc: Global,
    shelf: &mut F,
    name: &Text,
    limit: usize,
) -> Result<Bytes, SlurpRefusal>
    ensures ok { (files : FileMap) → F.holds shelf.old ≡ Some files → IfOk result (λ bytes. Held files name.now bytes) }
    ensures within { IfOk result (λ bytes. length bytes ≤ limit) }
    ensures to_the_end { (files : FileMap) → F.holds shelf.old ≡ Some files → OnOk result (F.rest shelf.new ≡ Some []) }
    ensures too_long { (files : FileMap) → F.holds shelf.old ≡ Some files → result ≡ Err SlurpRefusal.TooLong → IsTooLong files name.now limit }

    // ReadFault comes only where the count of faults rose.
    ensures rose { result ≡ Err SlurpRefusal.ReadFault → HasRisen (F.faults shelf.old) (F.faults shelf.new) }
    ensures not_held { (files : FileMap) → F.holds shelf.old ≡ Some files → NotHeld files name.now → result ≡ Err SlurpRefusal.ReadFault }
    ensures steady_fault { (files : FileMap) → F.holds shelf.old ≡ Some files → IsTrue (F.steady shelf.old) → result ≡ Err SlurpRefusal.ReadFault → NotHeld files name.now }
    ensures suffix { (files : FileMap) (bytes : List ℕ) → F.holds shelf.old ≡ Some files → Held files name.now bytes → result ≡ Err SlurpRefusal.ReadFault → LeavesSuffix bytes (F.rest shelf.new) }

    ensures same_files { F.holds shelf.new ≡ F.holds shelf.old }
    ensures same_steady { F.steady shelf.new ≡ F.steady shelf.old }
    ensures begins { F.begins shelf.new ≡ next_count (F.begins shelf.old) }
    ensures begins_never_fall { F.begins shelf.old ≤ F.begins shelf.new }
    ensures reads_never_fall { F.reads shelf.old ≤ F.reads shelf.new }
    ensures never_falls { F.faults shelf.old ≤ F.faults shelf.new }
    ensures few_reads { F.reads shelf.new ≤ F.reads shelf.old + (limit + 1) }
{
    match shelf.begin(name) {
        Ok(()) => {}
        Err(_) => return Err(SlurpRefusal::ReadFault),
    }
    let mut bytes = Vec::new(alloc);
    let mut buf = [0u8; PIECE];
    'reading: loop {
        let n = match shelf.read(&mut buf) {
            Ok(n) => n,
            Err(_) => return Err(SlurpRefusal::ReadFault),
        };
        if n == 0 {
            return Ok(Bytes::from_vec(bytes));
        }
        if n > limit - bytes.len() {
            return Err(SlurpRefusal::TooLong);
        }
        match bytes.extend_from_slice(&buf[..n]) {
            Ok(()) => {}
            Err(_) => return Err(SlurpRefusal::NoMemory),
        }
    }
}

ghost use Rattle.std.specs.Prelude.{◌↔◌, IsTrue};
ghost use Rattle.odd_cases.specs.Comparing.{IsAnswered, IsWanted, StandsIn, HoldsEach};

use crate::question::{Reply, Wanted};
use odd_text::Bytes;

/// What a run answered.
#[derive(Drop)]
pub struct Answer {
    pub code: u8,
    pub note: Bytes,
    pub out: Bytes,
}

/// Whether an answer is the wanted one.
pub fn is_answered(reply: &Reply, answer: &Answer) -> bool
    ensures { IsTrue result ↔ IsAnswered reply.now answer.now }
{
    reply.code == answer.code
        && is_wanted(&reply.note, answer.note.as_slice())
        && is_wanted(&reply.out, answer.out.as_slice())
}

/// Whether bytes are the wanted ones.
pub fn is_wanted(wanted: &Wanted, bytes: &[u8]) -> bool
    ensures { IsTrue result ↔ IsWanted wanted.now bytes.now }
{
    match wanted {
        Wanted::Whole(whole) => whole.as_slice() == bytes,
        Wanted::Holding(parts) => holds_each(parts.as_slice(), bytes),
    }
}

// Whether each part stands in the bytes.
fn holds_each(parts: &[Bytes], bytes: &[u8]) -> bool
    ensures { IsTrue result ↔ HoldsEach parts.now bytes.now }
{
    parts.iter().all(|part| stands_in(part.as_slice(), bytes))
}

// Whether a part stands in the bytes.
fn stands_in(part: &[u8], bytes: &[u8]) -> bool
    ensures { IsTrue result ↔ StandsIn part.now bytes.now }
{
    for at in 0..bytes.len() {
        if bytes[at..].starts_with(part) {
            return true;
        }
    }
    false
}

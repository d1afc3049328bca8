ghost use Rattle.std.specs.Prelude.{◌≡◌, ◌++◌, ◌<◌, ◌≤◌, ◌⊎◌, ℕ, List, IfOk, Some, length, slice_get, take, true};
ghost use Rattle.std.specs.List.{list_all};
ghost use Rattle.rng_matching.specs.Staying.{IsNew, is_known as the_known};

use odd_text::NoMemory;
use std::alloc::Global;

/// How many characters are ASCII.
const ASCII: usize = 128;

/// For each ASCII character a position whose pattern it is known to leave as it is. A text of such characters is passed at once.
#[derive(Drop)]
pub struct Staying {
    pub known: Vec<Option<usize>>,
}

impl Staying {
    /// With none known. The only error is NoMemory, for want of memory.
    #[tactic(auto, using(crate::proofs::Stays::new_more))]
    pub fn new(alloc: Global) -> Result<Staying, NoMemory>
        ensures { IfOk result (λ made. IsNew made.known.items) }
    {
        let mut known = Vec::new(alloc);
        for _ in 0..ASCII {
            known.push(None)?;
        }
        Ok(Staying { known })
    }

    /// Notes that the character leaves the pattern at a position as it is, where it is ASCII.
    pub fn note(&mut self, at: usize, c: char)
        ensures { (k e : ℕ) → slice_get self.new.known.items k ≡ Some (Some e) → ((k ≡ c) × (c < 128) × (e ≡ at)) ⊎ (slice_get self.old.known.items k ≡ Some (Some e)) }
    {
        let code = c as usize;
        if code < ASCII && code < self.known.len() {
            self.known[code] = Some(at);
        }
    }

    /// What follows the characters that are known for a position and stand first in a text.
    pub fn past<'a>(&self, at: usize, text: &'a str) -> &'a str
        ensures { (front : List ℕ) × (text.now ≡ front ++ result.now) × (list_all (the_known self.now.known.items at) front ≡ true) }
    {
        match text.split_at_checked(known_length(&self.known, at, text.as_bytes())) {
            Some((_, rest)) => rest,
            None => text,
        }
    }
}

// How many bytes stand first that are characters known for a position.
fn known_length(known: &[Option<usize>], at: usize, bytes: &[u8]) -> usize
    ensures within { result ≤ length bytes.now }
    ensures known { list_all (the_known known.now at) (take result bytes.now) ≡ true }
{
    let mut passed = 0;
    'known: while passed < bytes.len() && is_known(known, at, bytes[passed]) {
        passed += 1;
    }
    passed
}

fn is_known(known: &[Option<usize>], at: usize, b: u8) -> bool
    ensures { result ≡ the_known known.now at b }
{
    match known.get(b as usize) {
        Some(Some(position)) => *position == at,
        _ => false,
    }
}

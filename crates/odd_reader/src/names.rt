ghost use Rattle.std.specs.Prelude.{◌≡◌, IfOk};

use odd_text::{NoMemory, Text, TryCopy};
use odd_tokens::TextTable;
use std::alloc::Global;

// How many names stand where they are found at once.
const SLOTS: usize = 512;

/// The names or other short texts that were met so far, each kept once, and those that were met last where they are found at once.
#[derive(Drop)]
pub struct NameTable {
    alloc: Global,
    names: TextTable,
    slots: Vec<Text>,
}

// The place of a name among the slots.
fn slot_of(name: &str) -> usize {
    let mut hash = 0u32;
    for b in name.as_bytes() {
        hash = hash.wrapping_mul(31) ^ u32::from(*b);
    }
    ((hash ^ (hash >> 5) ^ (hash >> 13)) & 511) as usize
}

impl NameTable {
    pub fn new(alloc: Global) -> NameTable {
        NameTable {
            alloc,
            names: TextTable::new(alloc),
            slots: Vec::new(alloc),
        }
    }

    /// A text with the bytes of the name.
    pub fn share(&mut self, name: &str) -> Result<Text, NoMemory>
        ensures { IfOk result (λ shared. shared ≡ name.now) }
    {
        if name.is_empty() {
            return Ok(Text::new(self.alloc));
        }
        let at = slot_of(name);
        if let Some(kept) = self.slots.as_slice().get(at) {
            if kept.as_str() == name {
                return kept.copy(self.alloc);
            }
        }
        self.keep(at, name)
    }

    // A text with the bytes of the name, which is then found at the place.
    fn keep(&mut self, at: usize, name: &str) -> Result<Text, NoMemory>
        ensures { IfOk result (λ shared. shared ≡ name.now) }
    {
        let made = Text::from_str(self.alloc, name)?;
        let shared = self.names.share(&made)?;
        for _ in self.slots.len()..SLOTS {
            self.slots.push(Text::new(self.alloc))?;
        }
        let kept = shared.copy(self.alloc)?;
        if let Some(slot) = self.slots.as_mut_slice().get_mut(at) {
            *slot = kept;
        }
        Ok(shared)
    }
}

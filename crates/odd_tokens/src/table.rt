ghost use Rattle.std.specs.Prelude.{◌≡◌, IfOk};

use odd_text::{NoMemory, Text, TryCopy};
use std::alloc::Global;
use std::collections::BTreeSet;

/// The texts that were met so far, each kept once.
#[derive(Drop)]
pub struct TextTable {
    alloc: Global,
    texts: BTreeSet<Text>,
}

impl TextTable {
    /// A table of no texts.
    pub fn new(alloc: Global) -> TextTable {
        TextTable {
            alloc,
            texts: BTreeSet::new(alloc),
        }
    }

    /// A text that equals the given one. Those that are got by equal texts share their bytes.
    pub fn share(&mut self, text: &Text) -> Result<Text, NoMemory>
        ensures { IfOk result (λ shared. shared ≡ text.now) }
    {
        if text.as_str().is_empty() {
            return Ok(Text::new(self.alloc));
        }
        if let Some(kept) = self.texts.get(text) {
            return kept.copy(self.alloc);
        }
        let made = Text::from_str(self.alloc, text.as_str())?;
        self.texts.insert(made.copy(self.alloc)?)?;
        Ok(made)
    }
}

use odd_text::{NoMemory, TryCopy, Words};
use std::alloc::Global;

/// Whether a list of values admits no others, suggests its values where others may stand too, or only shows examples.
#[derive(Clone, Copy, Debug, PartialEq, Eq)]
pub enum ListKind {
    Closed,
    Semi,
    Open,
}

/// A list of values, in the order of their bytes, each once.
#[derive(Debug, Drop)]
pub struct ValList {
    pub kind: ListKind,
    pub values: Words,
}

impl TryCopy for ValList {
    fn copy(&self, alloc: Global) -> Result<ValList, NoMemory> {
        Ok(ValList {
            kind: self.kind,
            values: self.values.copy(alloc)?,
        })
    }
}

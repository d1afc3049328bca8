use odd_text::{NoMemory, Text, TryCopy};
use rng_types::{Bounds, Item, ValList};
use std::alloc::Global;

/// The datatype of an attribute: what each word of a value is tested by, and how many words there may be.
#[derive(Debug, Drop)]
pub struct Datatype {
    pub item: Item,
    pub bounds: Bounds,
}

/// An attribute as it is defined.
#[derive(Debug, Drop)]
pub struct AttDef {
    /// The name that stands in a document, where it is not the ident.
    pub alt: Option<Text>,
    /// The namespace.
    pub ns: Option<Text>,
    /// Whether an element has to have it.
    pub needed: bool,
    pub datatype: Option<Datatype>,
    pub vals: Option<ValList>,
}

impl TryCopy for Datatype {
    fn copy(&self, alloc: Global) -> Result<Datatype, NoMemory> {
        Ok(Datatype {
            item: self.item.copy(alloc)?,
            bounds: self.bounds,
        })
    }
}

impl TryCopy for AttDef {
    fn copy(&self, alloc: Global) -> Result<AttDef, NoMemory> {
        Ok(AttDef {
            alt: self.alt.copy(alloc)?,
            ns: self.ns.copy(alloc)?,
            needed: self.needed,
            datatype: self.datatype.copy(alloc)?,
            vals: self.vals.copy(alloc)?,
        })
    }
}

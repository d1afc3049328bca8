use odd_text::{NoMemory, Seq, Text, TryCopy};
use std::alloc::Global;

/// The name of a facet of XML Schema, Part 2 (section 4.3), in the order of the names.
#[derive(Clone, Copy, Debug, PartialEq, Eq, PartialOrd, Ord)]
pub enum FacetName {
    Length,
    MaxInclusive,
    MaxLength,
    MinInclusive,
    MinLength,
    Pattern,
}

/// A facet, with its value as it was written.
#[derive(Debug, Drop, PartialEq, Eq)]
pub struct Facet {
    pub name: FacetName,
    pub value: Text,
}

/// A list of facets.
pub type Facets = Seq<Facet>;

/// A facet as it is written, whose name may be that of none.
#[derive(Debug, Drop, PartialEq, Eq)]
pub struct FacetText {
    pub name: Text,
    pub value: Text,
}

/// A list of them.
pub type FacetTexts = Seq<FacetText>;

impl TryCopy for Facet {
    fn copy(&self, alloc: Global) -> Result<Facet, NoMemory> {
        let value = self.value.copy(alloc)?;
        Ok(Facet {
            name: self.name,
            value,
        })
    }
}

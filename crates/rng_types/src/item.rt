use crate::data_type::DataType;
use crate::facet::Facets;
use odd_text::{NoMemory, Text, TryCopy};
use std::alloc::Global;

/// What one value is tested by: the datatype of a key, or a datatype of XML Schema with facets.
#[derive(Debug, Drop)]
pub enum Item {
    Key(Text),
    Typed { kind: DataType, facets: Facets },
}

impl TryCopy for Item {
    fn copy(&self, alloc: Global) -> Result<Item, NoMemory> {
        match self {
            Item::Key(key) => Ok(Item::Key(key.copy(alloc)?)),
            Item::Typed { kind, facets } => Ok(Item::Typed {
                kind: *kind,
                facets: facets.copy(alloc)?,
            }),
        }
    }
}

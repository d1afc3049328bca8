//! The types of values: XML Schema's datatypes with their facets, lists of values, and how often something may stand; and the
//! words of a value.
#![tactic(auto)]

pub mod bounds;
pub mod data_type;
pub mod facet;
pub mod item;
pub mod val_list;
pub mod words;

pub use bounds::Bounds;
pub use data_type::DataType;
pub use facet::{Facet, FacetName, FacetText, FacetTexts, Facets};
pub use item::Item;
pub use val_list::{ListKind, ValList};
pub use words::words_of;

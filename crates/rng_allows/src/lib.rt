//! Patterns of values, and whether one allows a text: by its datatype and facets, as one of some values, or by its words.
#![tactic(auto)]

mod allowing;
pub mod items;
mod treating;
mod typed;
pub mod value_pattern;

pub use allowing::allows;
pub use items::Items;
pub use value_pattern::{ValuePattern, ValuePatterns};

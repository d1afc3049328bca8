//! The defines of a library's schema: one for each condition in its contents, and one for each component.
#![tactic(auto)]

mod any_element;
mod budget;
mod conditions;
mod contents;
mod data;
mod defines;
mod repeating;
mod rules;
mod words;

pub use any_element::condition_defines;
pub use budget::{Budget, MakeRefusal};
pub use conditions::{Conditions, conditions_of};
pub use contents::{
    class_name, condition_name, content_pattern, datatype_name, define_name, holds_element,
    macro_name, references_pattern,
};
pub use data::{data_pattern, value_pattern};
pub use defines::library_defines;
pub use words::{picked, those_among};

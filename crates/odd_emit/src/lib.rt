//! The text of a merged ODD.
#![tactic(auto)]

mod attributes;
mod components;
mod conditions;
mod contents;
mod data;
mod lists;
mod printing;
mod saying;

pub use printing::print_odd;

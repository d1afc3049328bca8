//! Patterns of values as patterns over the characters: whether a text matches one is asked by them.
#![tactic(auto)]

pub mod chars;
pub mod matcher;
mod members;
mod pattern;
mod repeating;
mod searched;
mod spans;
mod staying;

pub use chars::{Atoms, Chars};
pub use matcher::Matcher;
pub use pattern::{CharPattern, pattern_of};

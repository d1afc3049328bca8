//! The dialect of patterns of values: which text spells which pattern, and what a pattern matches.
#![tactic(auto)]

mod class;
mod digits;
mod level;
mod limits;
mod reader;
mod reading;
mod refusal;
mod regex;

pub use reading::read_pattern;
pub use refusal::PatternRefusal;
pub use regex::{Atom, Member, Members, Piece, Regex, RegexBranches, RegexPieces};

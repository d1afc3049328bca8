//! Patterns over any alphabet, which words they match, and what is left of one after a symbol.
//!
//! A call that goes down a pattern takes stack for its depth.
#![tactic(auto)]

pub mod alphabet;
pub mod children;
pub mod derivative;
pub mod making;
pub mod pattern;

pub use alphabet::Alphabet;
pub use children::{ChildLeaf, ChildSymbol, Children, Marks};
pub use derivative::derive;
pub use making::{choice, choice_of, group, group_of, more};
pub use pattern::{Pat, nullable};

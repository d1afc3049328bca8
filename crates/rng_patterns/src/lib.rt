//! What RELAX NG asks of a document: grammars; patterns over any alphabet, over characters and over words too, and a store of
//! them; and which values are allowed. All of it is handed on from the crates that hold it.
#![tactic(auto)]

pub use odd_patterns::{
    Alphabet, ChildLeaf, ChildSymbol, Children, Marks, Pat, choice, choice_of, derive, group,
    group_of, more, nullable,
};
pub use odd_pool::Pool;
pub use rng_allows::{Items, ValuePattern, ValuePatterns, allows};
pub use rng_grammar::{
    AttrPart, AttrRule, Body, Define, Defines, Expr, Exprs, Grammar, NameClass, NsPart, NsParts,
    Rules, linked_nodes,
};
pub use rng_matching::{Atoms, Chars};

//! RELAX NG grammars: their types, what a grammar accepts, which grammar a tree stands for, and how many nodes a grammar has
//! after linking.
#![tactic(auto)]

pub mod grammar;
mod nodes;

pub use grammar::{
    AttrPart, AttrRule, Body, Define, Defines, Expr, Exprs, Grammar, NameClass, NsPart, NsParts,
    Rules,
};
pub use nodes::linked_nodes;

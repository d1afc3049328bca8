//! XML 1.0 with namespaces: from the bytes of a file to its tree.
#![tactic(auto)]

mod around;
mod builder;
mod children;
mod comments;
mod declarations;
mod element;
mod ends;
mod instructions;
mod misfit;
mod names;
pub mod reader;
mod references;
mod runs;
mod sections;
mod simple_tags;
mod twice;
mod until;
mod xml;

pub use odd_printing::{escape_text, escape_value};
pub use odd_tree::{Attr, Attrs, Node, Nodes, Tree};
pub use reader::{ReadRefusal, read_tree};

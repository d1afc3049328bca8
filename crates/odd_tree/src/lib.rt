//! The tree of an XML file, what is found in it, and which namespaces are in force.
#![tactic(auto)]

mod bindings;
mod finding;
mod in_force;
pub mod tree;
mod xml;

pub use bindings::Bindings;
pub use finding::{ChildElements, attribute, elements};
pub use in_force::{entered, namespace_of};
pub use odd_tokens::is_ncname;
pub use tree::{Attr, Attrs, Node, Nodes, Tree};
pub use xml::XML;

//! The text of a grammar as a RELAX NG schema in XML syntax.
#![tactic(auto)]

mod bodies;
mod names;
mod patterns;
pub mod printing;
mod values;

pub use printing::print_rng;
pub use values::facet_name;

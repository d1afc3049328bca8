//! Graphs: which nodes one leads to, which nodes lead to themselves, and an order of those that lead to no cycle.
#![tactic(auto)]

mod cycles;
mod marks;
mod ordering;
mod passing;
mod search;
mod turning;
mod walk;

pub use cycles::{first_on_cycle, on_cycles};
pub use marks::{is_marked, unmarked};
use odd_text::Seq;
pub use ordering::ordered;
pub use search::reached;
pub use turning::turned;

/// Nodes of a graph by their numbers, counted from 0. A graph is the nodes that the arrows of each node lead to, node by
/// node; an arrow to a number that is no node leads nowhere.
pub type Nodes = Seq<usize>;

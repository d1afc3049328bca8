//! A chain of ODD files: what its files declare, and the library after all of them, or the first offence; and the merged ODD that
//! stands for the chain.
#![tactic(auto)]

mod chain;
mod merging;
mod printing;

pub use chain::{Chain, Merged};
pub use merging::{OddDocs, merge};
pub use printing::print_odd;

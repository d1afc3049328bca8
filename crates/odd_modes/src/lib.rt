//! What one file of a chain does to the library before it: which components it chooses, and what it adds, deletes, changes and
//! replaces.
#![tactic(auto)]

mod editing;
mod faults;
mod layer;
mod lent;
mod named;
mod references;
mod selecting;
mod stepping;
mod sweeping;

pub use editing::edit;
pub use selecting::select;
pub use stepping::{step, step_into};
pub use sweeping::{Act, sweep};

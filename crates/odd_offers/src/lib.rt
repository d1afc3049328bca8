//! What elements and classes of a library offer of attributes.
#![tactic(auto)]

mod clash;
mod given;
mod links;
mod making;
mod naming;
mod pairings;
mod same;
mod shared;
mod table;
mod telling;

pub use clash::clashes;
pub use given::{Given, Givens, answered};
pub use links::edits_of;
pub use making::{own_table, united};
pub use naming::{attribute_name, shares_name};
pub use shared::Shared;
pub use table::{Offer, Offers, Table};

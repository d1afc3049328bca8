//! Which elements of an ODD file are items: what may hold them, the groups and who refers to them, the constraints that may
//! not stand where they do, and what is left of a file without some.
#![tactic(auto)]

mod around;
mod constraints;
mod holding;
mod ids;
mod left;
mod listing;
mod marking;
mod searching;
pub mod without;

pub use around::{bindings_around, level_bindings};
pub use constraints::{add_constraints, is_constraint};
pub use holding::{arrows_of, target_id};
pub use ids::{Ids, id_of, ids_of};
pub use listing::{Item, items_held};
pub use marking::marks_of;
pub use searching::{Kept, Level, Search, find_elements};

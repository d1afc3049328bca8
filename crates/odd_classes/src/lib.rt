//! Which elements are members of a class and of which classes an element is one, what elements offer of attributes, in which order
//! macros stand in one another, and which libraries break a rule: the rules on what components name, on cycles, on what elements
//! offer, and on data.
#![tactic(auto)]

mod answers;
mod checked;
mod class_members;
mod cycles;
mod data;
mod graph;
mod inheriting;
mod leading;
mod links;
mod macro_order;
mod member_lists;
mod offer_lists;
mod offering;
mod rules;

pub use checked::{Checked, check};
pub use class_members::members;
pub use cycles::{CycleRefusal, check_cycles};
pub use member_lists::{MemberTable, TableRefusal, member_table};
pub use offer_lists::OfferTable;
pub use offering::{Offer, OfferRefusal, Offers, offered};
pub use rules::LibraryRefusal;

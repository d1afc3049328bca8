//! From the tree of an ODD file to what it declares, or its first offence of form. The types of what is declared are the crate
//! `odd_library`.
#![tactic(auto)]

mod aside;
mod declarations;
mod faults;
mod file_items;
mod items;
pub mod reading;
mod references;
mod repeats;
mod taken;

pub use odd_library::{
    ClassMarks, ClassPart, Component, ElementPart, Entries, Entry, Library, Membership, Mode,
    OddDoc, OddRefusal, OtherPart, Parts, Spec,
};
pub use reading::read_odd;

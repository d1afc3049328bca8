//! Attributes, their lists of values, and edits of them.
#![tactic(auto)]

pub mod att_def;
pub mod att_edit;
pub mod att_edits;
mod definition;
pub mod reading;
pub mod val_edit;

pub use att_def::{AttDef, Datatype};
pub use att_edit::{AttEdit, AttFields, changed};
pub use att_edits::AttEdits;
pub use definition::read_alt;
pub use odd_overlay::Overlay;
pub use reading::{AttRefusal, edits_given, read_attlist};
pub use val_edit::{ValEdit, ValueMarks};

//! What an ODD file declares, and the library of components.
#![tactic(auto)]

mod classes;
pub mod fault;
pub mod library;
pub mod membership;
pub mod odd;
pub mod over;
pub mod refusal;
pub mod spec;

pub use classes::{ReadClasses, classes_given, read_classes};
pub use fault::Fault;
pub use library::{ClassPart, Component, ElementPart, Library, OtherPart, Parts};
pub use membership::{ClassMarks, Membership, classes_over};
pub use odd::{Entries, Entry, OddDoc};
pub use over::laid_over;
pub use refusal::OddRefusal;
pub use spec::{Mode, Spec};

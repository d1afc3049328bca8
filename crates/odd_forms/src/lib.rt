//! What an element of an ODD file may have, as one table, and what breaks a form.
#![tactic(auto)]

mod attributes;
mod deep;
mod demands;
mod element;
pub mod excepted;
mod facets;
mod faults;
mod form;
mod listing;
mod named;
mod names;
mod texts;
mod twice;
mod words;

pub use attributes::number;
pub use deep::{LEVELS, deep_fault};
pub use element::Element;
pub use excepted::{Excepted, read_excepted};
pub use facets::facets_given;
pub use faults::{
    LEFT_OUT, MALFORMED, TWICE, child_of, child_of_kind, fault_where, is_child, own_fault,
    stray_fault,
};
pub use form::{AttributeForm, Demand, Form, Kind, Level};
pub use listing::definitions_in;
pub use named::{child_named, count_named, has_named};
pub use names::{is_one_of, is_passed_over, is_relax_ng, is_tei};
pub use rng_types::words_of;
pub use texts::collapsed_in;
pub use words::words_given;

/// The namespace of the TEI Guidelines.
pub const TEI: &str = "http://www.tei-c.org/ns/1.0";

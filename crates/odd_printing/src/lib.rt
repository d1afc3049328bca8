//! The tags, attributes and texts of the XML that is written. Each call puts its part at the end of a text. The only error is
//! NoMemory, for want of memory; of the text nothing is said then.
#![tactic(auto)]

mod escaping;
mod printing;
mod tags;

pub use escaping::{escape_text, escape_value};
pub use printing::{
    add_attribute, add_declaration, add_end_tag, add_escaped_text, begin_tag, end_empty_tag,
    end_start_tag,
};
pub use tags::{add_empty_tag, add_start_tag, begin_tag_with, end_line};

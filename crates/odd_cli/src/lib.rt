//! What the program `odd` does, over any files and outputs: words and files in, a reply out.
#![tactic(auto)]

pub mod note;
pub mod running;
pub mod status;
mod texts;
pub mod words;

pub use note::write_note;
pub use running::run;
pub use status::{LimitKind, Status};
pub use words::{Command, Job, read_words};

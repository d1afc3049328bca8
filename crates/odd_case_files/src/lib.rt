//! Files of cases: how they are read, and what is told of those whose answers are not the wanted ones.
#![tactic(auto)]

mod body;
mod difference;
mod escapes;
mod fault;
mod head;
mod outcome;
mod part;
mod paths;
mod saying;
mod section;
mod telling;

pub use difference::{add_place, text_difference};
pub use fault::CaseFault;
pub use head::{Asked, Device, Head, Over, Shown};
pub use outcome::Asking;
pub use part::Part;
pub use saying::{said_answer, said_text, said_words, set_once};
pub use telling::tell_outcomes;

//! Edits that are laid over what is there, one by one or by key.
#![tactic(auto)]

pub mod edits;
pub mod mark;
pub mod merging;
pub mod overlay;
pub mod pairing;
pub mod queue;
pub mod sorted;
pub mod words;

pub use edits::{joined_edits, joined_pair, laid_edits, laid_pair};
pub use overlay::Overlay;
pub use pairing::{Pairing, zipped_maps};
pub use queue::Queue;
pub use sorted::map_of;
pub use words::words_laid;

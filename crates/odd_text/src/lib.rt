//! Texts, keys, lists, maps and tables; what stands in a list, sets in order, and the least of some.
#![tactic(auto)]

pub mod among;
pub mod bytes;
pub mod copy;
pub mod count;
pub mod key;
pub mod keyed;
pub mod map;
pub mod memory;
pub mod name;
pub mod offence;
pub mod order;
pub mod ranked;
pub mod seq;
pub mod sorting;
pub mod steps;
pub mod table;
pub mod text;

pub use among::is_among;
pub use bytes::Bytes;
pub use copy::TryCopy;
pub use key::{Key, Keys, Kind};
pub use keyed::Keyed;
pub use map::Map;
pub use memory::NoMemory;
pub use name::{Bind, Name, Names, Scope};
pub use offence::{Offence, Who};
pub use order::{ExactOrd, lesser};
pub use ranked::Ranked;
pub use seq::Seq;
pub use sorting::sorted;
pub use steps::Steps;
pub use table::Table;
pub use text::{Text, Words};

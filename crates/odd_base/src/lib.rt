//! The outside: the traits of what is read and what is written, both in memory, and whole files and replies. The texts, lists, maps,
//! tables and keys that all layers speak of are the crate `odd_text`.
#![tactic(auto)]

pub mod mem_shelf;
pub mod mem_sink;
pub mod reading;
pub mod shelf;
pub mod sink;
pub mod writing;

pub use mem_shelf::{Calls, File, Files, MemShelf};
pub use mem_sink::MemSink;
pub use odd_text::{
    Bind, Bytes, Key, Keys, Kind, Map, Name, Names, NoMemory, Offence, Ranked, Scope, Seq, Steps,
    Table, Text, TryCopy, Who, Words,
};
pub use reading::{SlurpRefusal, slurp};
pub use shelf::{Shelf, ShelfFault};
pub use sink::{Sink, SinkFault};
pub use writing::write_whole;

use odd_base::{Calls, Files};
use odd_case_files::{Asked, Over, Shown};
use odd_chain::OddDocs;
use odd_text::{Bytes, Words};

/// Bytes that are written, or the parts that they must have.
#[derive(Drop)]
pub enum Wanted {
    /// These bytes.
    Whole(Bytes),
    /// Bytes in which each of these parts stands.
    Holding(Vec<Bytes>),
}

/// What a run must answer.
#[derive(Drop)]
pub struct Reply {
    pub code: u8,
    pub note: Wanted,
    pub out: Wanted,
}

/// The numbers of the calls that fault.
#[derive(Drop)]
pub struct Faulty {
    pub shelf: Calls,
    pub out: Calls,
    pub note: Calls,
}

/// Docs in their order, and what must be answered of them.
#[derive(Drop)]
pub struct Chain {
    pub docs: OddDocs,
    pub wanted: Vec<(Asked, Bytes)>,
}

/// What is asked, and what must be answered.
#[derive(Drop)]
pub enum Question {
    /// A run with these words over the files.
    Run {
        files: Files,
        words: Words,
        faulty: Faulty,
        reply: Reply,
    },
    /// One file, as this of it is shown.
    Shown {
        file: Bytes,
        shown: Shown,
        wanted: Bytes,
    },
    /// Which of the words the patterns match, with which the lines begin.
    Patterns {
        over: Over,
        asked: Words,
        wanted: Bytes,
    },
    /// What is told of values, with which the lines begin.
    Values {
        wanted: Bytes,
    },
    /// What is answered of the docs of each chain.
    Chains(Vec<Chain>),
}

ghost use Rattle.std.specs.Prelude.{◌≡◌};

use odd_text::Offence;

/// Which limit is passed.
#[derive(Clone, Copy, Debug, PartialEq, Eq)]
pub enum LimitKind {
    /// A file has more than 16,777,216 bytes.
    Bytes { file: u32 },
    /// The chain has more than 16 files.
    Files,
    /// A file has over 200 levels of elements: the byte where the tag begins that opens the 201st.
    Depth { file: u32, at: u64 },
    /// The schema has more than 1,000,000 elements, or more than 4,000,000 nodes after linking.
    Nodes,
}

/// How a run ended. Files are numbered from 1 in the order of the words.
#[derive(Debug, Drop, PartialEq, Eq)]
pub enum Status {
    /// The reply is written whole.
    Done,
    /// The declarations have an offence, which is the first.
    Refused(Offence),
    /// A file is not XML: the byte where its first fault is.
    NotXml { file: u32, at: u64 },
    /// The words have no job.
    Usage,
    /// A limit is passed.
    Limit(LimitKind),
    /// A file could not be read.
    ReadFault { file: u32 },
    /// The reply could not be written; a front of it is.
    WriteFault,
    /// There was no memory.
    NoMemory,
}

impl Status {
    ghost use Rattle.odd_cli.specs.Note.{code_of};

    /// The exit code of the program.
    pub fn code(&self) -> u8
        ensures { result ≡ code_of self.now }
    {
        match self {
            Status::Done => 0,
            Status::Refused(_) => 2,
            Status::NotXml { file: _, at: _ } => 3,
            Status::Usage => 4,
            Status::Limit(_) => 5,
            Status::ReadFault { file: _ } => 6,
            Status::WriteFault => 7,
            Status::NoMemory => 8,
        }
    }
}

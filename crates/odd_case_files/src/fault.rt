use odd_text::NoMemory;
use std::alloc::{AllocError, AllocFailed};
use std::{fmt, io};

/// Why a case is not read or not answered.
#[derive(Debug, Drop, thiserror::Error)]
pub enum CaseFault {
    #[error("there is no memory")]
    NoMemory,
    #[error("{0}")]
    Unread(io::Error),
    #[error("the folders are too deep")]
    TooDeep,
    #[error("a line stands before the first head")]
    NoHead,
    #[error("a head is not known")]
    UnknownHead,
    #[error("a head has lines that nothing reads")]
    StrayLines,
    #[error("there are no lines to look for")]
    NoLines,
    #[error("nothing stands before a head that goes on")]
    NothingBefore,
    #[error("an escape is not known")]
    UnknownEscape,
    #[error("the words or the patterns are no text")]
    NotText,
    #[error("a case asks nothing")]
    NothingAsked,
    #[error("a case has no code")]
    NoCode,
    #[error("a head stands twice")]
    Twice,
    #[error("a pattern is not read")]
    NoPattern,
    #[error("a word is not read")]
    NoWord,
    #[error("a line of values is not read")]
    NoValue,
    #[error("a line of docs is not read")]
    NoItem,
    #[error("an answer stands before its docs")]
    NoDocs,
    #[error("docs and their answers stand beside something else")]
    DocsNotAlone,
    #[error("a tree, a content or classes are asked of one file, patterns of words, and each beside nothing else")]
    NotAlone,
}

impl From<NoMemory> for CaseFault {
    fn from(_error: NoMemory) -> CaseFault {
        CaseFault::NoMemory
    }
}

impl From<AllocError> for CaseFault {
    fn from(_error: AllocError) -> CaseFault {
        CaseFault::NoMemory
    }
}

impl<T: Drop> From<AllocFailed<T>> for CaseFault {
    fn from(failed: AllocFailed<T>) -> CaseFault {
        let AllocFailed { value: _ } = failed;
        CaseFault::NoMemory
    }
}

impl From<fmt::Error> for CaseFault {
    fn from(_error: fmt::Error) -> CaseFault {
        CaseFault::NoMemory
    }
}

impl From<io::Error> for CaseFault {
    fn from(error: io::Error) -> CaseFault {
        CaseFault::Unread(error)
    }
}

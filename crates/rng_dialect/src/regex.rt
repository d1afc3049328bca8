use odd_text::Seq;
use rng_types::Bounds;
use sqlite_items::Boxed;

/// A pattern of values: a text matches it that matches one of its branches.
#[derive(Drop)]
#[cycle(regex)]
pub struct Regex {
    pub branches: RegexBranches,
}

/// A branch: its pieces one after another.
pub type RegexPieces = Seq<Piece>;

/// A list of branches.
pub type RegexBranches = Seq<RegexPieces>;

/// An atom, and how often it stands.
#[derive(Drop)]
#[cycle(regex)]
pub struct Piece {
    pub atom: Atom,
    pub bounds: Bounds,
}

/// What takes one character, or a pattern in parentheses.
#[derive(Drop)]
#[cycle(regex)]
pub enum Atom {
    Char(char),
    /// Any character but LF and CR.
    Any,
    /// One of the members, or none of them.
    Class { negated: bool, members: Members },
    Nested(Boxed<Regex>),
}

/// A character, or those from one to another, both included.
#[derive(Clone, Copy, Debug, PartialEq, Eq)]
pub enum Member {
    Char(char),
    Range { low: char, high: char },
}

/// A list of members.
pub type Members = Seq<Member>;

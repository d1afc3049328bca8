ghost use Rattle.std.specs.Prelude.{◌≤◌};

use crate::limits::{MOST_LEVELS, MOST_SIZE, sum_of_sizes};
use crate::regex::{Atom, Piece, Regex, RegexBranches, RegexPieces};
use odd_text::{NoMemory, Seq};
use rng_types::Bounds;
use sqlite_items::Boxed;
use std::alloc::Global;
use std::mem;

/// An atom that is read, with its size and the levels in it. Past the limits it is not kept.
#[derive(Drop)]
pub struct ReadAtom {
    pub atom: Atom,
    pub size: u32,
    pub levels: u32,
    ghost small: { size ≤ 20001 },
    ghost low: { levels ≤ 61 },
}

/// What is read of a level: the branches that a `|` has ended, the pieces of the one that is open, and the size and the levels
/// of all. Past the limits no more of them are kept.
#[derive(Drop)]
pub struct Level {
    pub branches: RegexBranches,
    pub pieces: RegexPieces,
    pub size: u32,
    pub levels: u32,
    ghost small: { size ≤ 20001 },
    ghost low: { levels ≤ 61 },
}

impl Level {
    ghost use Rattle.std.specs.Prelude.{◌≡◌, ◌↔◌, ℕ, IsTrue, IfOk, OnOk};
    ghost use Rattle.rng_dialect.specs.Kept.{IsSizeOf, KeepsAtom, KeepsLevel};
    ghost use Rattle.rng_dialect.specs.Reading.{AtomRead, LevelRead, nested, new_level, once, regex_of, with_branch, with_piece};

    /// A level of which nothing is read.
    pub fn new(alloc: Global) -> Level
        ensures { KeepsLevel new_level result }
    {
        Level {
            branches: Seq::new(alloc),
            pieces: Seq::new(alloc),
            size: 0,
            levels: 0,
        }
    }

    /// Whether the level is within the limits.
    pub fn is_within(&self) -> bool
        ensures { IsTrue result ↔ ((self.now.size ≤ 20000) × (self.now.levels ≤ 60)) }
    {
        self.size <= MOST_SIZE && self.levels <= MOST_LEVELS
    }

    /// Puts a piece at the end of the open branch.
    pub fn add_piece(&mut self, read: ReadAtom, bounds: Bounds, size: u32) -> Result<(), NoMemory>
        requires { size ≤ 20001 }
        ensures { (l : LevelRead) (a : AtomRead) (n : ℕ) → KeepsLevel l self.old → KeepsAtom a read → IsSizeOf n size → a.size ≤ n
            → OnOk result (KeepsLevel (with_piece l a bounds n) self.new) }
    {
        self.size = sum_of_sizes(self.size, size);
        self.levels = self.levels.max(read.levels);
        if !self.is_within() {
            return Ok(());
        }
        self.pieces.push(Piece {
            atom: read.atom,
            bounds,
        })
    }

    /// Puts an atom that stands once.
    pub fn add_once(&mut self, read: ReadAtom) -> Result<(), NoMemory>
        ensures { (l : LevelRead) (a : AtomRead) → KeepsLevel l self.old → KeepsAtom a read → OnOk result (KeepsLevel (once l a) self.new) }
    {
        let size = read.size;
        let bounds = Bounds {
            min: 1,
            max: Some(1),
        };
        self.add_piece(read, bounds, size)
    }

    /// Ends the open branch.
    pub fn end_branch(&mut self, alloc: Global) -> Result<(), NoMemory>
        ensures { (l : LevelRead) → KeepsLevel l self.old → OnOk result (KeepsLevel (with_branch l) self.new) }
    {
        let pieces = mem::replace(&mut self.pieces, Seq::new(alloc));
        self.branches.push(pieces)
    }

    /// The pattern that is read, whole.
    pub fn into_regex(self) -> Result<Regex, NoMemory>
        ensures { (l : LevelRead) → KeepsLevel l self → l.size ≤ 20000 → l.levels ≤ 60 → IfOk result (λ r. r ≡ regex_of l) }
    {
        let Level {
            mut branches,
            pieces,
            size: _,
            levels: _,
        } = self;
        branches.push(pieces)?;
        Ok(Regex { branches })
    }

    /// The atom that the level is in parentheses.
    pub fn into_atom(self, alloc: Global) -> Result<ReadAtom, NoMemory>
        ensures { (l : LevelRead) → KeepsLevel l self → IfOk result (λ a. KeepsAtom (nested l) a) }
    {
        let size = sum_of_sizes(self.size, 1);
        let levels = (self.levels + 1).min(MOST_LEVELS + 1);
        if size > MOST_SIZE || levels > MOST_LEVELS {
            return Ok(ReadAtom {
                atom: Atom::Any,
                size,
                levels,
            });
        }
        let atom = Atom::Nested(Boxed::new(alloc, self.into_regex()?)?);
        Ok(ReadAtom { atom, size, levels })
    }
}

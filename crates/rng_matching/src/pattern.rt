ghost use Rattle.std.specs.Prelude.{◌↔◌, IfOk, ℕ, List};
ghost use Rattle.odd_patterns.specs.Words.{Matches};
ghost use Rattle.rng_dialect.specs.Matching.{AreMatched, Matches as RegexMatches, Takes};
ghost use Rattle.rng_matching.specs.Making.{Grows, IsFor, PieceMatches, TakesOne};

use crate::chars::{Atoms, Chars};
use crate::members::copied;
use crate::repeating::repeated;
use odd_patterns::{Alphabet, Pat, choice_of, group_of};
use odd_text::{NoMemory, Seq};
use rng_dialect::{Atom, Piece, Regex, RegexPieces};
use std::alloc::Global;

/// A pattern over the characters, with the alphabet that it is over.
#[derive(Drop)]
pub struct CharPattern {
    pub chars: Chars,
    pub pat: Pat<Chars>,
}

/// The pattern over the characters that matches exactly the texts that match a pattern of values (XML Schema, Part 2, appendix
/// F). What may stand up to `m` times is copied about `m` times the logarithm of `m`. The only error is NoMemory, for want of
/// memory or for more than 2^32 atoms. It takes stack for the depth of what is made: at each level of parentheses the logarithm
/// of how many branches, pieces and copies stand beside one another there.
pub fn pattern_of(alloc: Global, regex: &Regex) -> Result<CharPattern, NoMemory>
    ensures matches { IfOk result (λ made. (w : List ℕ) → RegexMatches regex.now w ↔ Matches (⟦<Chars as Alphabet>⟧.admits made.chars) made.pat w) }
{
    let mut classes = Atoms::new(alloc);
    let pat = regex_pattern(alloc, &mut classes, regex)?;
    Ok(CharPattern {
        chars: Chars { classes },
        pat,
    })
}

// The pattern of a pattern of values: a choice of its branches.
#[cycle(pattern_of)]
fn regex_pattern(alloc: Global, classes: &mut Atoms, regex: &Regex) -> Result<Pat<Chars>, NoMemory>
    ensures grows { Grows classes.old classes.new }
    ensures made { IfOk result (IsFor (RegexMatches regex.now) classes.new) }
{
    let mut parts = Seq::new(alloc);
    for pieces in regex.branches.as_slice() {
        let branch = pieces_pattern(alloc, classes, pieces)?;
        parts.push(branch)?;
    }
    choice_of(alloc, parts)
}

// The pattern of a branch: its pieces one after the other.
#[cycle(pattern_of)]
fn pieces_pattern(
    alloc: Global,
    classes: &mut Atoms,
    pieces: &RegexPieces,
) -> Result<Pat<Chars>, NoMemory>
    ensures grows { Grows classes.old classes.new }
    ensures made { IfOk result (IsFor (AreMatched pieces.now) classes.new) }
{
    let mut parts = Seq::new(alloc);
    for piece in pieces.as_slice() {
        let part = piece_pattern(alloc, classes, piece)?;
        parts.push(part)?;
    }
    group_of(alloc, parts)
}

// The pattern of a piece: of its atom as often as it stands.
#[cycle(pattern_of)]
fn piece_pattern(alloc: Global, classes: &mut Atoms, piece: &Piece) -> Result<Pat<Chars>, NoMemory>
    ensures grows { Grows classes.old classes.new }
    ensures made { IfOk result (IsFor (PieceMatches piece.now) classes.new) }
{
    let atom = atom_pattern(alloc, classes, &piece.atom)?;
    repeated(alloc, &atom, piece.bounds)
}

// The pattern of an atom: one in parentheses has that of its branches, and another is a leaf.
#[cycle(pattern_of)]
fn atom_pattern(alloc: Global, classes: &mut Atoms, atom: &Atom) -> Result<Pat<Chars>, NoMemory>
    ensures grows { Grows classes.old classes.new }
    ensures made { IfOk result (IsFor (Takes atom.now) classes.new) }
{
    match atom {
        Atom::Nested(regex) => regex_pattern(alloc, classes, regex.get()),
        Atom::Char(c) => leaf_of(classes, Atom::Char(*c)),
        Atom::Any => leaf_of(classes, Atom::Any),
        Atom::Class { negated, members } => {
            let members = copied(alloc, members)?;
            leaf_of(
                classes,
                Atom::Class {
                    negated: *negated,
                    members,
                },
            )
        }
    }
}

// A leaf for an atom, which has the next number.
fn leaf_of(classes: &mut Atoms, atom: Atom) -> Result<Pat<Chars>, NoMemory>
    ensures grows { Grows classes.old classes.new }
    ensures made { IfOk result (IsFor (TakesOne atom) classes.new) }
{
    let Ok(number) = u32::try_from(classes.len()) else {
        return Err(NoMemory);
    };
    classes.push(atom)?;
    Ok(Pat::Leaf(number))
}

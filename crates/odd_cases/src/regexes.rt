use odd_text::{NoMemory, Text};
use rng_values::{Atom, Bounds, Member, Members, Piece, Regex, RegexPieces};
use std::alloc::Global;

/// Puts a pattern of values: its branches with `|` between them, of each its pieces, and of a piece its atom and how often it
/// stands. A class is told as its members, and a range as both its ends.
#[cycle(regexes)]
pub fn add_regex(alloc: Global, out: &mut Text, regex: &Regex) -> Result<(), NoMemory> {
    let mut is_first = true;
    for pieces in regex.branches.as_slice() {
        if !is_first {
            out.push('|')?;
        }
        is_first = false;
        add_pieces(alloc, out, pieces)?;
    }
    Ok(())
}

#[cycle(regexes)]
fn add_pieces(alloc: Global, out: &mut Text, pieces: &RegexPieces) -> Result<(), NoMemory> {
    for piece in pieces.as_slice() {
        add_piece(alloc, out, piece)?;
    }
    Ok(())
}

#[cycle(regexes)]
fn add_piece(alloc: Global, out: &mut Text, piece: &Piece) -> Result<(), NoMemory> {
    match &piece.atom {
        Atom::Char(c) => add_character(out, *c)?,
        Atom::Any => out.push('.')?,
        Atom::Class { negated, members } => add_class(out, *negated, members)?,
        Atom::Nested(regex) => {
            out.push('(')?;
            add_regex(alloc, out, regex.get())?;
            out.push(')')?;
        }
    }
    add_bounds(alloc, out, piece.bounds)
}

// Puts how often something stands, where that is not once.
fn add_bounds(alloc: Global, out: &mut Text, bounds: Bounds) -> Result<(), NoMemory> {
    let Bounds { min, max } = bounds;
    match max {
        Some(1) if min == 1 => Ok(()),
        Some(max) => out.push_str(format!(in alloc; "{{{min},{max}}}")?.as_str()),
        None => out.push_str(format!(in alloc; "{{{min},}}")?.as_str()),
    }
}

fn add_class(out: &mut Text, negated: bool, members: &Members) -> Result<(), NoMemory> {
    out.push_str(if negated { "[^" } else { "[" })?;
    for member in members.as_slice() {
        match member {
            Member::Char(c) => add_character(out, *c)?,
            Member::Range { low, high } => {
                add_character(out, *low)?;
                out.push('-')?;
                add_character(out, *high)?;
            }
        }
    }
    out.push(']')
}

// Puts a character, with a `\` before it where that stands for something else in a pattern.
fn add_character(out: &mut Text, c: char) -> Result<(), NoMemory> {
    if ".\\?*+{}()[]|-^".contains(c) {
        out.push('\\')?;
    }
    out.push(c)
}

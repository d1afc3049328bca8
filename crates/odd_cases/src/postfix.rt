use crate::spelled::{Leaves, Spelled};
use odd_case_files::CaseFault;
use odd_patterns::{Pat, choice, choice_of, group, group_of, more};
use odd_text::{NoMemory, Seq, Text};
use sqlite_items::Boxed;
use std::alloc::Global;
use std::mem;

/// How the parts of a pattern are put together.
#[derive(Clone, Copy)]
pub enum Making {
    /// By the constructors.
    Plain,
    /// By the calls, which simplify.
    Calls,
}

/// The pattern of a text in which each sign stands after its parts.
pub fn read_pattern<A: Leaves>(
    alloc: Global,
    alphabet: &A,
    text: &str,
    making: Making,
) -> Result<Pat<A>, CaseFault> {
    let mut parts = Vec::new(alloc);
    for sign in text.chars() {
        let pat = next_pattern(alloc, alphabet, &mut parts, sign, making)?;
        parts.push(pat)?;
    }
    let pat = last_part(&mut parts)?;
    if !parts.is_empty() {
        return Err(CaseFault::NoPattern);
    }
    Ok(pat)
}

// The pattern of a sign. The parts that it takes are the last ones.
fn next_pattern<A: Leaves>(
    alloc: Global,
    alphabet: &A,
    parts: &mut Vec<Pat<A>>,
    sign: char,
    making: Making,
) -> Result<Pat<A>, CaseFault> {
    Ok(match sign {
        '!' => Pat::Never,
        '-' => Pat::Empty,
        '+' => repeated(alloc, last_part(parts)?, making)?,
        '|' => either(alloc, last_two(parts)?, making)?,
        '.' => joined(alloc, last_two(parts)?, making)?,
        '/' => choice_of(alloc, all_parts(alloc, parts)?)?,
        ',' => group_of(alloc, all_parts(alloc, parts)?)?,
        _ => Pat::Leaf(alphabet.leaf_of(sign).ok_or(CaseFault::NoPattern)?),
    })
}

// A pattern once or more.
fn repeated<A: Leaves>(alloc: Global, part: Pat<A>, making: Making) -> Result<Pat<A>, NoMemory> {
    match making {
        Making::Plain => Ok(Pat::More(Boxed::new(alloc, part)?)),
        Making::Calls => more(alloc, part),
    }
}

// One pattern or another.
fn either<A: Leaves>(
    alloc: Global,
    (left, right): (Pat<A>, Pat<A>),
    making: Making,
) -> Result<Pat<A>, NoMemory> {
    match making {
        Making::Plain => Ok(Pat::Choice(Boxed::new(alloc, left)?, Boxed::new(alloc, right)?)),
        Making::Calls => choice(alloc, left, right),
    }
}

// One pattern and then another.
fn joined<A: Leaves>(
    alloc: Global,
    (left, right): (Pat<A>, Pat<A>),
    making: Making,
) -> Result<Pat<A>, NoMemory> {
    match making {
        Making::Plain => Ok(Pat::Group(Boxed::new(alloc, left)?, Boxed::new(alloc, right)?)),
        Making::Calls => group(alloc, left, right),
    }
}

fn last_part<A: Leaves>(parts: &mut Vec<Pat<A>>) -> Result<Pat<A>, CaseFault> {
    parts.pop().ok_or(CaseFault::NoPattern)
}

fn last_two<A: Leaves>(parts: &mut Vec<Pat<A>>) -> Result<(Pat<A>, Pat<A>), CaseFault> {
    let right = last_part(parts)?;
    Ok((last_part(parts)?, right))
}

fn all_parts<A: Leaves>(alloc: Global, parts: &mut Vec<Pat<A>>) -> Result<Seq<Pat<A>>, NoMemory> {
    let mut all = Seq::new(alloc);
    for part in mem::replace(parts, Vec::new(alloc)) {
        all.push(part)?;
    }
    Ok(all)
}

/// Puts the text of a pattern.
pub fn add_pattern<A: Spelled>(alphabet: &A, out: &mut Text, pat: &Pat<A>) -> Result<(), NoMemory> {
    match pat {
        Pat::Never => out.push('!'),
        Pat::Empty => out.push('-'),
        Pat::Leaf(leaf) => out.push(alphabet.character_of(*leaf)),
        Pat::Choice(left, right) => {
            add_pattern(alphabet, out, left.get())?;
            add_pattern(alphabet, out, right.get())?;
            out.push('|')
        }
        Pat::Group(left, right) => {
            add_pattern(alphabet, out, left.get())?;
            add_pattern(alphabet, out, right.get())?;
            out.push('.')
        }
        Pat::More(part) => {
            add_pattern(alphabet, out, part.get())?;
            out.push('+')
        }
    }
}

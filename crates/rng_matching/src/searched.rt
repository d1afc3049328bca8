ghost use Rattle.std.specs.Prelude.{◌≡◌, ℕ, map, IfOk};
ghost use Rattle.std.proofs.Common.{ap};
ghost use Rattle.std.proofs.lemmas.Bool.{eqb-true};
ghost use Rattle.odd_pool.specs.Pattern.{shape};
ghost use Rattle.rng_dialect.specs.declared.regex.Member.TheVariants as member;
ghost use Rattle.rng_matching.specs.Chars.{admits as char_admits, is_of_class, takes_char};
ghost use Rattle.rng_matching.specs.Searched.{admits as set_admits, is_of_set};

use crate::chars::{Atoms, Chars};
use crate::spans::Spans;
use odd_patterns::{Alphabet, Pat};
use odd_pool::Numbered;
use odd_text::{NoMemory, Seq};
use rng_dialect::{Atom, Member, Members};
use sqlite_items::Boxed;
use std::alloc::Global;

/// Some characters: those of the spans, or all others.
#[derive(Drop)]
pub struct Set {
    pub negated: bool,
    pub spans: Spans,
}

impl Set {
    // The characters that an atom takes: none of one in parentheses.
    fn of(alloc: Global, atom: &Atom) -> Result<Set, NoMemory>
        ensures { IfOk result (λ made. (c : ℕ) → is_of_set made c ≡ takes_char atom.now c) }
    {
        match atom {
            Atom::Char(own) => Set::of_class(alloc, false, &members_of(alloc, &[*own])?),
            Atom::Any => Set::of_class(alloc, true, &members_of(alloc, &['\n', '\r'])?),
            Atom::Class { negated, members } => Set::of_class(alloc, *negated, members),
            Atom::Nested(_) => Set::of_class(alloc, false, &Members::new(alloc)),
        }
    }

    // The characters that a class takes.
    fn of_class(alloc: Global, negated: bool, members: &Members) -> Result<Set, NoMemory>
        ensures { IfOk result (λ made. (c : ℕ) → is_of_set made c ≡ is_of_class negated members.now c) }
    {
        let spans = Spans::of(alloc, members)?;
        Ok(Set { negated, spans })
    }

    // Whether it has the character, in time for the logarithm of how many spans there are.
    fn has(&self, c: char) -> bool
        ensures { result ≡ is_of_set self.now c }
    {
        self.spans.holds(c) != self.negated
    }
}

// Members that are single characters.
fn members_of(alloc: Global, chars: &[char]) -> Result<Members, NoMemory>
    ensures { IfOk result (λ made. made ≡ map member.Char chars.now) }
{
    let mut made = Members::new(alloc);
    for c in chars {
        made.push(Member::Char(*c))?;
    }
    Ok(made)
}

/// The alphabet of the characters, where each atom is asked by a search among its members.
#[derive(Drop)]
pub struct Searched {
    pub sets: Seq<Set>,
}

impl Searched {
    /// The alphabet whose leaves take what those of the same numbers take. The only error is NoMemory, for want of memory.
    pub fn of(alloc: Global, classes: &Atoms) -> Result<Searched, NoMemory>
        ensures { IfOk result (λ made. (leaf c : ℕ) → ⟦<Searched as Alphabet>⟧.admits made leaf c ≡ char_admits classes.now leaf c) }
    {
        let mut sets = Seq::new(alloc);
        for atom in classes.as_slice() {
            let set = Set::of(alloc, atom)?;
            sets.push(set)?;
        }
        Ok(Searched { sets })
    }
}

impl Alphabet for Searched {
    type Leaf = u32;

    type Symbol = char;

    ghost admits = { λ alphabet leaf symbol. set_admits alphabet.sets leaf symbol };

    fn takes(&self, leaf: u32, symbol: &char) -> bool {
        match self.sets.get(leaf as usize) {
            Some(set) => set.has(*symbol),
            None => false,
        }
    }

    ghost exact = { eqb-true };
}

/// A character's number is its code.
impl Numbered for Searched {
    ghost number_of = { λ alphabet symbol. symbol };

    fn number(&self, symbol: &char) -> usize {
        *symbol as usize
    }

    ghost alike = { λ alphabet c d same leaf. ap (set_admits alphabet.sets leaf) same };
}

/// The same pattern over the other alphabet. The only error is NoMemory, for want of memory. It takes stack for the depth of the
/// pattern.
#[cycle(over_searched)]
pub fn over_searched(alloc: Global, pat: &Pat<Chars>) -> Result<Pat<Searched>, NoMemory>
    ensures { IfOk result (λ made. shape made ≡ shape pat.now) }
{
    match pat {
        Pat::Never => Ok(Pat::Never),
        Pat::Empty => Ok(Pat::Empty),
        Pat::Leaf(leaf) => Ok(Pat::Leaf(*leaf)),
        Pat::Choice(left, right) => {
            let left = over_part(alloc, left)?;
            let right = over_part(alloc, right)?;
            Ok(Pat::Choice(left, right))
        }
        Pat::Group(left, right) => {
            let left = over_part(alloc, left)?;
            let right = over_part(alloc, right)?;
            Ok(Pat::Group(left, right))
        }
        Pat::More(part) => {
            let part = over_part(alloc, part)?;
            Ok(Pat::More(part))
        }
    }
}

#[cycle(over_searched)]
fn over_part(alloc: Global, part: &Boxed<Pat<Chars>>) -> Result<Boxed<Pat<Searched>>, NoMemory>
    ensures { IfOk result (λ made. shape made ≡ shape part.now) }
{
    Ok(Boxed::new(alloc, over_searched(alloc, part.get())?)?)
}

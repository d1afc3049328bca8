ghost use Rattle.std.specs.Prelude.{◌≡◌, ◌↔◌, Bool, IsTrue, IfOk, []};
ghost use Rattle.odd_patterns.specs.Words.{Matches};

use crate::alphabet::Alphabet;
use odd_text::{NoMemory, TryCopy};
use sqlite_items::Boxed;
use std::alloc::Global;

/// A pattern of words over the symbols of an alphabet.
#[derive(Drop)]
pub enum Pat<A: Alphabet> {
    /// No word.
    Never,
    /// The empty word.
    Empty,
    /// One symbol, which the leaf takes.
    Leaf(A::Leaf),
    /// A word of one of the two.
    Choice(Boxed<Pat<A>>, Boxed<Pat<A>>),
    /// A word of the first, and then one of the second.
    Group(Boxed<Pat<A>>, Boxed<Pat<A>>),
    /// One or more words of the pattern, one after the other.
    More(Boxed<Pat<A>>),
}

/// Whether the pattern matches the empty word. It takes stack for the depth of the pattern.
pub fn nullable<A: Alphabet>(pat: &Pat<A>) -> bool
    ensures { (takes : A.Leaf → A.Symbol → Bool) → IsTrue result ↔ Matches takes pat.now [] }
{
    match pat {
        Pat::Never => false,
        Pat::Empty => true,
        Pat::Leaf(_) => false,
        Pat::Choice(left, right) => nullable(left.get()) || nullable(right.get()),
        Pat::Group(left, right) => nullable(left.get()) && nullable(right.get()),
        Pat::More(part) => nullable(part.get()),
    }
}

/// A copy takes memory of its own, and stack for the depth of the pattern.
impl<A: Alphabet> TryCopy for Pat<A> {
    fn copy(&self, alloc: Global) -> Result<Pat<A>, NoMemory> {
        copied(alloc, self)
    }
}

#[cycle(copied)]
fn copied<A: Alphabet>(alloc: Global, pat: &Pat<A>) -> Result<Pat<A>, NoMemory>
    ensures { IfOk result (λ made. made ≡ pat.now) }
{
    match pat {
        Pat::Never => Ok(Pat::Never),
        Pat::Empty => Ok(Pat::Empty),
        Pat::Leaf(leaf) => Ok(Pat::Leaf(*leaf)),
        Pat::Choice(left, right) => Ok(Pat::Choice(
            copied_part(alloc, left)?,
            copied_part(alloc, right)?,
        )),
        Pat::Group(left, right) => Ok(Pat::Group(
            copied_part(alloc, left)?,
            copied_part(alloc, right)?,
        )),
        Pat::More(part) => Ok(Pat::More(copied_part(alloc, part)?)),
    }
}

#[cycle(copied)]
fn copied_part<A: Alphabet>(alloc: Global, part: &Boxed<Pat<A>>) -> Result<Boxed<Pat<A>>, NoMemory>
    ensures { IfOk result (λ made. made ≡ part.now) }
{
    Ok(Boxed::new(alloc, copied(alloc, part.get())?)?)
}

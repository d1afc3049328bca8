ghost use Rattle.std.specs.Prelude.{IfOk};
ghost use Rattle.odd_patterns.specs.Words.{IsLeft};

use crate::alphabet::Alphabet;
use crate::making::{choice, group, more};
use crate::pattern::{Pat, nullable};
use odd_text::{NoMemory, TryCopy};
use std::alloc::Global;

/// What is left to match after a symbol: a pattern of the words that the given one matches with the symbol before
/// them. The only error is NoMemory, for want of memory. It takes stack for the depth of the pattern.
pub fn derive<A: Alphabet>(
    alloc: Global,
    alphabet: &A,
    pat: &Pat<A>,
    symbol: &A::Symbol,
) -> Result<Pat<A>, NoMemory>
    ensures { IfOk result (λ made. IsLeft (A.admits alphabet.now) pat.now symbol.now made) }
{
    match pat {
        Pat::Never => Ok(Pat::Never),
        Pat::Empty => Ok(Pat::Never),
        Pat::Leaf(leaf) => {
            if alphabet.takes(*leaf, symbol) {
                Ok(Pat::Empty)
            } else {
                Ok(Pat::Never)
            }
        }
        Pat::Choice(left, right) => {
            let left = derive(alloc, alphabet, left.get(), symbol)?;
            let right = derive(alloc, alphabet, right.get(), symbol)?;
            choice(alloc, left, right)
        }
        Pat::Group(left, right) => {
            let begun = derive(alloc, alphabet, left.get(), symbol)?;
            let rest = right.get().copy(alloc)?;
            let begun = group(alloc, begun, rest)?;
            if nullable(left.get()) {
                let passed = derive(alloc, alphabet, right.get(), symbol)?;
                choice(alloc, begun, passed)
            } else {
                Ok(begun)
            }
        }
        Pat::More(part) => {
            let begun = derive(alloc, alphabet, part.get(), symbol)?;
            let again = part.get().copy(alloc)?;
            let again = more(alloc, again)?;
            let rest = choice(alloc, Pat::Empty, again)?;
            group(alloc, begun, rest)
        }
    }
}

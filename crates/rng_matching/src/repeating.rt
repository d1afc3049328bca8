ghost use Rattle.std.specs.Prelude.{◌≤◌, IfOk, ⊤};
ghost use Rattle.rng_dialect.specs.Matching.{IsWithin};
ghost use Rattle.rng_matching.specs.Making.{IsFollowed, IsTimes, IsWithinOf};

use odd_patterns::{Alphabet, Pat, choice, group, group_of, more};
use odd_text::{NoMemory, Seq, TryCopy};
use rng_types::Bounds;
use std::alloc::Global;

/// A pattern as often as the bounds allow. It is Never where they allow no number. The only error is NoMemory, for want of
/// memory.
pub fn repeated<A: Alphabet>(
    alloc: Global,
    pat: &Pat<A>,
    bounds: Bounds,
) -> Result<Pat<A>, NoMemory>
    ensures { IfOk result (IsWithinOf (IsWithin bounds) pat.now) }
{
    let Some(max) = bounds.max else {
        let rest = any_number(alloc, pat)?;
        return followed(alloc, pat, bounds.min, rest);
    };
    if max < bounds.min {
        return Ok(Pat::Never);
    }
    let rest = at_most(alloc, pat, max - bounds.min)?;
    followed(alloc, pat, bounds.min, rest)
}

// A pattern so many times, and then another.
fn followed<A: Alphabet>(
    alloc: Global,
    pat: &Pat<A>,
    count: u32,
    rest: Pat<A>,
) -> Result<Pat<A>, NoMemory>
    ensures { IfOk result (IsFollowed count pat.now rest) }
{
    let least = times(alloc, pat, count)?;
    group(alloc, least, rest)
}

// A pattern so many times.
fn times<A: Alphabet>(alloc: Global, pat: &Pat<A>, count: u32) -> Result<Pat<A>, NoMemory>
    ensures { IfOk result (IsTimes count pat.now) }
{
    let mut parts = Seq::new(alloc);
    for _ in 0..count {
        let part = pat.copy(alloc)?;
        parts.push(part)?;
    }
    group_of(alloc, parts)
}

// A pattern any number of times.
fn any_number<A: Alphabet>(alloc: Global, pat: &Pat<A>) -> Result<Pat<A>, NoMemory>
    ensures { IfOk result (IsWithinOf (λ n. ⊤) pat.now) }
{
    let again = pat.copy(alloc)?;
    let some = more(alloc, again)?;
    choice(alloc, Pat::Empty, some)
}

// A pattern at most so many times. By halves, so that it is deeper than the pattern by no more than the logarithm of the count,
// and so that each number of times is matched in one way: up to half of them, or one more than that and then the others.
fn at_most<A: Alphabet>(alloc: Global, pat: &Pat<A>, count: u32) -> Result<Pat<A>, NoMemory>
    ensures { IfOk result (IsWithinOf (λ n. n ≤ count) pat.now) }
{
    if count == 0 {
        return Ok(Pat::Empty);
    }
    let half = (count - 1) / 2;
    let few = at_most(alloc, pat, half)?;
    let some = times(alloc, pat, half + 1)?;
    let others = at_most(alloc, pat, count - half - 1)?;
    let many = group(alloc, some, others)?;
    choice(alloc, few, many)
}

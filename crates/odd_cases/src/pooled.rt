use odd_patterns::{Alphabet, Pat};
use odd_pool::Pool;
use odd_text::NoMemory;
use std::alloc::Global;

/// Whether a pattern matches a word, by positions in a pool.
pub fn matches_pooled<A: Alphabet>(
    alloc: Global,
    alphabet: &A,
    pat: &Pat<A>,
    word: &[A::Symbol],
) -> Result<bool, NoMemory> {
    let mut pool = Pool::new(alloc);
    let mut at = pool.put(pat)?;
    for symbol in word {
        at = pool.derive(alphabet, at, symbol)?;
    }
    Ok(pool.nullable(at))
}

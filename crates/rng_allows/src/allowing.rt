ghost use Rattle.std.specs.Prelude.{◌≡◌, ◌↔◌, All, IfOk, IsTrue};
ghost use Rattle.std.specs.Str.{chars};
ghost use Rattle.rng_types.specs.Words.{words_of as the_words_of};
ghost use Rattle.rng_values.specs.Treated.{collapsed};
ghost use Rattle.rng_allows.specs.Allowed.{AllowedBy};
ghost use Rattle.rng_allows.specs.Formed.{IsFormedValue};
ghost use Rattle.rng_allows.specs.Marked.{AreWordsAllowed, IsMarked};

use crate::items::Items;
use crate::typed::is_typed;
use crate::value_pattern::{ValuePattern, ValuePatterns};
use odd_patterns::{Marks, Pat};
use odd_pool::Pool;
use odd_text::{NoMemory, Text};
use rng_types::words_of;
use rng_values::collapse;
use std::alloc::Global;

/// Whether a pattern of values allows a text (ISO/IEC 19757-2, section 9.3): its datatype and facets, equality but for white space,
/// or its words. The only error is NoMemory, for want of memory. It takes stack for the depth of the pattern.
#[cycle(allows)]
pub fn allows(alloc: Global, value: &ValuePattern, text: &Text) -> Result<bool, NoMemory>
    requires { IsFormedValue value.now }
    ensures { IfOk result (λ yes. IsTrue yes ↔ AllowedBy value.now (chars text.now)) }
{
    match value {
        ValuePattern::Never => Ok(false),
        ValuePattern::Any => Ok(true),
        ValuePattern::Choice(left, right) => {
            if allows(alloc, left.get(), text)? {
                return Ok(true);
            }
            allows(alloc, right.get(), text)
        }
        ValuePattern::Typed { kind, facets } => is_typed(alloc, *kind, facets, text),
        ValuePattern::Same(own) => is_same(alloc, own, text),
        ValuePattern::List { leaves, pat } => allows_words(alloc, leaves, pat, text),
    }
}

// Whether two texts are equal but for white space.
fn is_same(alloc: Global, one: &Text, other: &Text) -> Result<bool, NoMemory>
    ensures { IfOk result (λ yes. IsTrue yes ↔ (collapsed (chars one.now) ≡ collapsed (chars other.now))) }
{
    let collapsed = collapse(alloc, one)?;
    let others = collapse(alloc, other)?;
    Ok(collapsed == others)
}

// Whether the words of a text are what a pattern matches.
#[cycle(allows)]
fn allows_words(
    alloc: Global,
    leaves: &ValuePatterns,
    pat: &Pat<Items>,
    text: &Text,
) -> Result<bool, NoMemory>
    requires { All IsFormedValue leaves.now }
    ensures { IfOk result (λ yes. IsTrue yes ↔ AreWordsAllowed leaves.now pat.now (the_words_of (chars text.now))) }
{
    let words = words_of(alloc, text.as_str())?;
    let mut pool = Pool::new(alloc);
    let mut left = pool.put(pat)?;
    for word in words.as_slice() {
        let marks = marks_of(alloc, leaves, word)?;
        left = pool.derive(&Items, left, &marks)?;
    }
    Ok(pool.nullable(left))
}

// Which of the patterns of values allow a word.
#[cycle(allows)]
fn marks_of(alloc: Global, leaves: &ValuePatterns, word: &Text) -> Result<Marks, NoMemory>
    requires { All IsFormedValue leaves.now }
    ensures { IfOk result (IsMarked leaves.now (chars word.now)) }
{
    let mut marks = Marks::new(alloc);
    for leaf in leaves.as_slice() {
        marks.push(allows(alloc, leaf, word)?)?;
    }
    Ok(marks)
}

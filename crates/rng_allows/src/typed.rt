ghost use Rattle.std.specs.Prelude.{◌↔◌, IfOk, IsTrue};
ghost use Rattle.std.specs.Str.{chars};
ghost use Rattle.rng_dialect.specs.Dialect.{SpellsRegex};
ghost use Rattle.rng_dialect.specs.Matching.{Matches};
ghost use Rattle.rng_dialect.specs.declared.regex.Regex.{Regex};
ghost use Rattle.rng_values.specs.Facets.{Meets};
ghost use Rattle.rng_values.specs.Lexical.{Fits};
ghost use Rattle.rng_values.specs.Treated.{treated as the_treated};
ghost use Rattle.rng_allows.specs.Allowed.{IsTyped};
ghost use Rattle.rng_allows.specs.Formed.{AreMade, IsMade, IsPatternText};

use crate::treating::treated;
use odd_text::{NoMemory, Text};
use rng_dialect::{PatternRefusal, read_pattern};
use rng_matching::Matcher;
use rng_types::{DataType, Facet, FacetName, Facets};
use rng_values::{fits, meets};
use std::alloc::Global;

/// How many steps of a pattern are remembered for one text.
const ROOM: usize = 1024;

/// Whether a text is of a datatype and meets its facets (XML Schema, Part 2, sections 3 and 4.3). The only error is NoMemory, for
/// want of memory.
pub fn is_typed(
    alloc: Global,
    kind: DataType,
    facets: &Facets,
    text: &Text,
) -> Result<bool, NoMemory>
    requires { AreMade kind facets.now }
    ensures { IfOk result (λ yes. IsTrue yes ↔ IsTyped kind facets.now (chars text.now)) }
{
    if !fits(kind, text) {
        return Ok(false);
    }
    for facet in facets.as_slice() {
        if !is_met(alloc, kind, facet, text)? {
            return Ok(false);
        }
    }
    Ok(true)
}

// Whether a text of the datatype meets one facet.
fn is_met(alloc: Global, kind: DataType, facet: &Facet, text: &Text) -> Result<bool, NoMemory>
    requires made { IsMade kind facet.now }
    requires fits { Fits kind (chars text.now) }
    ensures { IfOk result (λ yes. IsTrue yes ↔ Meets facet.now (the_treated kind (chars text.now))) }
{
    match facet.name {
        FacetName::Pattern => {
            let tested = treated(alloc, kind, text)?;
            is_spelled_match(alloc, &facet.value, &tested)
        }
        _ => Ok(meets(kind, facet, text)),
    }
}

// Whether a text matches the pattern that another spells.
fn is_spelled_match(alloc: Global, pattern: &Text, text: &Text) -> Result<bool, NoMemory>
    requires { IsPatternText (chars pattern.now) }
    ensures { IfOk result (λ yes. IsTrue yes ↔ ((r : Regex) × SpellsRegex (chars pattern.now) r × Matches r (chars text.now))) }
{
    match read_pattern(alloc, pattern) {
        Ok(regex) => Matcher::new(alloc, &regex, ROOM)?.is_match(text.as_str()),
        Err(PatternRefusal::NoMemory) => Err(NoMemory),
        Err(PatternRefusal::BadPattern { .. }) => unreachable!(),
    }
}

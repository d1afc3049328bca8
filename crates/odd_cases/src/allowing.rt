ghost use Rattle.std.specs.Prelude.{All, IfOk};
ghost use Rattle.rng_allows.specs.Formed.{IsFormedValue};

use crate::postfix::{Making, read_pattern};
use crate::values::{facets_of, said, text_of};
use odd_case_files::CaseFault;
use odd_text::Text;
use rng_allows::{Items, ValuePattern, ValuePatterns, allows};
use rng_values::{FacetTexts, Item, ItemRefusal, make_item};
use sqlite_items::Boxed;
use std::alloc::Global;
use std::mem;

/// Puts whether a pattern of values allows the text of the last field. The signs of the pattern are the fields before it, each after
/// its parts.
pub fn add_allowing(alloc: Global, out: &mut Text, question: &str) -> Result<(), CaseFault> {
    let Some((signs, text)) = question.rsplit_once('\t') else {
        return Err(CaseFault::NoValue);
    };
    let value = value_of(alloc, signs)?;
    out.push_str(said(allows(alloc, &value, &text_of(alloc, text)?)?))?;
    Ok(())
}

// The pattern of values of some signs.
fn value_of(alloc: Global, signs: &str) -> Result<ValuePattern, CaseFault>
    ensures { IfOk result IsFormedValue }
{
    let mut parts = Vec::new(alloc);
    for sign in signs.split('\t') {
        let value = next_value(alloc, &mut parts, sign)?;
        parts.push(value)?;
    }
    last_part(&mut parts)
}

// The pattern of values of one sign. The parts that it takes are the last ones, or all.
fn next_value(
    alloc: Global,
    parts: &mut Vec<ValuePattern>,
    sign: &str,
) -> Result<ValuePattern, CaseFault>
    requires { All IsFormedValue parts.old.items }
    ensures parts { All IsFormedValue parts.new.items }
    ensures made { IfOk result IsFormedValue }
{
    match (sign.chars().next(), sign.get(1..)) {
        (Some('!'), Some("")) => Ok(ValuePattern::Never),
        (Some('?'), Some("")) => Ok(ValuePattern::Any),
        (Some('|'), Some("")) => either(alloc, parts),
        (Some('='), Some(text)) => Ok(ValuePattern::Same(text_of(alloc, text)?)),
        (Some(':'), Some(item)) => typed(alloc, item),
        (Some('['), Some(pattern)) => list(alloc, parts, pattern),
        _ => Err(CaseFault::NoValue),
    }
}

fn last_part(parts: &mut Vec<ValuePattern>) -> Result<ValuePattern, CaseFault>
    requires { All IsFormedValue parts.old.items }
    ensures parts { All IsFormedValue parts.new.items }
    ensures made { IfOk result IsFormedValue }
{
    parts.pop().ok_or(CaseFault::NoValue)
}

// One of the last two.
fn either(alloc: Global, parts: &mut Vec<ValuePattern>) -> Result<ValuePattern, CaseFault>
    requires { All IsFormedValue parts.old.items }
    ensures parts { All IsFormedValue parts.new.items }
    ensures made { IfOk result IsFormedValue }
{
    let right = last_part(parts)?;
    let left = last_part(parts)?;
    Ok(ValuePattern::Choice(Boxed::new(alloc, left)?, Boxed::new(alloc, right)?))
}

// A datatype with facets, of which each stands behind a picture of a separator.
fn typed(alloc: Global, item: &str) -> Result<ValuePattern, CaseFault>
    ensures { IfOk result IsFormedValue }
{
    let (name, facets) = facets_of(alloc, item, '\u{241F}')?;
    typed_of(alloc, &name, &facets)
}

// The datatype of a name with facets.
fn typed_of(alloc: Global, name: &Text, facets: &FacetTexts) -> Result<ValuePattern, CaseFault>
    ensures { IfOk result IsFormedValue }
{
    match make_item(alloc, name, facets) {
        Ok(Item::Typed { kind, facets }) => Ok(ValuePattern::Typed { kind, facets }),
        Err(ItemRefusal::NoMemory) => Err(CaseFault::NoMemory),
        _ => Err(CaseFault::NoValue),
    }
}

// A list over all parts, whose pattern has their numbers as its leaves.
fn list(
    alloc: Global,
    parts: &mut Vec<ValuePattern>,
    pattern: &str,
) -> Result<ValuePattern, CaseFault>
    requires { All IsFormedValue parts.old.items }
    ensures parts { All IsFormedValue parts.new.items }
    ensures made { IfOk result IsFormedValue }
{
    let pat = read_pattern(alloc, &Items, pattern, Making::Plain)?;
    let mut leaves = ValuePatterns::new(alloc);
    for leaf in mem::replace(parts, Vec::new(alloc)) {
        leaves.push(leaf)?;
    }
    Ok(ValuePattern::List { leaves, pat })
}

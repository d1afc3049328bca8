ghost use Rattle.std.specs.Prelude.{◌≡◌, ◌≤◌, ◌↔◌, ℕ, Any, count_by, Err, IfOk, IsTrue, None, nat_le, not, Ok, OnOk, Some};
ghost use Rattle.std.specs.List.{find};
ghost use Rattle.std.specs.Option.{option_copied};
ghost use Rattle.std.specs.Str.{chars};
ghost use Rattle.rng_dialect.specs.Dialect.{IsPattern};
ghost use Rattle.rng_dialect.specs.declared.regex.Regex.{Regex};
ghost use Rattle.rng_types.specs.declared.facet.FacetText.{FacetText};
ghost use Rattle.rng_values.specs.Formed.{IsFormedItem};
ghost use Rattle.rng_values.specs.Items.{FacetFault, IsItemOf, ItemFault};
ghost use Rattle.rng_values.specs.Making.{IsMadeOf, IsUntaken, has_twice as the_has_twice, in_order as the_in_order, is_of as the_is_of, item_of as the_item_of};

use crate::facets::{is_number_of, takes_facet};
use crate::names::{facet_named, type_named};
use crate::refusal::ItemRefusal;
use odd_text::{NoMemory, Text, TryCopy};
use rng_dialect::{PatternRefusal, read_pattern};
use rng_types::{DataType, Facet, FacetName, FacetText, FacetTexts, Facets, Item};
use std::alloc::Global;

/// A number is not of its form.
const MALFORMED: u8 = 1;
/// An unknown datatype or facet, a facet on a datatype that does not take it, or a pattern that is none.
const UNKNOWN: u8 = 2;
/// A facet twice.
const TWICE: u8 = 4;

// The names of facets in their order.
const NAMES: [FacetName; 6] = [
    FacetName::Length,
    FacetName::MaxInclusive,
    FacetName::MaxLength,
    FacetName::MinInclusive,
    FacetName::MinLength,
    FacetName::Pattern,
];

/// The item that a datatype's name and facets make: the datatype with the facets in the order of their names (XML Schema,
/// Part 2, sections 3 and 4.3). A refusal names the least rule that they break: 1 where a number is not of its form; 2 for an
/// unknown datatype or facet, a facet on a datatype that does not take it, or a pattern that is none; 4 for a facet that
/// stands twice. NoMemory is for want of memory.
pub fn make_item(alloc: Global, name: &Text, facets: &FacetTexts) -> Result<Item, ItemRefusal>
    ensures item { IfOk result (IsItemOf name.now facets.now) }
    ensures formed { IfOk result IsFormedItem }
    ensures ok { OnOk result ((rule : ℕ) → ItemFault name.now facets.now rule → ⊥) }
    ensures rule { (rule : ℕ) → result ≡ Err (ItemRefusal.Rule rule) → ItemFault name.now facets.now rule × ((other : ℕ) → ItemFault name.now facets.now other → rule ≤ other) }
{
    if let Some(rule) = item_fault(alloc, name, facets)? {
        return Err(ItemRefusal::Rule(rule));
    }
    match item_of(alloc, name, facets)? {
        Some(item) => Ok(item),
        None => Err(ItemRefusal::Rule(UNKNOWN)),
    }
}

/// The least rule that a datatype's name and facets break, as `make_item` says it. The only error is NoMemory, for want of
/// memory.
pub fn item_fault(alloc: Global, name: &Text, facets: &FacetTexts) -> Result<Option<u8>, NoMemory>
    ensures sound { result ≡ Ok None → (rule : ℕ) → ItemFault name.now facets.now rule → ⊥ }
    ensures rule { (rule : ℕ) → result ≡ Ok (Some rule) → ItemFault name.now facets.now rule × ((other : ℕ) → ItemFault name.now facets.now other → rule ≤ other) }
{
    let texts = facets.as_slice();
    if has_malformed(texts) {
        return Ok(Some(MALFORMED));
    }
    let Some(kind) = type_named(name) else {
        return Ok(Some(UNKNOWN));
    };
    if has_untaken(alloc, kind, texts)? {
        return Ok(Some(UNKNOWN));
    }
    if has_twice(texts) {
        return Ok(Some(TWICE));
    }
    Ok(None)
}

/// The item that a datatype's name and facets make that break no rule; of others with the first facet of each name, where the
/// datatype is known. The only error is NoMemory, for want of memory.
pub fn item_of(alloc: Global, name: &Text, facets: &FacetTexts) -> Result<Option<Item>, NoMemory>
    ensures value { IfOk result (λ made. made ≡ the_item_of name.now facets.now) }
    ensures item { ((rule : ℕ) → ItemFault name.now facets.now rule → ⊥) → IfOk result (IsMadeOf name.now facets.now) }
{
    let Some(kind) = type_named(name) else {
        return Ok(None);
    };
    let facets = in_order(alloc, facets.as_slice())?;
    Ok(Some(Item::Typed { kind, facets }))
}

// Whether one of the facets is to be a number, and is none of its form.
fn has_malformed(facets: &[FacetText]) -> bool
    ensures { IsTrue result ↔ Any (λ f. FacetFault f 1) facets.now }
{
    facets.iter().any(is_malformed)
}

// Whether the facet is to be a number, and is none of its form.
fn is_malformed(facet: &FacetText) -> bool
    ensures { IsTrue result ↔ FacetFault facet.now 1 }
{
    match facet_named(&facet.name) {
        Some(name) => !is_number_of(name, &facet.value),
        None => false,
    }
}

// Whether one of the facets is unknown, is none that the datatype takes, or is a pattern that is none.
fn has_untaken(alloc: Global, kind: DataType, facets: &[FacetText]) -> Result<bool, NoMemory>
    ensures { IfOk result (λ b. IsTrue b ↔ Any (IsUntaken kind) facets.now) }
{
    for facet in facets {
        if !is_taken(alloc, kind, facet)? {
            return Ok(true);
        }
    }
    Ok(false)
}

// Whether the facet is one that the datatype takes, and spells a pattern if it is to be one.
fn is_taken(alloc: Global, kind: DataType, facet: &FacetText) -> Result<bool, NoMemory>
    ensures { IfOk result (λ b. IsTrue (not b) ↔ IsUntaken kind facet.now) }
{
    let Some(name) = facet_named(&facet.name) else {
        return Ok(false);
    };
    match name {
        FacetName::Pattern => is_pattern(alloc, &facet.value),
        _ => Ok(takes_facet(kind, name)),
    }
}

// Whether the text spells a pattern.
fn is_pattern(alloc: Global, text: &Text) -> Result<bool, NoMemory>
    ensures { IfOk result (λ b. IsTrue b ↔ ((r : Regex) × IsPattern (chars text.now) r)) }
{
    match read_pattern(alloc, text) {
        Ok(_) => Ok(true),
        Err(PatternRefusal::BadPattern { .. }) => Ok(false),
        Err(PatternRefusal::NoMemory) => Err(NoMemory),
    }
}

// Whether the facet has the name.
fn is_of(name: FacetName, facet: &FacetText) -> bool
    ensures { result ≡ the_is_of name facet.now }
{
    facet_named(&facet.name) == Some(name)
}

// Whether two facets or more have the name.
fn has_two(name: FacetName, facets: &[FacetText]) -> bool
    ensures { result ≡ nat_le 2 (count_by (the_is_of name) facets.now) }
{
    facets
        .iter()
        .filter(|facet| is_of(name, facet))
        .nth(1)
        .is_some()
}

// Whether two facets or more have the same name.
fn has_twice(facets: &[FacetText]) -> bool
    ensures { result ≡ the_has_twice facets.now }
{
    NAMES.iter().any(|name| has_two(*name, facets))
}

// The first facet of the name.
fn first_of(name: FacetName, facets: &[FacetText]) -> Option<&FacetText>
    ensures { option_copied result ≡ find (the_is_of name) facets.entry.now }
{
    facets.iter().find(|facet| is_of(name, facet))
}

// The facets in the order of their names, of each name the first.
fn in_order(alloc: Global, facets: &[FacetText]) -> Result<Facets, NoMemory>
    ensures { IfOk result (λ made. made ≡ the_in_order facets.now) }
{
    let mut made = Facets::new(alloc);
    for name in NAMES {
        if let Some(facet) = first_of(name, facets) {
            let value = facet.value.copy(alloc)?;
            made.push(Facet { name, value })?;
        }
    }
    Ok(made)
}

ghost use Rattle.std.specs.Prelude.{◌≡◌, IfOk};
ghost use Rattle.odd_forms.specs.Tags.{facet_tagged, facets_given as the_facets_given, tag_of};

use crate::names::is_one_of;
use odd_text::{NoMemory, Text, TryCopy};
use odd_tree::{Tree, attribute, elements};
use rng_types::{FacetText, FacetTexts};
use std::alloc::Global;

/// The facets that a `dataRef` gives: its `restriction`, which is a pattern, and its `dataFacet` that have a name and a value.
/// The only error is NoMemory, for want of memory.
pub fn facets_given(alloc: Global, tree: &Tree) -> Result<FacetTexts, NoMemory>
    ensures { IfOk result (λ facets. facets ≡ the_facets_given tree.now) }
{
    let mut facets = FacetTexts::new(alloc);
    if let Some(pattern) = attribute(&tree.attrs, "restriction") {
        facets.push(FacetText {
            name: Text::from_str(alloc, "pattern")?,
            value: pattern.copy(alloc)?,
        })?;
    }
    for child in elements(tree) {
        if let Some(facet) = facet_of(alloc, child)? {
            facets.push(facet)?;
        }
    }
    Ok(facets)
}

// The facet that a child gives, where it is a `dataFacet` with a name and a value.
fn facet_of(alloc: Global, child: &Tree) -> Result<Option<FacetText>, NoMemory>
    ensures { IfOk result (λ facet. facet ≡ facet_tagged (tag_of child.now)) }
{
    if !is_one_of(child, &["dataFacet"]) {
        return Ok(None);
    }
    let (Some(name), Some(value)) = (
        attribute(&child.attrs, "name"),
        attribute(&child.attrs, "value"),
    ) else {
        return Ok(None);
    };
    Ok(Some(FacetText {
        name: name.copy(alloc)?,
        value: value.copy(alloc)?,
    }))
}

ghost use Rattle.std.specs.Prelude.{◌≡◌, ◌↔◌, ℕ, List, map, IfOk, IsTrue};
ghost use Rattle.std.specs.Option.{option_copied};
ghost use Rattle.rng_values.specs.Treated.{collapsed_text};
ghost use Rattle.odd_forms.specs.Faults.{idents_of as the_idents_of, value_in as the_value_in, values_in as the_values_in};
ghost use Rattle.odd_text.specs.Standing.{StandsTwice};

use crate::element::Element;
use crate::names::is_one_of;
use odd_text::{NoMemory, Text, TryCopy, Words};
use odd_tree::{Tree, attribute, elements};
use rng_values::collapse;
use std::alloc::Global;
use std::collections::BTreeSet;

/// Whether a value stands twice among these. The only error is NoMemory, for want of memory.
pub fn has_twice(alloc: Global, values: Words) -> Result<bool, NoMemory>
    ensures { IfOk result (λ b. IsTrue b ↔ ((value : List ℕ) × StandsTwice (λ v. v ≡ value) values)) }
{
    let mut seen = BTreeSet::new(alloc);
    for value in values.into_items() {
        if !seen.insert(value)? {
            return Ok(true);
        }
    }
    Ok(false)
}

/// The values of an attribute in the children of this name, in their order. The only error is NoMemory, for want of memory.
pub fn values_in(
    alloc: Global,
    tree: &Tree,
    element: Element,
    local: &str,
) -> Result<Words, NoMemory>
    ensures { IfOk result (λ values. values ≡ the_values_in element local.now tree.now) }
{
    let mut values = Words::new(alloc);
    for child in elements(tree) {
        if let Some(value) = value_in(element, local, child) {
            values.push(value.copy(alloc)?)?;
        }
    }
    Ok(values)
}

// The value of an attribute, in a child of this name.
fn value_in<'a>(element: Element, local: &str, child: &'a Tree) -> Option<&'a Text>
    ensures { option_copied result ≡ the_value_in element local.now child.entry.now }
{
    if is_one_of(child, &[element.form().name]) {
        attribute(&child.attrs, local)
    } else {
        None
    }
}

/// The values with white space collapsed. The only error is NoMemory, for want of memory.
pub fn all_collapsed(alloc: Global, values: &Words) -> Result<Words, NoMemory>
    ensures { IfOk result (λ made. made ≡ map collapsed_text values.now) }
{
    let mut made = Words::new(alloc);
    for value in values.as_slice() {
        made.push(collapse(alloc, value)?)?;
    }
    Ok(made)
}

/// The idents of attributes, in their order. The only error is NoMemory, for want of memory.
pub fn idents_of(alloc: Global, defs: &[&Tree]) -> Result<Words, NoMemory>
    ensures { IfOk result (λ idents. idents ≡ the_idents_of (map (λ t. t.now) defs.now)) }
{
    let mut idents = Words::new(alloc);
    for def in defs {
        if let Some(ident) = attribute(&def.attrs, "ident") {
            idents.push(ident.copy(alloc)?)?;
        }
    }
    Ok(idents)
}

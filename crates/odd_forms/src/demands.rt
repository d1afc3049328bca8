ghost use Rattle.std.specs.Prelude.{◌≡◌, ◌≢◌, ◌↔◌, List, [], map, is_some, IfOk, IsTrue};
ghost use Rattle.odd_text.specs.declared.name.Bind.{Bind as ABind};
ghost use Rattle.odd_tree.specs.Elements.{all_binds, given};
ghost use Rattle.odd_forms.specs.Excepting.{has_unbound as the_has_unbound};
ghost use Rattle.odd_forms.specs.Faults.{DemandFault};
ghost use Rattle.odd_forms.specs.Form.{apart, apart_collapsed, attributes_apart, bound, either, has_child, in_order, needed_unless, not_beside, not_both, own_text, typed};
ghost use Rattle.odd_text.specs.Least.{IsLeast};
ghost use Rattle.odd_forms.specs.Seen as seen;
ghost use Rattle.odd_forms.specs.Words.{is_given_among, words_given as the_words_given};

use crate::attributes::{is_filled, number, suits};
use crate::element::Element;
use crate::excepted::is_unbound;
use crate::facets::facets_given;
use crate::faults::{LEFT_OUT, MALFORMED, TWICE, UNKNOWN, fault_where};
use crate::form::{Demand, Kind};
use crate::listing::definitions_in;
use crate::named::{count_named, has_named};
use crate::texts::collapsed_in;
use crate::twice::{all_collapsed, has_twice, idents_of, values_in};
use crate::words::words_given;
use odd_text::{NoMemory, is_among};
use odd_tree::{Bindings, Tree, attribute};
use rng_values::item_fault;
use std::alloc::Global;

/// The rule that an element breaks by what must also hold of it. `inside` are the declarations in force in it, level by
/// level. The only error is NoMemory, for want of memory.
pub fn demand_fault(
    alloc: Global,
    demand: &Demand,
    tree: &Tree,
    inside: &[&Bindings],
) -> Result<Option<u8>, NoMemory>
    ensures { IfOk result (IsLeast (DemandFault (all_binds (map (λ b. b.now) inside.now)) tree.now (seen.demand demand.now))) }
{
    match demand {
        Demand::InOrder(least, most) => Ok(order_fault(tree, least, most)),
        Demand::NotBoth(one, other) => Ok(both_fault(tree, one, other)),
        Demand::NeededUnless(local, by, words) => Ok(missing_fault(tree, local, by, words)),
        Demand::Bound(local) => bound_fault(alloc, tree, local, inside),
        Demand::Apart(element, local) => apart_fault(alloc, tree, *element, local),
        Demand::ApartCollapsed(element, local) => collapsed_fault(alloc, tree, *element, local),
        Demand::AttributesApart => attributes_fault(alloc, tree),
        Demand::Either(one, other) => Ok(either_fault(tree, one, other)),
        Demand::NotBeside(local, by) => Ok(beside_fault(tree, local, by)),
        Demand::NoChildBeside(element, by, rule) => Ok(fault_where(
            has_named(*element, tree) && is_given(tree, by),
            *rule,
        )),
        Demand::HasChild(element, by, words) => Ok(child_fault(tree, *element, by, words)),
        Demand::OnePart(kinds) => Ok(fault_where(count_named(kinds, tree) != 1, UNKNOWN)),
        Demand::NoPart(kinds) => Ok(fault_where(count_named(kinds, tree) != 0, UNKNOWN)),
        Demand::Once(local) => Ok(fault_where(number(tree, local) != Some(1), LEFT_OUT)),
        Demand::OwnText(kind) => text_fault(alloc, tree, kind),
        Demand::Typed => typed_fault(alloc, tree),
    }
}

// The rule that an element breaks by numbers out of order.
fn order_fault(tree: &Tree, least: &str, most: &str) -> Option<u8>
    ensures { (binds : List ABind) → IsLeast (DemandFault binds tree.now (in_order least.now most.now)) result }
{
    match (number(tree, least), number(tree, most)) {
        (Some(m), Some(n)) => fault_where(n < m, UNKNOWN),
        _ => None,
    }
}

// By words in both of two attributes.
fn both_fault(tree: &Tree, one: &str, other: &str) -> Option<u8>
    ensures { (binds : List ABind) → IsLeast (DemandFault binds tree.now (not_both one.now other.now)) result }
{
    fault_where(has_word(tree, one) && has_word(tree, other), UNKNOWN)
}

// By an attribute that is absent.
fn missing_fault(tree: &Tree, local: &str, by: &str, words: &[&str]) -> Option<u8>
    ensures { (binds : List ABind) → IsLeast (DemandFault binds tree.now (needed_unless local.now by.now (map (λ w. w.now) words.now))) result }
{
    fault_where(
        !is_given(tree, local) && !is_one(tree, by, words),
        MALFORMED,
    )
}

// Whether a prefix in the words of an attribute is not bound.
fn has_unbound(
    alloc: Global,
    tree: &Tree,
    local: &str,
    inside: &[&Bindings],
) -> Result<bool, NoMemory>
    ensures { IfOk result (λ b. b ≡ the_has_unbound (all_binds (map (λ b. b.now) inside.now)) (the_words_given tree.now local.now)) }
{
    let words = words_given(alloc, tree, local)?;
    for word in words.as_slice() {
        if is_unbound(alloc, inside, word)? {
            return Ok(true);
        }
    }
    Ok(false)
}

// By a prefix that is not bound.
fn bound_fault(
    alloc: Global,
    tree: &Tree,
    local: &str,
    inside: &[&Bindings],
) -> Result<Option<u8>, NoMemory>
    ensures { IfOk result (IsLeast (DemandFault (all_binds (map (λ b. b.now) inside.now)) tree.now (bound local.now))) }
{
    Ok(fault_where(has_unbound(alloc, tree, local, inside)?, MALFORMED))
}

// By one value in two children of this name.
fn apart_fault(
    alloc: Global,
    tree: &Tree,
    element: Element,
    local: &str,
) -> Result<Option<u8>, NoMemory>
    ensures { (binds : List ABind) → IfOk result (IsLeast (DemandFault binds tree.now (apart element local.now))) }
{
    let values = values_in(alloc, tree, element, local)?;
    Ok(fault_where(has_twice(alloc, values)?, TWICE))
}

// The same after white space is collapsed.
fn collapsed_fault(
    alloc: Global,
    tree: &Tree,
    element: Element,
    local: &str,
) -> Result<Option<u8>, NoMemory>
    ensures { (binds : List ABind) → IfOk result (IsLeast (DemandFault binds tree.now (apart_collapsed element local.now))) }
{
    let values = all_collapsed(alloc, &values_in(alloc, tree, element, local)?)?;
    Ok(fault_where(has_twice(alloc, values)?, TWICE))
}

// By two attributes of one ident.
fn attributes_fault(alloc: Global, tree: &Tree) -> Result<Option<u8>, NoMemory>
    ensures { (binds : List ABind) → IfOk result (IsLeast (DemandFault binds tree.now attributes_apart)) }
{
    let defs = definitions_in(alloc, tree)?;
    let idents = idents_of(alloc, &defs)?;
    Ok(fault_where(has_twice(alloc, idents)?, TWICE))
}

// By neither of two attributes, or by both.
fn either_fault(tree: &Tree, one: &str, other: &str) -> Option<u8>
    ensures { (binds : List ABind) → IsLeast (DemandFault binds tree.now (either one.now other.now)) result }
{
    match (is_given(tree, one), is_given(tree, other)) {
        (false, false) => Some(MALFORMED),
        (true, true) => Some(UNKNOWN),
        _ => None,
    }
}

// By an attribute beside another.
fn beside_fault(tree: &Tree, local: &str, by: &str) -> Option<u8>
    ensures { (binds : List ABind) → IsLeast (DemandFault binds tree.now (not_beside local.now by.now)) result }
{
    fault_where(is_given(tree, local) && is_given(tree, by), LEFT_OUT)
}

// By a child that is absent.
fn child_fault(tree: &Tree, element: Element, by: &str, words: &[&str]) -> Option<u8>
    ensures { (binds : List ABind) → IsLeast (DemandFault binds tree.now (has_child element by.now (map (λ w. w.now) words.now))) result }
{
    fault_where(
        !has_named(element, tree) && !is_one(tree, by, words),
        UNKNOWN,
    )
}

// By a text that is of another kind.
fn text_fault(alloc: Global, tree: &Tree, kind: &Kind) -> Result<Option<u8>, NoMemory>
    ensures { (binds : List ABind) → IfOk result (IsLeast (DemandFault binds tree.now (own_text (seen.kind kind.now)))) }
{
    let text = collapsed_in(alloc, tree)?;
    Ok(fault_where(!suits(alloc, kind, &text)?, MALFORMED))
}

// By the name and the facets of a datatype.
fn typed_fault(alloc: Global, tree: &Tree) -> Result<Option<u8>, NoMemory>
    ensures { (binds : List ABind) → IfOk result (IsLeast (DemandFault binds tree.now typed)) }
{
    match attribute(&tree.attrs, "name") {
        Some(name) => item_fault(alloc, name, &facets_given(alloc, tree)?),
        None => Ok(None),
    }
}

// Whether an element has a word in an attribute.
fn has_word(tree: &Tree, local: &str) -> bool
    ensures { IsTrue result ↔ (the_words_given tree.now local.now ≢ []) }
{
    match attribute(&tree.attrs, local) {
        Some(value) => is_filled(value),
        None => false,
    }
}

// Whether an element has an attribute.
fn is_given(tree: &Tree, local: &str) -> bool
    ensures { result ≡ is_some (given tree.now local.now) }
{
    attribute(&tree.attrs, local).is_some()
}

// Whether the value of an attribute is one of the words.
fn is_one(tree: &Tree, local: &str, words: &[&str]) -> bool
    ensures { result ≡ is_given_among (map (λ w. w.now) words.now) (given tree.now local.now) }
{
    match attribute(&tree.attrs, local) {
        Some(value) => is_among(words, value),
        None => false,
    }
}

ghost use Rattle.std.specs.Prelude.{◌≡◌, ◌↔◌, ◌⊎◌, ℕ, IfOk, IsTrue, Some};
ghost use Rattle.std.specs.BTreeSet.{contains};
ghost use Rattle.std.specs.Option.{option_copied};
ghost use Rattle.std.specs.Ordering.{nat_cmp};
ghost use Rattle.odd_tree.specs.Formed.{IsFormed};
ghost use Rattle.odd_tree.specs.declared.tree.Tree.{Tree as ATree};
ghost use Rattle.odd_text.specs.Least.{IsLeast};
ghost use Rattle.odd_forms.specs.declared.element.Element.TheVariants as the_element;
ghost use Rattle.odd_decls.specs.Faults.{IsFirstIn, IsStanding, TargetFault, target_of as the_target_of};
ghost use Rattle.odd_decls.specs.FileItems.{AreFileItems, AreGroupsOf};
ghost use Rattle.odd_decls.specs.Offences.{ReferencesOffend};

use crate::faults::fault_of;
use crate::file_items::{FileItems, Groups};
use odd_forms::{Element, fault_where, is_one_of};
use odd_items::{Item, target_id};
use odd_library::Fault;
use odd_text::{NoMemory, Text, lesser};
use odd_tree::{Tree, attribute};
use std::alloc::Global;
use std::collections::BTreeSet;

// Left out.
const LEFT_OUT: u8 = 2;

// A target that names no group.
const NO_GROUP: u8 = 3;

// Twice in one place.
const TWICE: u8 = 4;

/// The first fault of a reference to a group among the items, by its target. The only error is NoMemory, for want of memory.
pub fn references_fault(alloc: Global, of: &FileItems<'_>) -> Result<Option<Fault>, NoMemory>
    ensures { (t : ATree) (first end : ℕ) → IsFormed first end t → (are : AreFileItems t of.now) → IfOk result (IsFirstIn (ReferencesOffend t are.schemas)) }
{
    let standing = groups_standing(alloc, of.items.as_slice())?;
    let mut targets = BTreeSet::new(alloc);
    let mut first = None;
    for item in of.items.iter() {
        if let Some(target) = target_of(item.tree) {
            let again = !targets.insert(target.as_str())?;
            let rule = rule_broken(alloc, &of.groups, &standing, item.tree, again)?;
            first = lesser(first, fault_of(item.tree, rule));
        }
    }
    Ok(first)
}

// The places of the groups that stand among the items.
fn groups_standing(alloc: Global, items: &[Item<'_>]) -> Result<BTreeSet<u64>, NoMemory>
    ensures { IfOk result (λ places. (place : ℕ) → IsTrue (contains nat_cmp places place) ↔ IsStanding items.now place) }
{
    let mut standing = BTreeSet::new(alloc);
    for item in items {
        if is_group(item) {
            standing.insert(item.tree.at)?;
        }
    }
    Ok(standing)
}

// Whether an item is a group.
fn is_group(item: &Item<'_>) -> bool
    ensures { IsTrue result ↔ (item.now.element ≡ Some the_element.SpecGrp) }
{
    item.element == Some(Element::SpecGrp)
}

// The target of a reference to a group.
fn target_of(tree: &Tree) -> Option<&Text>
    ensures { option_copied result ≡ the_target_of tree.entry.now }
{
    if !is_one_of(tree, &["specGrpRef"]) {
        return None;
    }
    attribute(&tree.attrs, "target")
}

// The least rule that a reference with a target breaks by it, or because an earlier one has it.
fn rule_broken(
    alloc: Global,
    groups: &Groups<'_>,
    standing: &BTreeSet<u64>,
    reference: &Tree,
    again: bool,
) -> Result<Option<u8>, NoMemory>
    ensures { (t : ATree) → AreGroupsOf t groups.now → IfOk result (IsLeast (λ rule. TargetFault t standing.now reference.now rule ⊎ (IsTrue again × (rule ≡ 4)))) }
{
    let wrong = target_fault(alloc, groups, standing, reference)?;
    Ok(lesser(wrong, fault_where(again, TWICE)))
}

// The rule that a reference with a target breaks by it: it names no group, or one that stands among the items.
fn target_fault(
    alloc: Global,
    groups: &Groups<'_>,
    standing: &BTreeSet<u64>,
    reference: &Tree,
) -> Result<Option<u8>, NoMemory>
    ensures { (t : ATree) → AreGroupsOf t groups.now → IfOk result (IsLeast (TargetFault t standing.now reference.now)) }
{
    let Some(id) = target_id(alloc, reference)? else {
        return Ok(Some(LEFT_OUT));
    };
    match groups.place_of(&id) {
        Some(at) => Ok(fault_where(standing.contains(&at), TWICE)),
        None => Ok(Some(NO_GROUP)),
    }
}

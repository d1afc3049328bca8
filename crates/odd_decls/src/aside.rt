ghost use Rattle.std.specs.Prelude.{[], List, IfOk, OnOk};
ghost use Rattle.odd_items.specs.Constraints.{AddsPlaces};
ghost use Rattle.odd_items.specs.Groups.{IsItemIn};
ghost use Rattle.odd_items.specs.Listing.{AreItems};
ghost use Rattle.odd_items.specs.Search.{Found as AFound};
ghost use Rattle.odd_items.specs.declared.searching.Level.{Level as ALevel};
ghost use Rattle.odd_tree.specs.declared.tree.Tree.{Tree as ATree};
ghost use Rattle.odd_decls.specs.Aside.{IsConstraintOf, IsLeftOut};
ghost use Rattle.odd_decls.specs.Items.{IsTold};

use odd_items::{Item, add_constraints, is_constraint};
use odd_text::NoMemory;
use std::alloc::Global;
use std::collections::BTreeSet;

/// The places of the constraints that break rule 2: among the items, in a declaration, and in the definition of an attribute.
/// The only error is NoMemory, for want of memory.
pub fn constraints_in(alloc: Global, items: &[Item<'_>]) -> Result<BTreeSet<u64>, NoMemory>
    ensures { (t : ATree) (schemas : List AFound) (levels : List ALevel) → AreItems levels items.now (IsItemIn t schemas) → IfOk result (λ places. AddsPlaces (IsLeftOut t schemas) [] places.keys) }
{
    let mut places = BTreeSet::new(alloc);
    for item in items {
        add_item(item, &mut places)?;
    }
    Ok(places)
}

// Adds the places of those in an item, or its own.
fn add_item(item: &Item<'_>, places: &mut BTreeSet<u64>) -> Result<(), NoMemory>
    ensures { IsTold item.now → OnOk result (AddsPlaces (IsConstraintOf item.now.tree.now) places.old.keys places.new.keys) }
{
    if is_constraint(item.tree) {
        places.insert(item.tree.at)?;
    }
    match item.element {
        Some(element) => add_constraints(element, item.tree, places),
        None => Ok(()),
    }
}

ghost use Rattle.std.specs.Prelude.{IfOk, List, OnOk};
ghost use Rattle.odd_items.specs.Held.{AddsChildren};
ghost use Rattle.odd_items.specs.Listing.{AreItems, IsHeldBy};
ghost use Rattle.odd_items.specs.Search.{Found as AFound};
ghost use Rattle.odd_items.specs.Searching.{AreKept};
ghost use Rattle.odd_items.specs.declared.searching.Level.{Level as ALevel};

use crate::searching::Kept;
use odd_forms::{Element, child_of};
use odd_text::NoMemory;
use odd_tree::{Tree, elements};
use std::alloc::Global;

/// An item of a file, the element of the table that it is, and the level of declarations around it.
#[derive(Clone, Copy)]
pub struct Item<'a> {
    pub tree: &'a Tree,
    pub element: Option<Element>,
    pub level: Option<usize>,
}

/// The items: the children of what was found at the places that are marked. The only error is NoMemory, for want of memory.
pub fn items_held<'a>(
    alloc: Global,
    found: &[Kept<'a>],
    marks: &[bool],
) -> Result<Vec<Item<'a>>, NoMemory>
    ensures { (levels : List ALevel) (founds : List AFound) → AreKept levels found.now founds → IfOk result (λ items. AreItems levels items.items (IsHeldBy founds marks.now)) }
{
    let mut items = Vec::new(alloc);
    for (kept, mark) in found.iter().zip(marks.iter()) {
        if !*mark {
            continue;
        }
        add_children(kept, &mut items)?;
    }
    Ok(items)
}

// Adds the children of an element.
fn add_children<'a>(kept: &Kept<'a>, items: &mut Vec<Item<'a>>) -> Result<(), NoMemory>
    ensures { OnOk result (AddsChildren kept.now items.old.items items.new.items) }
{
    for tree in elements(kept.tree) {
        let element = child_of(Element::SchemaSpec.form(), tree);
        items.push(Item {
            tree,
            element,
            level: kept.inside,
        })?;
    }
    Ok(())
}

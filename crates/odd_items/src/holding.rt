ghost use Rattle.std.specs.Prelude.{◌≡◌, ◌↔◌, ◌⊎◌, ◌<◌, ◌∷◌, ℕ, List, IfOk, OnOk, Some, length};
ghost use Rattle.std.specs.List.{Contains};
ghost use Rattle.odd_tree.specs.Elements.{children_of};
ghost use Rattle.odd_text.specs.Text.{text_cmp};
ghost use Rattle.std.specs.BTreeMap.{get};
ghost use Rattle.odd_graph.specs.Graph.{HasArrow};
ghost use Rattle.odd_items.specs.Arrows.{HasGrown, IsGroupIn, IsInside, IsReferred, Refers, RefersAmong};
ghost use Rattle.odd_items.specs.Groups.{RefersTo};
ghost use Rattle.odd_items.specs.Holding.{IsAt, LeadsTo};
ghost use Rattle.odd_items.specs.declared.searching.Kept.{Kept as AKept};

use crate::ids::Ids;
use crate::searching::Kept;
use odd_forms::is_one_of;
use odd_graph::Nodes;
use odd_text::{NoMemory, Text};
use odd_tree::{Tree, attribute, elements};
use std::alloc::Global;

/// The arrows between what was found: from each to the groups that are children of it, and to the first group of each id that a
/// child of it refers to. The only error is NoMemory, for want of memory.
pub fn arrows_of(alloc: Global, found: &[Kept<'_>], ids: &Ids) -> Result<Vec<Nodes>, NoMemory>
    requires { (place holder : ℕ) (kept : AKept) → IsAt found.now place kept → kept.parent ≡ Some holder → holder < length found.now }
    ensures length { IfOk result (λ arrows. length arrows.items ≡ length found.now) }
    ensures arrows { IfOk result (λ arrows. (holder place : ℕ) → holder < length found.now → place < length found.now → HasArrow arrows.items holder place ↔ LeadsTo found.now (λ id first. get text_cmp ids.now.by_id id ≡ Some first) holder place) }
{
    let mut arrows = Vec::new(alloc);
    for _ in found {
        arrows.push(Nodes::new(alloc))?;
    }
    add_inside(found, &mut arrows)?;
    add_referred(alloc, found, ids, &mut arrows)?;
    Ok(arrows)
}

// Adds the arrows to the groups that are children of what was found.
fn add_inside(found: &[Kept<'_>], arrows: &mut Vec<Nodes>) -> Result<(), NoMemory>
    ensures { OnOk result (HasGrown arrows.old.items arrows.new.items (IsInside found.now)) }
{
    for (place, kept) in found.iter().enumerate() {
        if let Some(holder) = holder_of(kept) {
            add_arrow(arrows, holder, place)?;
        }
    }
    Ok(())
}

// The place of the one whose child it is, if it is a group.
fn holder_of(kept: &Kept<'_>) -> Option<usize>
    ensures { (holder : ℕ) → (result ≡ Some holder) ↔ IsGroupIn kept.now holder }
{
    if is_one_of(kept.tree, &["specGrp"]) {
        kept.parent
    } else {
        None
    }
}

// Adds an arrow, where it begins at one of the places.
fn add_arrow(arrows: &mut Vec<Nodes>, holder: usize, place: usize) -> Result<(), NoMemory>
    ensures { OnOk result (HasGrown arrows.old.items arrows.new.items (λ from to. (holder ≡ from) × (place ≡ to))) }
{
    if let Some(list) = arrows.get_mut(holder) {
        list.push(place)?;
    }
    Ok(())
}

// Adds the arrows to the groups that children of what was found refer to.
fn add_referred(
    alloc: Global,
    found: &[Kept<'_>],
    ids: &Ids,
    arrows: &mut Vec<Nodes>,
) -> Result<(), NoMemory>
    ensures { OnOk result (HasGrown arrows.old.items arrows.new.items (IsReferred found.now (λ id first. get text_cmp ids.now.by_id id ≡ Some first))) }
{
    for (place, kept) in found.iter().enumerate() {
        add_referred_by(alloc, kept.tree, ids, arrows, place)?;
    }
    Ok(())
}

// Adds the arrows from a place to the groups that children of an element refer to.
fn add_referred_by(
    alloc: Global,
    tree: &Tree,
    ids: &Ids,
    arrows: &mut Vec<Nodes>,
    holder: usize,
) -> Result<(), NoMemory>
    ensures { OnOk result (HasGrown arrows.old.items arrows.new.items (λ from to. (holder ≡ from) × RefersAmong (λ id first. get text_cmp ids.now.by_id id ≡ Some first) (children_of tree.now) to)) }
{
    if let Some(list) = arrows.get_mut(holder) {
        push_referred(alloc, tree, ids, list)?;
    }
    Ok(())
}

// Puts the places of the groups that children of an element refer to at the end.
fn push_referred(alloc: Global, tree: &Tree, ids: &Ids, list: &mut Nodes) -> Result<(), NoMemory>
    ensures { OnOk result ((place : ℕ) → Contains list.new place ↔ (Contains list.old place ⊎ RefersAmong (λ id first. get text_cmp ids.now.by_id id ≡ Some first) (children_of tree.now) place)) }
{
    for child in elements(tree) {
        push_place(alloc, child, ids, list)?;
    }
    Ok(())
}

// Puts the place of the group that an element refers to at the end.
fn push_place(alloc: Global, tree: &Tree, ids: &Ids, list: &mut Nodes) -> Result<(), NoMemory>
    ensures { OnOk result ((place : ℕ) → Contains list.new place ↔ (Contains list.old place ⊎ Refers (λ id first. get text_cmp ids.now.by_id id ≡ Some first) tree.now place)) }
{
    if let Some(place) = place_referred(alloc, tree, ids)? {
        list.push(place)?;
    }
    Ok(())
}

// The place of the group that an element refers to.
fn place_referred(alloc: Global, tree: &Tree, ids: &Ids) -> Result<Option<usize>, NoMemory>
    ensures { IfOk result (λ found. (place : ℕ) → (found ≡ Some place) ↔ Refers (λ id first. get text_cmp ids.now.by_id id ≡ Some first) tree.now place) }
{
    match target_id(alloc, tree)? {
        Some(id) => Ok(ids.find(&id)),
        None => Ok(None),
    }
}

/// The id that an element refers to. The only error is NoMemory, for want of memory.
pub fn target_id(alloc: Global, tree: &Tree) -> Result<Option<Text>, NoMemory>
    ensures { IfOk result (λ made. (id : List ℕ) → (made ≡ Some id) ↔ RefersTo tree.now id) }
{
    if !is_one_of(tree, &["specGrpRef"]) {
        return Ok(None);
    }
    match attribute(&tree.attrs, "target") {
        Some(target) => fragment(alloc, target),
        None => Ok(None),
    }
}

// What stands after the `#` that a text begins with.
fn fragment(alloc: Global, text: &Text) -> Result<Option<Text>, NoMemory>
    ensures { IfOk result (λ made. (id : List ℕ) → (made ≡ Some id) ↔ (text.now ≡ 0x23 ∷ id)) }
{
    match text.as_str().strip_prefix('#') {
        Some(rest) => Ok(Some(Text::from_str(alloc, rest)?)),
        None => Ok(None),
    }
}

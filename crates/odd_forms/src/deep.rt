ghost use Rattle.std.specs.Prelude.{◌≡◌, List, map, IfOk};
ghost use Rattle.odd_text.specs.declared.name.Bind.{Bind as ABind};
ghost use Rattle.odd_tree.specs.Elements.{all_binds, children_of, within};
ghost use Rattle.odd_forms.specs.Deep.{DeepFault, PlacedFault, has_several as the_has_several, is_level as the_is_level, left_inside as the_left_inside};
ghost use Rattle.odd_text.specs.Least.{Among, IsLeast};
ghost use Rattle.odd_forms.specs.Seen as seen;

use crate::element::Element;
use crate::faults::{LEFT_OUT, TWICE, child_of, fault_where, has_twice, own_fault, stray_fault};
use crate::form::{Form, Level};
use odd_text::{NoMemory, TryCopy, lesser};
use odd_tree::{Bindings, Node, Tree, elements, entered};
use std::alloc::Global;

/// How many levels may stand in one another.
pub const LEVELS: u8 = 60;

// Whether several of the children of an element may stand there.
fn has_several(form: &Form, tree: &Tree) -> bool
    ensures { result ≡ the_has_several (seen.form form.now) tree.now }
{
    elements(tree)
        .filter(|child| child_of(form, child).is_some())
        .nth(1)
        .is_some()
}

// Whether an element is a level.
fn is_level(form: &Form, tree: &Tree) -> bool
    ensures { result ≡ the_is_level (seen.form form.now) tree.now }
{
    match form.level {
        Level::Never => false,
        Level::Always => true,
        Level::OfSeveral => has_several(form, tree),
    }
}

// How many levels may still open inside an element.
fn left_inside(is_level: bool, left: u8) -> u8
    ensures { result ≡ the_left_inside is_level left }
{
    if is_level {
        left.saturating_sub(1)
    } else {
        left
    }
}

/// The least rule that an element of the table breaks, in itself or in the children that may stand there, at any depth, where
/// so many levels may still open. `around` are the declarations around it, level by level. The only error is NoMemory, for
/// want of memory.
#[cycle(deep)]
pub fn deep_fault(
    alloc: Global,
    element: Element,
    tree: &Tree,
    left: u8,
    around: &[&Bindings],
) -> Result<Option<u8>, NoMemory>
    ensures { IfOk result (IsLeast (DeepFault element left (all_binds (map (λ b. b.now) around.now)) tree.now)) }
{
    if tree.binds.is_empty() {
        return fault_inside(alloc, element, tree, left, around);
    }
    let own = Bindings::new(alloc, tree.binds.copy(alloc)?)?;
    let inside = entered(alloc, around, &own)?;
    fault_inside(alloc, element, tree, left, inside.as_slice())
}

// The same, where these are the declarations in force in the element.
#[cycle(deep)]
fn fault_inside(
    alloc: Global,
    element: Element,
    tree: &Tree,
    left: u8,
    inside: &[&Bindings],
) -> Result<Option<u8>, NoMemory>
    ensures { (around : List ABind) → all_binds (map (λ b. b.now) inside.now) ≡ within around tree.now → IfOk result (IsLeast (DeepFault element left around tree.now)) }
{
    let form = element.form();
    let own = own_fault(alloc, form, tree, inside)?;
    let twice = fault_where(has_twice(form.once, tree), TWICE);
    let level = is_level(form, tree);
    let too_deep = fault_where(level && left == 0, LEFT_OUT);
    let left = left_inside(level, left);
    let children = children_fault(alloc, element, tree, left, inside)?;
    Ok(lesser(lesser(own, twice), lesser(too_deep, children)))
}

// The least rule that the children of an element break.
#[cycle(deep)]
fn children_fault(
    alloc: Global,
    parent: Element,
    tree: &Tree,
    left: u8,
    inside: &[&Bindings],
) -> Result<Option<u8>, NoMemory>
    ensures { IfOk result (IsLeast (Among (PlacedFault parent left (all_binds (map (λ b. b.now) inside.now))) (children_of tree.now))) }
{
    let mut least = None;
    for node in tree.children.as_slice() {
        let Node::Element(child) = node else {
            continue;
        };
        least = lesser(least, placed_fault(alloc, parent, child, left, inside)?);
    }
    Ok(least)
}

// The least rule that a child breaks: one that may stand there at any depth, and another one by standing there.
#[cycle(deep)]
fn placed_fault(
    alloc: Global,
    parent: Element,
    child: &Tree,
    left: u8,
    inside: &[&Bindings],
) -> Result<Option<u8>, NoMemory>
    ensures { IfOk result (IsLeast (PlacedFault parent left (all_binds (map (λ b. b.now) inside.now)) child.now)) }
{
    let form = parent.form();
    match child_of(form, child) {
        Some(element) => deep_fault(alloc, element, child, left, inside),
        None => Ok(stray_fault(form, child)),
    }
}

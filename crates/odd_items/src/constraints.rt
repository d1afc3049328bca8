ghost use Rattle.std.specs.Prelude.{◌↔◌, IsTrue, OnOk};
ghost use Rattle.odd_items.specs.Constraints.{AddsPlaces, IsConstraint, IsConstraintIn, LeavesOutConstraints};

use odd_forms::{Element, child_of, is_one_of};
use odd_text::NoMemory;
use odd_tree::{Node, Tree};
use std::collections::BTreeSet;

/// Adds the places of the constraints that may not stand where they do, in an element that is read as this element of the table.
/// The only error is NoMemory, for want of memory.
pub fn add_constraints(
    element: Element,
    tree: &Tree,
    places: &mut BTreeSet<u64>,
) -> Result<(), NoMemory>
    ensures { OnOk result (AddsPlaces (IsConstraintIn element tree.now) places.old.keys places.new.keys) }
{
    for node in tree.children.as_slice() {
        let Node::Element(child) = node else {
            continue;
        };
        if leaves_out_constraints(element) && is_constraint(child) {
            places.insert(child.at)?;
        }
        if let Some(inner) = child_of(element.form(), child) {
            add_constraints(inner, child, places)?;
        }
    }
    Ok(())
}

// Whether a constraint may not stand in an element of the table.
fn leaves_out_constraints(element: Element) -> bool
    ensures { IsTrue result ↔ LeavesOutConstraints element }
{
    element.form().left_out_children.contains(&"constraintSpec")
}

/// Whether an element is a `constraintSpec`.
pub fn is_constraint(tree: &Tree) -> bool
    ensures { IsTrue result ↔ IsConstraint tree.now }
{
    is_one_of(tree, &["constraintSpec"])
}

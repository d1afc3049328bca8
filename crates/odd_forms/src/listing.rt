ghost use Rattle.std.specs.Prelude.{◌≡◌, ◌++◌, List, map, IfOk, OnOk};
ghost use Rattle.odd_tree.specs.declared.tree.Tree.{Tree as ATree};
ghost use Rattle.odd_forms.specs.Listing.{Lists};

use crate::names::is_one_of;
use odd_text::NoMemory;
use odd_tree::{Node, Tree};
use std::alloc::Global;

/// The `attDef` of an `attList` and of those in it, in document order. The only error is NoMemory, for want of memory.
pub fn definitions_in<'a>(alloc: Global, list: &'a Tree) -> Result<Vec<&'a Tree>, NoMemory>
    ensures { IfOk result (λ defs. Lists list.entry.now (map (λ t. t.now) defs.items)) }
{
    let mut defs = Vec::new(alloc);
    add_definitions(list, &mut defs)?;
    Ok(defs)
}

// Adds the `attDef` of an `attList` and of those in it.
fn add_definitions<'a>(list: &'a Tree, defs: &mut Vec<&'a Tree>) -> Result<(), NoMemory>
    ensures { OnOk result ((added : List ATree) × Lists list.entry.now added × (map (λ t. t.now) defs.new.items ≡ map (λ t. t.now) defs.old.items ++ added)) }
{
    for node in list.children.as_slice() {
        let Node::Element(child) = node else {
            continue;
        };
        if is_one_of(child, &["attDef"]) {
            defs.push(child)?;
        } else if is_one_of(child, &["attList"]) {
            add_definitions(child, defs)?;
        }
    }
    Ok(())
}

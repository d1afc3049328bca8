ghost use Rattle.std.specs.Prelude.{◌≡◌, ◌+◌, ℕ, IfOk, length};
ghost use Rattle.std.specs.List.{Contains};
ghost use Rattle.odd_tree.specs.declared.tree.Tree.{out-Tree};
ghost use Rattle.odd_items.specs.Without.{AreWithout, IsWithout};

use crate::left::Left;
use odd_text::{NoMemory, TryCopy};
use odd_tree::{Attr, Attrs, Node, Nodes, Tree};
use std::alloc::Global;
use std::collections::BTreeSet;

/// An element without those at the places. Texts that come to stand side by side are one. The places of those that are gone are
/// put at the end of `gone`. The only error is NoMemory, for want of memory.
#[cycle(without)]
pub fn without(
    alloc: Global,
    tree: &Tree,
    places: &BTreeSet<u64>,
    gone: &mut Vec<u64>,
) -> Result<Tree, NoMemory>
    ensures { IfOk result (λ left. (count : ℕ) × IsWithout (λ t. Contains places.now.keys (out-Tree t).at) tree.now left count × (length gone.new.items ≡ length gone.old.items + count)) }
{
    Ok(Tree {
        name: tree.name.copy(alloc)?,
        attrs: attrs_of(alloc, tree)?,
        binds: tree.binds.copy(alloc)?,
        children: children_without(alloc, &tree.children, places, gone)?,
        at: tree.at,
    })
}

// The attributes of an element.
fn attrs_of(alloc: Global, tree: &Tree) -> Result<Attrs, NoMemory>
    ensures { IfOk result (λ attrs. attrs ≡ tree.now.attrs) }
{
    let mut attrs = Attrs::new(alloc);
    for attr in tree.attrs.as_slice() {
        attrs.push(Attr {
            name: attr.name.copy(alloc)?,
            value: attr.value.copy(alloc)?,
        })?;
    }
    Ok(attrs)
}

// The nodes without the elements at the places.
#[cycle(without)]
fn children_without(
    alloc: Global,
    nodes: &Nodes,
    places: &BTreeSet<u64>,
    gone: &mut Vec<u64>,
) -> Result<Nodes, NoMemory>
    ensures { IfOk result (λ left. (count : ℕ) × AreWithout (λ t. Contains places.now.keys (out-Tree t).at) nodes.now left count × (length gone.new.items ≡ length gone.old.items + count)) }
{
    let mut left = Left::new(alloc);
    for node in nodes.as_slice() {
        match node {
            Node::Text(text) => left.put_text(alloc, text)?,
            Node::Element(child) => {
                if places.contains(&child.at) {
                    gone.push(child.at)?;
                } else {
                    left.put_element(without(alloc, child, places, gone)?)?;
                }
            }
        }
    }
    left.into_nodes()
}

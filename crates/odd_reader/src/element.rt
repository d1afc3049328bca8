ghost use Rattle.std.specs.Prelude.{◌≡◌, ◌∷◌, [], IfOk, OnOk, reverse};
ghost use Rattle.odd_reader.specs.Resolving.{tree_of as the_tree_of, with_children};

use crate::children::Children;
use odd_text::{Name, NoMemory};
use odd_tokens::WrittenName;
use odd_tree::{Attrs, Bindings, Node, Tree};
use std::alloc::Global;

/// An open element with its children so far: its name as it is written and in its namespace, and the byte of its tag.
#[derive(Drop)]
pub struct OpenElement {
    pub written: WrittenName,
    pub name: Name,
    pub attrs: Attrs,
    pub binds: Bindings,
    pub children: Children,
    pub at: u64,
}

/// The tree of an element that is closed. What held its children is kept for others. The only error is NoMemory, for want of memory.
pub fn tree_of(
    alloc: Global,
    element: OpenElement,
    spare: &mut Vec<Children>,
) -> Result<Tree, NoMemory>
    ensures { IfOk result (λ tree. tree ≡ the_tree_of element) }
{
    let OpenElement {
        written: _,
        name,
        attrs,
        binds,
        mut children,
        at,
    } = element;
    let nodes = children.taken(alloc)?;
    spare.push(children)?;
    Ok(Tree {
        name,
        attrs,
        binds: binds.into_scope(),
        children: nodes,
        at,
    })
}

/// Puts a node among the children of the innermost of the open elements, the last. The only error is NoMemory, for want of memory.
pub fn add_child(elements: &mut Vec<OpenElement>, node: Node) -> Result<(), NoMemory>
    ensures { OnOk result (reverse elements.new.items ≡ with_children (node ∷ []) (reverse elements.old.items)) }
{
    match elements.last_mut() {
        Some(parent) => parent.children.push(node),
        None => Ok(()),
    }
}

ghost use Rattle.std.specs.Prelude.{◌≡◌, [], ◌∷◌, ◌++◌, IfOk, OnOk};

use odd_text::NoMemory;
use odd_tree::{Node, Nodes};
use std::alloc::Global;
use std::marker::Model;
use std::mem;

// So many children are moved into a list of their size; of more the list itself is taken, so that no long list is held twice.
const FEW: usize = 64;

/// The children of an open element so far, in memory that serves one element after another.
#[derive(Drop)]
pub struct Children {
    nodes: Vec<Node>,
}

impl Model for Children {
    ghost use Rattle.std.specs.Prelude.{List};
    ghost use Rattle.std.specs.Coded.{coded_list, codes};
    ghost use Rattle.odd_tree.specs.declared.tree.Node.{Node as ANode};
    ghost use Rattle.odd_tree.specs.contracts.tree.Node as node_row;

    ghost Value = { List ANode };

    ghost coded = { coded_list (Prim.hlevel (codes, node_row.the_row.coded)) };

    ghost view = { λ it. it.nodes.items };
}

impl Children {
    /// None.
    pub fn new(alloc: Global) -> Children
        ensures { result ≡ [] }
    {
        Children {
            nodes: Vec::new(alloc),
        }
    }

    /// Puts a child at the end. The only error is NoMemory, for want of memory.
    pub fn push(&mut self, node: Node) -> Result<(), NoMemory>
        ensures { OnOk result (self.new ≡ self.old ++ node ∷ []) }
    {
        self.nodes.push(node)?;
        Ok(())
    }

    /// Forgets them.
    pub fn clear(&mut self)
        ensures { self.new ≡ [] }
    {
        self.nodes.clear();
    }

    /// The children as a list of just their size; none are left here. The only error is NoMemory, for want of memory.
    pub fn taken(&mut self, alloc: Global) -> Result<Nodes, NoMemory>
        ensures { IfOk result (λ nodes. nodes ≡ self.old) }
    {
        if self.nodes.is_empty() {
            return Ok(Nodes::new(alloc));
        }
        if self.nodes.len() <= FEW {
            return Nodes::moved(alloc, &mut self.nodes);
        }
        Nodes::of(alloc, mem::replace(&mut self.nodes, Vec::new(alloc)))
    }
}

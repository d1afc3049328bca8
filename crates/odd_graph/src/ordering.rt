ghost use Rattle.std.specs.Prelude.{◌≡◌, ◌↔◌, ◌<◌, ℕ, [], get_or, length, IfOk, OnOk};
ghost use Rattle.std.specs.List.{Contains};
ghost use Rattle.odd_graph.specs.Graph.{HasArrow};
ghost use Rattle.odd_graph.specs.Marking.{IsMarked};
ghost use Rattle.odd_graph.specs.Ordering.{IsApart, IsOrder};
ghost use Rattle.odd_graph.specs.Passing.{IsFree};
ghost use Rattle.odd_graph.specs.Placing.{AreHeld, GoesOn, IsNone, Places};

use crate::Nodes;
use crate::marks::is_marked;
use crate::passing::Passing;
use crate::turning::turned;
use odd_text::NoMemory;
use std::alloc::Global;

/// The nodes of a graph that lead to no cycle, each once, in an order in which each stands after those that its arrows lead to.
/// The only error is NoMemory, for want of memory.
pub fn ordered(alloc: Global, arrows: &[Nodes]) -> Result<Vec<usize>, NoMemory>
    ensures order { IfOk result (λ order. IsOrder arrows.now order.items) }
    ensures each { IfOk result (λ order. (node : ℕ) → Contains order.items node ↔ ((node < length arrows.now) × IsApart arrows.now node)) }
{
    let back = turned(alloc, arrows)?;
    let mut placing = Placing::new(alloc, arrows)?;
    placing.try_all()?;
    placing.settle(back.as_slice())?;
    Ok(placing.order)
}

// Nodes of a graph in an order, and those that are left: that do not stand in it yet.
#[derive(Drop)]
struct Placing<'a> {
    passing: Passing<'a>,
    left: Vec<bool>,
    order: Vec<usize>,
}

impl<'a> Placing<'a> {
    // An order in which no node stands yet.
    fn new(alloc: Global, arrows: &'a [Nodes]) -> Result<Placing<'a>, NoMemory>
        ensures places { IfOk result Places }
        ensures arrows { IfOk result (λ placing. placing.passing.arrows.now ≡ arrows.now) }
    {
        Ok(Placing {
            passing: Passing::new(alloc, arrows)?,
            left: vec![in alloc; true; arrows.len()]?,
            order: Vec::new(alloc),
        })
    }

    // Tries each node.
    fn try_all(&mut self) -> Result<(), NoMemory>
        requires { Places self.old }
        ensures { OnOk result (GoesOn self.old self.new (λ node. node < length self.old.left.items)) }
    {
        for node in 0..self.left.len() {
            self.try_node(node)?;
        }
        Ok(())
    }

    // Tries those that have an arrow to a node that stands in the order, for one such node after the other.
    fn settle(&mut self, back: &[Nodes]) -> Result<(), NoMemory>
        requires places { Places self.old }
        requires turned { (node next : ℕ) → HasArrow back.now next node ↔ HasArrow self.old.passing.arrows.now node next }
        requires held { AreHeld self.old.passing.arrows.now self.old.left.items (IsNone []) }
        ensures places { OnOk result (Places self.new) }
        ensures arrows { OnOk result (self.new.passing.arrows ≡ self.old.passing.arrows) }
        ensures held { OnOk result (AreHeld self.new.passing.arrows.now self.new.left.items (IsNone self.new.order.items)) }
    {
        let mut place = 0;
        while let Some(&node) = self.order.get(place) {
            self.try_next(back, node)?;
            place += 1;
        }
        Ok(())
    }

    // Tries the nodes to which the arrows of a node lead.
    fn try_next(&mut self, arrows: &[Nodes], node: usize) -> Result<(), NoMemory>
        requires { Places self.old }
        ensures { OnOk result (GoesOn self.old self.new (Contains (get_or arrows.now node []))) }
    {
        if let Some(nodes) = arrows.get(node) {
            self.try_each(nodes)?;
        }
        Ok(())
    }

    // Tries one node after the other.
    fn try_each(&mut self, nodes: &Nodes) -> Result<(), NoMemory>
        requires { Places self.old }
        ensures { OnOk result (GoesOn self.old self.new (Contains nodes.now)) }
    {
        for node in nodes.as_slice() {
            self.try_node(*node)?;
        }
        Ok(())
    }

    // Places a node, where it is left and no arrow of it leads to one that is.
    fn try_node(&mut self, node: usize) -> Result<(), NoMemory>
        requires { Places self.old }
        ensures { OnOk result (GoesOn self.old self.new (λ tried. node ≡ tried)) }
    {
        let left = self.left.as_slice();
        if is_marked(left, node) && self.passing.is_free(left, node) {
            self.place(node)?;
        }
        Ok(())
    }

    // Places a node that is left, and of which no arrow leads to one that is.
    fn place(&mut self, node: usize) -> Result<(), NoMemory>
        requires places { Places self.old }
        requires left { IsMarked self.old.left.items node }
        requires free { IsFree self.old.passing.arrows.now self.old.left.items node }
        ensures { OnOk result (GoesOn self.old self.new (λ tried. node ≡ tried)) }
    {
        self.order.push(node)?;
        self.left[node] = false;
        Ok(())
    }
}

ghost use Rattle.std.specs.Prelude.{◌≡◌, Bool, false, List, length, IfOk, IsTrue};
ghost use Rattle.odd_graph.specs.Marking.{IsMarked};
ghost use Rattle.odd_graph.specs.Passing.{AreOfAll, ArePassed, IsFree, IsHeld};

use crate::Nodes;
use crate::marks::is_marked;
use odd_text::NoMemory;
use std::alloc::Global;

/// The arrows of a graph, and for each node how many of them were passed: they are known to lead to none that is left.
#[derive(Drop)]
pub struct Passing<'a> {
    pub arrows: &'a [Nodes],
    pub passed: Vec<usize>,
}

impl<'a> Passing<'a> {
    /// The arrows of a graph, of which none is passed.
    pub fn new(alloc: Global, arrows: &'a [Nodes]) -> Result<Passing<'a>, NoMemory>
        ensures arrows { IfOk result (λ passing. passing.arrows.now ≡ arrows.now) }
        ensures passed { IfOk result (λ passing. (left : List Bool) → ArePassed passing.arrows.now passing.passed.items left) }
        ensures length { IfOk result (λ passing. length passing.passed.items ≡ length arrows.now) }
    {
        let passed = vec![in alloc; 0; arrows.len()]?;
        Ok(Passing { arrows, passed })
    }

    /// Whether no arrow of a node leads to one that is left. It goes on from where it was asked last.
    pub fn is_free(&mut self, left: &[bool], node: usize) -> bool
        requires { ArePassed self.old.arrows.now self.old.passed.items left.now }
        ensures free { IsTrue result → IsFree self.old.arrows.now left.now node }
        ensures held { result ≡ false → AreOfAll self.old.arrows.now self.old.passed.items left.now → IsMarked left.now node → IsHeld self.old.arrows.now left.now node }
        ensures passed { ArePassed self.new.arrows.now self.new.passed.items left.now }
        ensures length { length self.new.passed.items ≡ length self.old.passed.items }
        ensures same { self.new.arrows ≡ self.old.arrows }
    {
        let (Some(nexts), Some(passed)) = (self.arrows.get(node), self.passed.get_mut(node)) else {
            return false;
        };
        let nexts = nexts.as_slice();
        while let Some(next) = nexts.get(*passed) {
            if is_marked(left, *next) {
                return false;
            }
            *passed += 1;
        }
        true
    }
}

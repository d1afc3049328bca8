ghost use Rattle.std.specs.Prelude.{◌≡◌, ◌↔◌, ◌⊎◌, ◌<◌, ◌≤◌, ℕ, true, false, [], length, set, IfNone, IfOk, IfSome, IsTrue, OnOk, OnSome};
ghost use Rattle.odd_graph.specs.Marking.{IsMarked};
ghost use Rattle.odd_graph.specs.Walking.{AreLedTo, Awaits, KeepsAll, StandsAt, no_node};

use crate::Nodes;
use crate::marks::unmarked;
use odd_text::NoMemory;
use std::alloc::Global;

// Nodes that stand one after another among those that are open, and all lead to one another: where they begin, and how
// many targets of arrows waited before theirs.
#[derive(Clone, Copy)]
struct Part {
    start: usize,
    work: usize,
}

/// A walk over a graph. The nodes that were seen and are not done yet stand open, each leads to all that stand after it;
/// they fall into parts.
#[derive(Drop)]
pub struct Walk<'a> {
    arrows: &'a [Nodes],
    seen: Vec<bool>,
    // where each node stood among the open ones, or stands
    places: Vec<usize>,
    // the open nodes
    stack: Vec<usize>,
    parts: Vec<Part>,
    // where arrows of open nodes lead that are still to be followed
    work: Vec<usize>,
    /// The nodes that are known to lead to themselves: of those that are done all that do.
    pub marks: Vec<bool>,
}

impl<'a> Walk<'a> {
    /// A walk that has seen no node.
    pub fn new(alloc: Global, arrows: &'a [Nodes]) -> Result<Walk<'a>, NoMemory>
        ensures keeps { IfOk result (λ walk. KeepsAll walk no_node) }
        ensures arrows { IfOk result (λ walk. walk.arrows.now ≡ arrows.now) }
        ensures stack { IfOk result (λ walk. walk.stack.items ≡ []) }
    {
        Ok(Walk {
            arrows,
            seen: unmarked(alloc, arrows)?,
            places: vec![in alloc; 0; arrows.len()]?,
            stack: Vec::new(alloc),
            parts: Vec::new(alloc),
            work: Vec::new(alloc),
            marks: unmarked(alloc, arrows)?,
        })
    }

    /// Whether a node of the graph was not seen yet.
    pub fn is_new(&self, node: usize) -> bool
        ensures new { IsTrue result → (node < length self.now.seen.items) × (IsMarked self.now.seen.items node → ⊥) }
        ensures seen { result ≡ false → IsMarked self.now.seen.items node ⊎ (length self.now.seen.items ≤ node) }
    {
        self.seen.get(node) == Some(&false)
    }

    /// Sees a new node and all that it leads to, where none is open; afterwards none is.
    pub fn walk_from(&mut self, node: usize) -> Result<(), NoMemory>
        requires keeps { KeepsAll self.old no_node }
        requires stack { self.old.stack.items ≡ [] }
        requires within { node < length self.old.arrows.now }
        requires new { IsMarked self.old.seen.items node → ⊥ }
        ensures keeps { OnOk result (KeepsAll self.new no_node) }
        ensures stack { OnOk result (self.new.stack.items ≡ []) }
        ensures arrows { OnOk result (self.new.arrows ≡ self.old.arrows) }
        ensures seen { OnOk result ((other : ℕ) → IsMarked self.old.seen.items other ⊎ (node ≡ other) → IsMarked self.new.seen.items other) }
    {
        self.enter(node)?;
        while let Some(next) = self.next() {
            self.enter(next)?;
        }
        Ok(())
    }

    // Opens a new node, as a part of its own.
    fn enter(&mut self, node: usize) -> Result<(), NoMemory>
        requires { Awaits self.old node }
        ensures keeps { OnOk result (KeepsAll self.new no_node) }
        ensures arrows { OnOk result (self.new.arrows ≡ self.old.arrows) }
        ensures seen { OnOk result (self.new.seen.items ≡ set self.old.seen.items node true) }
    {
        let nexts = self.arrows[node].as_slice();
        let start = self.stack.len();
        let work = self.work.len();
        self.seen[node] = true;
        self.places[node] = start;
        self.stack.push(node)?;
        self.parts.push(Part { start, work })?;
        self.work.extend_from_slice(nexts)?;
        Ok(())
    }

    // Goes on to the next new node that an open one leads to, and where there is none, until no node is open.
    fn next(&mut self) -> Option<usize>
        requires { KeepsAll self.old no_node }
        ensures next { IfSome result (Awaits self.new) }
        ensures none { IfNone result (KeepsAll self.new no_node × (self.new.stack.items ≡ [])) }
        ensures arrows { self.new.arrows ≡ self.old.arrows }
        ensures seen { self.new.seen.items ≡ self.old.seen.items }
    {
        while let Some(node) = self.take() {
            if self.is_new(node) {
                return Some(node);
            }
            self.turn_back(node);
        }
        None
    }

    // Takes the target of an arrow that is still to be followed, and closes each part that has none.
    fn take(&mut self) -> Option<usize>
        requires { KeepsAll self.old no_node }
        ensures keeps { IfSome result (λ node. KeepsAll self.new (λ other. node ≡ other)) }
        ensures led { IfSome result (λ node. node < length self.new.arrows.now → AreLedTo self.new.arrows.now self.new.stack.items node) }
        ensures fewer { OnSome result (length self.new.work.items < length self.old.work.items) }
        ensures none { IfNone result (KeepsAll self.new no_node × (self.new.stack.items ≡ [])) }
        ensures arrows { self.new.arrows ≡ self.old.arrows }
        ensures seen { self.new.seen.items ≡ self.old.seen.items }
    {
        while let Some(&part) = self.parts.last() {
            if part.work < self.work.len() {
                return self.work.pop();
            }
            self.parts.pop();
            self.stack.truncate(part.start);
        }
        None
    }

    // Follows an arrow to a node that was seen, or to none of the graph.
    fn turn_back(&mut self, node: usize)
        requires keeps { KeepsAll self.old (λ other. node ≡ other) }
        requires led { node < length self.old.arrows.now → AreLedTo self.old.arrows.now self.old.stack.items node }
        requires seen { IsMarked self.old.seen.items node ⊎ (length self.old.seen.items ≤ node) }
        ensures keeps { KeepsAll self.new no_node }
        ensures arrows { self.new.arrows ≡ self.old.arrows }
        ensures seen { self.new.seen.items ≡ self.old.seen.items }
        ensures work { self.new.work.items ≡ self.old.work.items }
    {
        if let Some(&place) = self.places.get(node) {
            if self.stands_at(place, node) {
                self.join(node, place);
            }
        }
    }

    // Whether a node stands at a place among those that are open.
    fn stands_at(&self, place: usize, node: usize) -> bool
        ensures { IsTrue result ↔ StandsAt self.now.stack.items place node }
    {
        self.stack.get(place) == Some(&node)
    }

    // Follows an arrow to an open node: all that stand after it lead to it.
    fn join(&mut self, node: usize, place: usize)
        requires keeps { KeepsAll self.old (λ other. node ≡ other) }
        requires led { AreLedTo self.old.arrows.now self.old.stack.items node }
        requires at { StandsAt self.old.stack.items place node }
        ensures keeps { KeepsAll self.new no_node }
        ensures arrows { self.new.arrows ≡ self.old.arrows }
        ensures seen { self.new.seen.items ≡ self.old.seen.items }
        ensures work { self.new.work.items ≡ self.old.work.items }
    {
        self.marks[node] = true;
        while let Some(&part) = self.parts.last() {
            if part.start <= place {
                return;
            }
            self.parts.pop();
            let first = self.stack[part.start];
            let before = self.stack[part.start - 1];
            self.marks[first] = true;
            self.marks[before] = true;
        }
    }
}

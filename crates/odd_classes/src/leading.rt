ghost use Rattle.std.specs.Prelude.{◌≡◌, ◌↔◌, ◌<◌, ℕ, IfOk, length};
ghost use Rattle.std.specs.List.{Contains};
ghost use Rattle.odd_graph.specs.Marking.{IsMarked};
ghost use Rattle.odd_classes.specs.Leading.{AreKept, IsModelHere, LeadAlike, LeadsToModel};

use crate::member_lists::model_at;
use odd_graph::{Nodes, is_marked, reached, turned, unmarked};
use odd_library::Component;
use odd_text::{Key, NoMemory};
use std::alloc::Global;

/// The graph of entries without the arrows to those that are no class of type `model` and lead to none, in time linear in
/// nodes and arrows.
pub fn leading_to_models(
    alloc: Global,
    entries: &[(Key, Component)],
    arrows: &[Nodes],
) -> Result<Vec<Nodes>, NoMemory>
    requires { length arrows.now ≡ length entries.now }
    ensures { IfOk result (λ made. LeadAlike entries.now arrows.now made.items) }
{
    let marks = which_lead(alloc, entries, arrows)?;
    thinned(alloc, arrows, marks.as_slice())
}

// For each entry whether it is a class of type `model` or leads to one. One search answers it, in the graph with its arrows turned
// round and with a node more, whose arrows lead to all these classes.
fn which_lead(
    alloc: Global,
    entries: &[(Key, Component)],
    arrows: &[Nodes],
) -> Result<Vec<bool>, NoMemory>
    requires { length arrows.now ≡ length entries.now }
    ensures { IfOk result (λ marks. (node : ℕ) → IsMarked marks.items node ↔ LeadsToModel entries.now arrows.now node) }
{
    let mut back = turned(alloc, arrows)?;
    back.push(places_of_models(alloc, entries)?)?;
    let mut marks = unmarked(alloc, back.as_slice())?;
    let nodes = reached(alloc, back.as_slice(), arrows.len(), &mut marks)?;
    marks_at(alloc, arrows.len(), nodes.as_slice())
}

// The places of the classes of type `model`.
fn places_of_models(alloc: Global, entries: &[(Key, Component)]) -> Result<Nodes, NoMemory>
    ensures { IfOk result (λ places. (place : ℕ) → Contains places place ↔ IsModelHere entries.now place) }
{
    let mut places = Nodes::new(alloc);
    for place in 0..entries.len() {
        if let Some(_) = model_at(entries, place) {
            places.push(place)?;
        }
    }
    Ok(places)
}

// So many marks, of which those of these nodes are set.
fn marks_at(alloc: Global, count: usize, nodes: &[usize]) -> Result<Vec<bool>, NoMemory>
    ensures { IfOk result (λ marks. (node : ℕ) → IsMarked marks.items node ↔ (Contains nodes.now node × (node < count))) }
{
    let mut marks = vec![in alloc; false; count]?;
    for node in nodes {
        if *node < count {
            marks[*node] = true;
        }
    }
    Ok(marks)
}

// The graph without the arrows to nodes that have no mark.
fn thinned(alloc: Global, arrows: &[Nodes], marks: &[bool]) -> Result<Vec<Nodes>, NoMemory>
    ensures { IfOk result (λ made. AreKept arrows.now marks.now made.items) }
{
    let mut made = Vec::new(alloc);
    for nexts in arrows {
        made.push(with_mark(alloc, nexts, marks)?)?;
    }
    Ok(made)
}

// Those of the nodes that have a mark.
fn with_mark(alloc: Global, nodes: &Nodes, marks: &[bool]) -> Result<Nodes, NoMemory>
    ensures { IfOk result (λ kept. (node : ℕ) → Contains kept node ↔ (Contains nodes.now node × IsMarked marks.now node)) }
{
    let mut kept = Nodes::new(alloc);
    for node in nodes.as_slice() {
        if is_marked(marks, *node) {
            kept.push(*node)?;
        }
    }
    Ok(kept)
}

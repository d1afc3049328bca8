ghost use Rattle.std.specs.Prelude.{◌↔◌, ℕ, [], get_or, IfOk, OnOk};
ghost use Rattle.std.specs.List.{Contains};
ghost use Rattle.odd_graph.specs.Graph.{Leads, StandOnce};
ghost use Rattle.odd_graph.specs.Marking.{AreClear, HasCleared, HasMarked};

use crate::Nodes;
use odd_text::NoMemory;
use std::alloc::Global;

/// The nodes that a node leads to, by one arrow or more, each once. The marks are those of `unmarked`, and where the nodes
/// are answered none is set afterwards, so that they serve many searches. The only error is NoMemory, for want of memory.
pub fn reached(
    alloc: Global,
    arrows: &[Nodes],
    from: usize,
    marks: &mut Vec<bool>,
) -> Result<Vec<usize>, NoMemory>
    requires { AreClear arrows.now marks.old.items }
    ensures nodes { IfOk result (λ nodes. (node : ℕ) → Contains nodes.items node ↔ Leads arrows.now from node) }
    ensures once { IfOk result (λ nodes. StandOnce nodes.items) }
    ensures clear { OnOk result (AreClear arrows.now marks.new.items) }
{
    let mut nodes = Vec::new(alloc);
    mark_next(arrows, from, marks, &mut nodes)?;
    let mut place = 0;
    while let Some(&node) = nodes.get(place) {
        mark_next(arrows, node, marks, &mut nodes)?;
        place += 1;
    }
    clear(marks, nodes.as_slice());
    Ok(nodes)
}

// Marks the nodes to which the arrows of a node lead, and puts those that had no mark at the end of the nodes that were reached.
fn mark_next(
    arrows: &[Nodes],
    node: usize,
    marks: &mut Vec<bool>,
    nodes: &mut Vec<usize>,
) -> Result<(), NoMemory>
    ensures { OnOk result (HasMarked (get_or arrows.now node []) marks.old.items marks.new.items nodes.old.items nodes.new.items) }
{
    if let Some(nexts) = arrows.get(node) {
        mark_all(nexts, marks, nodes)?;
    }
    Ok(())
}

// Marks nodes, and puts those that had no mark at the end of the nodes that were reached.
fn mark_all(nexts: &Nodes, marks: &mut Vec<bool>, nodes: &mut Vec<usize>) -> Result<(), NoMemory>
    ensures { OnOk result (HasMarked nexts.now marks.old.items marks.new.items nodes.old.items nodes.new.items) }
{
    for next in nexts.as_slice() {
        if let Some(mark) = marks.get_mut(*next) {
            if !*mark {
                *mark = true;
                nodes.push(*next)?;
            }
        }
    }
    Ok(())
}

// Takes the marks of nodes back.
fn clear(marks: &mut Vec<bool>, nodes: &[usize])
    ensures { HasCleared nodes.now marks.old.items marks.new.items }
{
    for node in nodes {
        if let Some(mark) = marks.get_mut(*node) {
            *mark = false;
        }
    }
}

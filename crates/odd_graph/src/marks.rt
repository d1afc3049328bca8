ghost use Rattle.std.specs.Prelude.{◌↔◌, IfOk, IsTrue};
ghost use Rattle.odd_graph.specs.Marking.{AreClear, IsMarked};

use crate::Nodes;
use odd_text::NoMemory;
use std::alloc::Global;

/// A mark for each node of a graph, none of them set. The only error is NoMemory, for want of memory.
pub fn unmarked(alloc: Global, arrows: &[Nodes]) -> Result<Vec<bool>, NoMemory>
    ensures { IfOk result (λ marks. AreClear arrows.now marks.items) }
{
    let marks = vec![in alloc; false; arrows.len()]?;
    Ok(marks)
}

/// Whether a node has a mark.
pub fn is_marked(marks: &[bool], node: usize) -> bool
    ensures { IsTrue result ↔ IsMarked marks.now node }
{
    marks.get(node) == Some(&true)
}

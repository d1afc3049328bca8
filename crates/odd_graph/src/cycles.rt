ghost use Rattle.std.specs.Prelude.{◌↔◌, ℕ, IfOk};
ghost use Rattle.odd_graph.specs.Graph.{IsFirstOnCycle, Leads};
ghost use Rattle.odd_graph.specs.Marking.{IsMarked};

use crate::Nodes;
use crate::walk::Walk;
use odd_text::NoMemory;
use std::alloc::Global;

/// The first node that leads to itself, where there is one, in time linear in nodes and arrows. The only error is NoMemory,
/// for want of memory.
pub fn first_on_cycle(alloc: Global, arrows: &[Nodes]) -> Result<Option<usize>, NoMemory>
    ensures { IfOk result (IsFirstOnCycle arrows.now) }
{
    let marks = on_cycles(alloc, arrows)?;
    Ok(marks.iter().position(|marked| *marked))
}

/// For each node of a graph whether it leads to itself, in time linear in nodes and arrows. The only error is NoMemory, for want of
/// memory.
pub fn on_cycles(alloc: Global, arrows: &[Nodes]) -> Result<Vec<bool>, NoMemory>
    ensures { IfOk result (λ marks. (node : ℕ) → IsMarked marks.items node ↔ Leads arrows.now node node) }
{
    let mut walk = Walk::new(alloc, arrows)?;
    for node in 0..arrows.len() {
        if walk.is_new(node) {
            walk.walk_from(node)?;
        }
    }
    Ok(walk.marks)
}

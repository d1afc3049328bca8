ghost use Rattle.std.specs.Prelude.{◌≡◌, ◌↔◌, ◌⊎◌, ◌<◌, ℕ, true, IfOk, Some, length, slice_get};
ghost use Rattle.odd_graph.specs.Graph.{Leads};

use odd_graph::{Nodes, reached, unmarked};
use odd_text::NoMemory;
use std::alloc::Global;

/// A mark for each node, set at the first and at those that it leads to. The only error is NoMemory, for want of memory.
pub fn marks_of(alloc: Global, arrows: &[Nodes], first: usize) -> Result<Vec<bool>, NoMemory>
    requires { first < length arrows.now }
    ensures { IfOk result (λ marks. (place : ℕ) → (slice_get marks.items place ≡ Some true) ↔ ((place < length arrows.now) × ((place ≡ first) ⊎ Leads arrows.now first place))) }
{
    let mut clear = unmarked(alloc, arrows)?;
    let nodes = reached(alloc, arrows, first, &mut clear)?;
    let mut marks = unmarked(alloc, arrows)?;
    marks[first] = true;
    for node in nodes.as_slice() {
        if let Some(mark) = marks.get_mut(*node) {
            *mark = true;
        }
    }
    Ok(marks)
}

ghost use Rattle.std.specs.Prelude.{◌≡◌, ◌↔◌, ℕ, length, IfOk, OnOk};
ghost use Rattle.odd_graph.specs.Adding.{HasAdded};
ghost use Rattle.odd_graph.specs.Graph.{HasArrow};

use crate::Nodes;
use odd_text::NoMemory;
use std::alloc::Global;

/// The graph with its arrows turned round. The only error is NoMemory, for want of memory.
pub fn turned(alloc: Global, arrows: &[Nodes]) -> Result<Vec<Nodes>, NoMemory>
    ensures arrows { IfOk result (λ made. (node next : ℕ) → HasArrow made.items next node ↔ HasArrow arrows.now node next) }
    ensures length { IfOk result (λ made. length made.items ≡ length arrows.now) }
{
    let mut made = Vec::new(alloc);
    for _ in arrows {
        made.push(Nodes::new(alloc))?;
    }
    for (node, nexts) in arrows.iter().enumerate() {
        add_to_each(&mut made, nexts, node)?;
    }
    Ok(made)
}

// Adds a node to the lists of others.
fn add_to_each(made: &mut Vec<Nodes>, others: &Nodes, node: usize) -> Result<(), NoMemory>
    ensures { OnOk result (HasAdded others.now node made.old.items made.new.items) }
{
    for other in others.as_slice() {
        if let Some(list) = made.get_mut(*other) {
            list.push(node)?;
        }
    }
    Ok(())
}

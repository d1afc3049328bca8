ghost use Rattle.std.specs.Prelude.{◌≡◌, IfOk, List, map};
ghost use Rattle.odd_text.specs.declared.name.Bind.{Bind as ABind};
ghost use Rattle.odd_tree.specs.Elements.{all_binds};
ghost use Rattle.odd_items.specs.Searching.{IsAround};

use crate::searching::Level;
use odd_text::{NoMemory, TryCopy};
use odd_tree::Bindings;
use std::alloc::Global;

/// The declarations of each level by itself. The only error is NoMemory, for want of memory.
pub fn level_bindings(alloc: Global, levels: &[Level<'_>]) -> Result<Vec<Bindings>, NoMemory>
    ensures { IfOk result (λ made. made.items ≡ map (λ l. l.binds.now) levels.now) }
{
    let mut made = Vec::new(alloc);
    for level in levels {
        made.push(Bindings::new(alloc, level.binds.copy(alloc)?)?)?;
    }
    Ok(made)
}

/// The declarations in force at a level, level by level, the outermost first, where these are those of each level by itself. The
/// only error is NoMemory, for want of memory.
pub fn bindings_around<'a>(
    alloc: Global,
    levels: &[Level<'_>],
    own: &'a [Bindings],
    level: Option<usize>,
) -> Result<Vec<&'a Bindings>, NoMemory>
    requires { own.now ≡ map (λ l. l.binds.now) levels.now }
    ensures { (around : List ABind) → IsAround levels.now level around → IfOk result (λ made. all_binds (map (λ b. b.now) made.items) ≡ around) }
{
    let mut path = Vec::new(alloc);
    let mut next = level;
    for _ in levels {
        let Some(at) = next else {
            break;
        };
        let (Some(level), Some(own)) = (levels.get(at), own.get(at)) else {
            break;
        };
        path.push(own)?;
        next = level.outer;
    }
    path.reverse();
    Ok(path)
}

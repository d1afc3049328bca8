ghost use Rattle.std.specs.Prelude.{◌≡◌, IfOk};
ghost use Rattle.odd_library.specs.Formed.{IsFormedPart, IsFormedSpec};
ghost use Rattle.odd_library.specs.Over.{laid_over as the_laid_over};

use odd_library::{Component, Spec, laid_over};
use odd_text::{NoMemory, TryCopy};
use std::alloc::Global;

/// A component with a declaration that changes it laid over it: its module stays, as does the type of a class; of memberships
/// and attributes that are changed the others stay; and what else the declaration gives is put in place of what was there
/// (docs/merging.md). The only error is NoMemory, for want of memory.
pub fn edit(alloc: Global, part: Component, spec: &Spec) -> Result<Component, NoMemory>
    ensures value { IfOk result (λ made. made ≡ the_laid_over part spec.now) }
    ensures formed { IsFormedPart spec.now.key.kind part → IsFormedSpec spec.now → IfOk result (IsFormedPart spec.now.key.kind) }
{
    laid_over(alloc, part, spec.copy(alloc)?)
}

ghost use Rattle.std.specs.Prelude.{IfOk};
ghost use Rattle.odd_text.specs.Standing.{StandsIn};
ghost use Rattle.odd_text.specs.Sorted.{IsSet};

use crate::{ExactOrd, NoMemory, Seq};
use std::alloc::Global;

/// The items in rising order, each once. The only error is NoMemory, for want of memory.
pub fn sorted<T: ExactOrd + Drop>(alloc: Global, items: Seq<T>) -> Result<Seq<T>, NoMemory>
    ensures { IfOk result (IsSet T.cmp (StandsIn items)) }
{
    let mut items = items.into_items();
    items.sort_unstable();
    items.dedup();
    let mut sorted = Seq::new(alloc);
    for item in items {
        sorted.push(item)?;
    }
    Ok(sorted)
}

ghost use Rattle.std.specs.Prelude.{◌≡◌, IfOk, IsTrue};
ghost use Rattle.std.specs.FinMap.{is_sorted};

use odd_text::{ExactOrd, Map, NoMemory};
use std::alloc::Global;
use std::collections::BTreeMap;

/// The entries of a tree as a map. They are put in rising order, each behind those before it. The only error is NoMemory, for
/// want of memory.
pub fn map_of<K: ExactOrd + Drop, V: Drop>(
    alloc: Global,
    entries: BTreeMap<K, V>,
) -> Result<Map<K, V>, NoMemory>
    requires { IsTrue (is_sorted K.cmp entries.entries) }
    ensures { IfOk result (λ made. made ≡ entries.entries) }
{
    let mut made = Map::new(alloc);
    for (key, value) in entries {
        made.put(key, value)?;
    }
    Ok(made)
}

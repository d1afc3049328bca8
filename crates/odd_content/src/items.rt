ghost use Rattle.std.specs.Prelude.{◌≡◌, IfOk};
ghost use Rattle.odd_content.specs.Items.{item_given};

use odd_forms::facets_given;
use odd_text::{NoMemory, TryCopy};
use odd_tree::{Tree, attribute};
use rng_types::Item;
use rng_values::item_of;
use std::alloc::Global;

/// What a `dataRef` says: the datatype of its key, or else the datatype of XML Schema that it names, with its facets. None
/// where it has no key, and no name of a datatype. The only error is NoMemory, for want of memory.
pub fn read_item(alloc: Global, tree: &Tree) -> Result<Option<Item>, NoMemory>
    ensures { IfOk result (λ item. item ≡ item_given tree.now) }
{
    if let Some(key) = attribute(&tree.attrs, "key") {
        return Ok(Some(Item::Key(key.copy(alloc)?)));
    }
    match attribute(&tree.attrs, "name") {
        Some(name) => item_of(alloc, name, &facets_given(alloc, tree)?),
        None => Ok(None),
    }
}

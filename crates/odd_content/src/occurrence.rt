ghost use Rattle.std.specs.Prelude.{◌≡◌};
ghost use Rattle.odd_tree.specs.declared.tree.Tree.{out-Tree};
ghost use Rattle.odd_content.specs.Occurrence.{bounds_in};

use odd_forms::number;
use odd_tree::{Tree, attribute};
use rng_types::Bounds;

/// How often a part or a word may stand by `minOccurs` and `maxOccurs`, where these are of digits; once where nothing is given.
pub fn read_bounds(tree: &Tree) -> Bounds
    ensures { result ≡ bounds_in (out-Tree tree.now).attrs }
{
    let min = number(tree, "minOccurs").unwrap_or(1);
    let max = match attribute(&tree.attrs, "maxOccurs") {
        Some(value) if value.as_str() == "unbounded" => None,
        _ => Some(number(tree, "maxOccurs").unwrap_or(1)),
    };
    Bounds { min, max }
}

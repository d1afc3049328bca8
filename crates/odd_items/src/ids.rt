ghost use Rattle.std.specs.Prelude.{◌≡◌, ◌↔◌, ℕ, IfOk, List, Some, map};
ghost use Rattle.std.specs.BTreeMap.{get};
ghost use Rattle.std.specs.Option.{option_copied};
ghost use Rattle.odd_text.specs.Text.{text_cmp};
ghost use Rattle.odd_text.specs.Least.{IsLeast};
ghost use Rattle.odd_items.specs.Ids.{IsAgain, IsFirstWith, id_of as the_id_of};

use odd_forms::is_one_of;
use odd_text::{NoMemory, Text, TryCopy};
use odd_tree::{Tree, XML};
use std::alloc::Global;
use std::collections::BTreeMap;

/// The first group of each id, by its place, and the first that has the id of an earlier one.
#[derive(Drop)]
pub struct Ids {
    by_id: BTreeMap<Text, usize>,
    again: Option<usize>,
}

impl Ids {
    /// The place of the first group with the id.
    pub fn find(&self, id: &Text) -> Option<usize>
        ensures { result ≡ get text_cmp self.now.by_id id.now }
    {
        self.by_id.get(id).copied()
    }

    /// The place of the first group with the id of an earlier one.
    pub fn again(&self) -> Option<usize>
        ensures { result ≡ self.now.again }
    {
        self.again
    }
}

/// The ids of groups: the first group of each id, and the first that has the id of an earlier one. The only error is NoMemory,
/// for want of memory.
pub fn ids_of(alloc: Global, groups: &[&Tree]) -> Result<Ids, NoMemory>
    ensures first { IfOk result (λ ids. (id : List ℕ) → (place : ℕ) → (get text_cmp ids.by_id id ≡ Some place) ↔ IsFirstWith (map (λ g. g.now) groups.now) id place) }
    ensures again { IfOk result (λ ids. IsLeast (IsAgain (map (λ g. g.now) groups.now)) ids.again) }
{
    let mut by_id = BTreeMap::new(alloc);
    let mut again = None;
    for (place, group) in groups.iter().enumerate() {
        if let Some(id) = id_of(group) {
            if by_id.get(id).is_none() {
                by_id.insert(id.copy(alloc)?, place)?;
            } else if again.is_none() {
                again = Some(place);
            }
        }
    }
    Ok(Ids { by_id, again })
}

/// The value of `xml:id` on a group; None on any other element.
pub fn id_of(tree: &Tree) -> Option<&Text>
    ensures { option_copied result ≡ the_id_of tree.now }
{
    if !is_one_of(tree, &["specGrp"]) {
        return None;
    }
    for attr in tree.attrs.as_slice() {
        if attr.name.ns.as_str() == XML && attr.name.local.as_str() == "id" {
            return Some(&attr.value);
        }
    }
    None
}

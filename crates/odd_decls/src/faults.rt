ghost use Rattle.std.specs.Prelude.{◌≡◌, ◌⊎◌, ℕ, IfOk, IsTrue, map, slice_get};
ghost use Rattle.std.specs.Option.{option_map};
ghost use Rattle.odd_tree.specs.Formed.{IsFormed};
ghost use Rattle.odd_tree.specs.declared.tree.Tree.{Tree as ATree, out-Tree};
ghost use Rattle.odd_text.specs.Least.{IsLeast};
ghost use Rattle.odd_items.specs.Listing.{IsItemOf};
ghost use Rattle.odd_items.specs.Search.{Found as AFound};
ghost use Rattle.odd_items.specs.Searching.{IsKept};
ghost use Rattle.odd_decls.specs.Faults.{IsFirstIn, OffendsAlone, fault_by};
ghost use Rattle.odd_decls.specs.FileItems.{AreFileItems, AreGroupsOf};
ghost use Rattle.odd_decls.specs.Offences.{HasIdAgain, ItemFault, ItemsOffend, Offends, SchemasOffend};

use crate::file_items::{FileItems, Groups};
use crate::items::item_fault;
use crate::references::references_fault;
use crate::repeats::first_repeat;
use odd_forms::{Element, fault_where, own_fault};
use odd_items::{Item, Kept, Level, bindings_around};
use odd_library::Fault;
use odd_text::{NoMemory, lesser};
use odd_tree::{Bindings, Tree};
use std::alloc::Global;

// Twice in one place.
const TWICE: u8 = 4;

/// The first fault of a file, by place and then by rule. `own` are the declarations of each of its levels by itself. The only
/// error is NoMemory, for want of memory.
pub fn first_fault(
    alloc: Global,
    of: &FileItems<'_>,
    own: &[Bindings],
) -> Result<Option<Fault>, NoMemory>
    requires { own.now ≡ map (λ l. l.binds.now) of.now.levels.items }
    ensures { (t : ATree) (first end : ℕ) → IsFormed first end t → (are : AreFileItems t of.now) → IfOk result (IsFirstIn (Offends t are.schemas)) }
{
    let schemas = schemas_fault(alloc, of, own)?;
    let groups = groups_fault(&of.groups);
    let items = items_fault(alloc, of, own)?;
    let references = references_fault(alloc, of)?;
    Ok(lesser(lesser(schemas, groups), lesser(items, references)))
}

// What stands at a place for a second time.
fn twice_at(at: u64) -> Fault
    ensures { result ≡ record { at = at; rule = 4 } }
{
    Fault { at, rule: TWICE }
}

/// The fault of a rule that an element breaks, if it does.
pub fn fault_of(tree: &Tree, rule: Option<u8>) -> Option<Fault>
    ensures { result ≡ fault_by (out-Tree tree.now).at rule }
{
    let rule = rule?;
    Some(Fault { at: tree.at, rule })
}

// The fault of the first group that has the id of an earlier one.
fn groups_fault(groups: &Groups<'_>) -> Option<Fault>
    ensures { (t : ATree) (first end : ℕ) → IsFormed first end t → AreGroupsOf t groups.now → IsFirstIn (λ place rule. HasIdAgain t place × (rule ≡ 4)) result }
{
    let at = groups.again()?;
    Some(twice_at(at))
}

// The first fault of the `schemaSpec`: of the first by itself, or that there is a second.
fn schemas_fault(
    alloc: Global,
    of: &FileItems<'_>,
    own: &[Bindings],
) -> Result<Option<Fault>, NoMemory>
    requires { own.now ≡ map (λ l. l.binds.now) of.now.levels.items }
    ensures { (t : ATree) (first end : ℕ) → IsFormed first end t → (are : AreFileItems t of.now) → IfOk result (IsFirstIn (SchemasOffend are.schemas)) }
{
    let [first, others @ ..] = of.schemas.as_slice() else {
        return Ok(None);
    };
    let itself = schema_fault(alloc, of.levels.as_slice(), own, first)?;
    Ok(lesser(itself, second_fault(others)))
}

// The fault of a `schemaSpec` by itself.
fn schema_fault(
    alloc: Global,
    levels: &[Level<'_>],
    own: &[Bindings],
    schema: &Kept<'_>,
) -> Result<Option<Fault>, NoMemory>
    requires { own.now ≡ map (λ l. l.binds.now) levels.now }
    ensures { (found : AFound) → IsKept levels.now schema.now found → IfOk result (IsFirstIn (OffendsAlone found)) }
{
    let inside = bindings_around(alloc, levels, own, schema.inside)?;
    let rule = own_fault(
        alloc,
        Element::SchemaSpec.form(),
        schema.tree,
        inside.as_slice(),
    )?;
    Ok(fault_of(schema.tree, rule))
}

// The fault of the first of those `schemaSpec` that come after one.
fn second_fault(others: &[Kept<'_>]) -> Option<Fault>
    ensures { result ≡ option_map (λ k. record { at = (out-Tree k.tree.now).at; rule = 4 }) (slice_get others.now 0) }
{
    let other = others.first()?;
    Some(twice_at(other.tree.at))
}

// The first fault of an item by itself, or by the key of an earlier one.
fn items_fault(
    alloc: Global,
    of: &FileItems<'_>,
    own: &[Bindings],
) -> Result<Option<Fault>, NoMemory>
    requires { own.now ≡ map (λ l. l.binds.now) of.now.levels.items }
    ensures { (t : ATree) (first end : ℕ) → IsFormed first end t → (are : AreFileItems t of.now) → IfOk result (IsFirstIn (ItemsOffend t are.schemas)) }
{
    let repeat = first_repeat(alloc, of.items.as_slice())?;
    let mut first = None;
    for (place, item) in of.items.iter().enumerate() {
        let again = repeat == Some(place);
        let rule = rule_broken(alloc, of.levels.as_slice(), own, item, again)?;
        first = lesser(first, fault_of(item.tree, rule));
    }
    Ok(first)
}

// The least rule that an item breaks by itself, or by the key of an earlier one, where it has such a key.
fn rule_broken(
    alloc: Global,
    levels: &[Level<'_>],
    own: &[Bindings],
    item: &Item<'_>,
    again: bool,
) -> Result<Option<u8>, NoMemory>
    requires { own.now ≡ map (λ l. l.binds.now) levels.now }
    ensures { (found : AFound) → IsItemOf levels.now item.now found → IfOk result (IsLeast (λ rule. ItemFault found.around found.element rule ⊎ (IsTrue again × (rule ≡ 4)))) }
{
    let around = bindings_around(alloc, levels, own, item.level)?;
    let itself = item_fault(alloc, item, around.as_slice())?;
    Ok(lesser(itself, fault_where(again, TWICE)))
}

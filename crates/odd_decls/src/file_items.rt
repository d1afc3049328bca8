ghost use Rattle.std.specs.Prelude.{◌≡◌, ◌<◌, ℕ, [], IfOk, List, Some, filter, length, map, slice_get};
ghost use Rattle.std.specs.List.{position};
ghost use Rattle.odd_text.specs.Least.{IsLeast};
ghost use Rattle.odd_forms.specs.Names.{is_one_of as the_is_one_of};
ghost use Rattle.odd_text.specs.Standing.{StandsIn};
ghost use Rattle.odd_tree.specs.Formed.{IsFormed};
ghost use Rattle.odd_tree.specs.declared.tree.Tree.{Tree as ATree};
ghost use Rattle.odd_items.specs.Groups.{IsItemIn, schema_names};
ghost use Rattle.odd_items.specs.Listing.{AreItems};
ghost use Rattle.odd_items.specs.Search.{Found as AFound};
ghost use Rattle.odd_items.specs.Searching.{AreKept};
ghost use Rattle.odd_items.specs.declared.searching.Level.{Level as ALevel};
ghost use Rattle.odd_decls.specs.FileItems.{AreByPlace, AreFileItems, AreGroupsOf, AreHolders, AreIdsOf, AreInOrder, AreListed, IsGroupPlace, IsHeldIn, ParentsWithin};
ghost use Rattle.odd_decls.specs.Offences.{HasIdAgain};

use odd_forms::{Element, child_of, is_one_of};
use odd_items::{
    Ids, Item, Kept, Level, Search, arrows_of, find_elements, ids_of, items_held, marks_of,
};
use odd_text::{NoMemory, Text};
use odd_tree::Tree;
use std::alloc::Global;
use std::collections::BTreeMap;

// What may hold items.
const HOLDERS: [&str; 2] = ["schemaSpec", "specGrp"];

// The declarations of components.
const DECLARATIONS: [&str; 4] = ["elementSpec", "classSpec", "macroSpec", "dataSpec"];

/// What may hold items in a file, and the groups among them by their ids.
#[derive(Drop)]
pub struct Groups<'a> {
    found: Vec<Kept<'a>>,
    ids: Ids,
}

impl<'a> Groups<'a> {
    /// The byte where the group of an id begins: of several the first.
    pub fn place_of(&self, id: &Text) -> Option<u64>
        ensures { (t : ATree) → AreGroupsOf t self.now → IsGroupPlace t id.now result }
    {
        let place = self.ids.find(id)?;
        let group = self.found.get(place)?;
        Some(group.tree.at)
    }

    /// The byte where the first group begins that has the id of an earlier one.
    pub fn again(&self) -> Option<u64>
        ensures { (t : ATree) (first end : ℕ) → IsFormed first end t → AreGroupsOf t self.now → IsLeast (HasIdAgain t) result }
    {
        let place = self.ids.again()?;
        let group = self.found.get(place)?;
        Some(group.tree.at)
    }
}

/// The items of a file in the order of their places, the levels of declarations around them, its `schemaSpec` in document
/// order, and its groups.
#[derive(Drop)]
pub struct FileItems<'a> {
    pub levels: Vec<Level<'a>>,
    pub items: Vec<Item<'a>>,
    pub schemas: Vec<Kept<'a>>,
    pub groups: Groups<'a>,
}

/// The items of a file. The only error is NoMemory, for want of memory.
pub fn file_items<'a>(alloc: Global, tree: &'a Tree) -> Result<FileItems<'a>, NoMemory>
    ensures { (first end : ℕ) → IsFormed first end tree.entry.now → IfOk result (AreFileItems tree.entry.now) }
{
    let Search { levels, found } = find_elements(alloc, tree, &HOLDERS, false)?;
    let schemas = schemas_of(alloc, found.as_slice())?;
    let groups = groups_of(alloc, found)?;
    let (levels, items) = items_of(alloc, tree, levels, &groups)?;
    Ok(FileItems {
        levels,
        items: in_order(alloc, items.as_slice())?,
        schemas,
        groups,
    })
}

// What was found, with the groups among it by their ids.
fn groups_of<'a>(alloc: Global, found: Vec<Kept<'a>>) -> Result<Groups<'a>, NoMemory>
    ensures found { IfOk result (λ groups. groups.found.items ≡ found.entry.items) }
    ensures ids { IfOk result (λ groups. AreIdsOf (map (λ k. k.tree.now) found.entry.items) groups.ids) }
{
    let trees = trees_of(alloc, found.as_slice())?;
    let ids = ids_of(alloc, trees.as_slice())?;
    Ok(Groups { found, ids })
}

// The elements that were found.
fn trees_of<'a>(alloc: Global, found: &[Kept<'a>]) -> Result<Vec<&'a Tree>, NoMemory>
    ensures { IfOk result (λ trees. map (λ t. t.now) trees.items ≡ map (λ k. k.tree.now) found.now) }
{
    let mut trees = Vec::new(alloc);
    for kept in found {
        trees.push(kept.tree)?;
    }
    Ok(trees)
}

// The `schemaSpec` among what was found.
fn schemas_of<'a>(alloc: Global, found: &[Kept<'a>]) -> Result<Vec<Kept<'a>>, NoMemory>
    ensures { IfOk result (λ schemas. schemas.items ≡ filter (λ k. the_is_one_of schema_names k.tree.now) found.now) }
{
    let mut schemas = Vec::new(alloc);
    for kept in found {
        if is_schema(kept) {
            schemas.push(*kept)?;
        }
    }
    Ok(schemas)
}

// Whether it is a `schemaSpec`.
fn is_schema(kept: &Kept<'_>) -> bool
    ensures { result ≡ the_is_one_of schema_names kept.now.tree.now }
{
    is_one_of(kept.tree, &["schemaSpec"])
}

// The place of the first `schemaSpec` among what was found.
fn first_schema(found: &[Kept<'_>]) -> Option<usize>
    ensures { result ≡ position (λ k. the_is_one_of schema_names k.tree.now) found.now }
{
    found.iter().position(is_schema)
}

// The items of a file, and the levels of declarations around them: those that the search for what may hold items went through,
// or, without a `schemaSpec`, others.
fn items_of<'a>(
    alloc: Global,
    tree: &'a Tree,
    levels: Vec<Level<'a>>,
    groups: &Groups<'a>,
) -> Result<(Vec<Level<'a>>, Vec<Item<'a>>), NoMemory>
    requires { ParentsWithin groups.now.found.items }
    ensures { (founds : List AFound) → AreHolders tree.entry.now levels.entry.items groups.now founds → IfOk result (λ made. AreListed tree.entry.now levels.entry.items founds made.0.items made.1.items) }
{
    match first_schema(groups.found.as_slice()) {
        Some(first) => Ok((levels, items_from(alloc, groups, first)?)),
        None => bare_items(alloc, tree),
    }
}

// The items that what is at a place leads to.
fn items_from<'a>(
    alloc: Global,
    groups: &Groups<'a>,
    first: usize,
) -> Result<Vec<Item<'a>>, NoMemory>
    requires within { first < length groups.now.found.items }
    requires parents { ParentsWithin groups.now.found.items }
    ensures { (t : ATree) (levels : List ALevel) (founds : List AFound) (schema : AFound) → AreHolders t levels groups.now founds → slice_get founds first ≡ Some schema → IfOk result (λ items. AreItems levels items.items (IsHeldIn t schema)) }
{
    let found = groups.found.as_slice();
    let arrows = arrows_of(alloc, found, &groups.ids)?;
    let marks = marks_of(alloc, arrows.as_slice(), first)?;
    items_held(alloc, found, marks.as_slice())
}

// The items of a file without a `schemaSpec`, with the levels of declarations around them: the declarations that stand in no
// other.
fn bare_items<'a>(
    alloc: Global,
    tree: &'a Tree,
) -> Result<(Vec<Level<'a>>, Vec<Item<'a>>), NoMemory>
    ensures { IfOk result (λ made. AreItems made.0.items made.1.items (IsItemIn tree.entry.now [])) }
{
    let Search { levels, found } = find_elements(alloc, tree, &DECLARATIONS, true)?;
    let items = items_at(alloc, found.as_slice())?;
    Ok((levels, items))
}

// What was found as items.
fn items_at<'a>(alloc: Global, found: &[Kept<'a>]) -> Result<Vec<Item<'a>>, NoMemory>
    ensures { (levels : List ALevel) (founds : List AFound) → AreKept levels found.now founds → IfOk result (λ items. AreItems levels items.items (StandsIn founds)) }
{
    let form = Element::SchemaSpec.form();
    let mut items = Vec::new(alloc);
    for kept in found {
        let tree = kept.tree;
        items.push(Item {
            tree,
            element: child_of(form, tree),
            level: kept.level,
        })?;
    }
    Ok(items)
}

// Items in the order of their places, one of each place.
fn in_order<'a>(alloc: Global, items: &[Item<'a>]) -> Result<Vec<Item<'a>>, NoMemory>
    ensures { IfOk result (λ made. AreInOrder items.now made.items) }
{
    let placed = by_place(alloc, items)?;
    values_of(alloc, placed)
}

// The items of all places, in the order of the places.
fn values_of<'a>(alloc: Global, placed: BTreeMap<u64, Item<'a>>) -> Result<Vec<Item<'a>>, NoMemory>
    ensures { IfOk result (λ made. made.items ≡ map (λ e. e.1) placed.entry.entries) }
{
    Ok(placed.into_values().collect(alloc)?)
}

// Items by their places.
fn by_place<'a>(alloc: Global, items: &[Item<'a>]) -> Result<BTreeMap<u64, Item<'a>>, NoMemory>
    ensures { IfOk result (AreByPlace items.now) }
{
    let mut placed = BTreeMap::new(alloc);
    for item in items {
        placed.insert(item.tree.at, *item)?;
    }
    Ok(placed)
}

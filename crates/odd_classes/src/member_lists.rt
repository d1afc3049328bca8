ghost use Rattle.std.specs.Prelude.{◌≡◌, ◌↔◌, ◌<◌, ◌≤◌, ◌+◌, ℕ, List, [], Err, Ok, IfOk, IsOk, IsTrue, None, OnOk, Some, length, replicate, sum_by};
ghost use Rattle.std.specs.FinMap.{find, is_sorted};
ghost use Rattle.std.specs.Option.{IfSome, option_copied};
ghost use Rattle.odd_text.specs.Key.{key_cmp};
ghost use Rattle.odd_text.specs.Text.{text_cmp};
ghost use Rattle.odd_text.specs.declared.key.Key.{Key as AKey};
ghost use Rattle.odd_graph.specs.Graph.{StandOnce};
ghost use Rattle.odd_meaning.specs.Classes.{AreMembers, Members, members_count};
ghost use Rattle.odd_meaning.specs.Links.{classes_of};
ghost use Rattle.odd_meaning.specs.Rules.{Breaks};
ghost use Rattle.odd_classes.specs.Listing.{AreListed, AreListsOf, HasListed, IsModelAt, IsTableOf};
ghost use Rattle.odd_classes.specs.Placing.{IsFirstAmong, IsGraphOf};

use crate::class_members::is_element;
use crate::cycles::{CycleRefusal, acyclic_classes};
use crate::leading::leading_to_models;
use odd_graph::{Nodes, reached, unmarked};
use odd_library::{Component, Library};
use odd_text::{Key, Kind, Map, NoMemory, Text, TryCopy, Words};
use std::alloc::Global;
use std::marker::Model;

/// For each class of type `model` of a library the idents of the elements that are its members, in rising order, each once.
#[derive(Debug, Drop)]
pub struct MemberTable {
    lists: Map<Text, Words>,
}

impl Model for MemberTable {
    ghost use Rattle.std.specs.Prelude.{List, ℕ};

    ghost Value = { List (List ℕ × List (List ℕ)) };

    ghost view = { λ t. t.lists };
}

impl MemberTable {
    /// The members of a class; None exactly where no class of type `model` with that ident is held. It takes no memory.
    pub fn of(&self, class: &Text) -> Option<&Words>
        ensures { option_copied result ≡ find text_cmp class.now self.now }
    {
        self.lists.find(class)
    }
}

/// Why the members of all classes are not given.
#[derive(Debug, Drop)]
pub enum TableRefusal {
    /// The class at the key is a member of itself.
    Loop { key: Key },
    /// The lists together hold more idents than they may.
    More,
    NoMemory,
}

impl From<NoMemory> for TableRefusal {
    ghost use Rattle.odd_classes.specs.declared.member_lists.TableRefusal.TheVariants as refusal;

    ghost from_gives = { λ _ error. error ≡ refusal.NoMemory };

    fn from(_error: NoMemory) -> TableRefusal {
        TableRefusal::NoMemory
    }
}

/// The members of each class of type `model` of a library, by their own memberships or through classes of classes (TEI
/// Guidelines, the chapter Documentation Elements). Loop is answered for the first class, by ident, that is a member of itself
/// (rule 13). Where there is none, More is answered where the lists together hold more than `limit` idents, and only there; no
/// more than the classes of one element are put past the limit. NoMemory is answered for want of memory.
pub fn member_table(
    alloc: Global,
    library: &Library,
    limit: usize,
) -> Result<MemberTable, TableRefusal>
    ensures unlooped { IsOk result → (key : AKey) → Breaks library.now key 13 → ⊥ }
    ensures looped { (key : AKey) → result ≡ Err (TableRefusal.Loop key) → IsFirstAmong (λ other. Breaks library.now other 13) key }
    ensures members { IfOk result (λ table. AreMembers library.now (λ class. find text_cmp class table)) }
    ensures within { IfOk result (λ table. members_count (λ class. find text_cmp class table) library.now ≤ limit) }
    ensures more_unlooped { result ≡ Err TableRefusal.More → (key : AKey) → Breaks library.now key 13 → ⊥ }
    ensures more { result ≡ Err TableRefusal.More → (members : Members) → AreMembers library.now members → limit < members_count members library.now }
{
    let arrows = match acyclic_classes(alloc, library) {
        Ok(arrows) => arrows,
        Err(CycleRefusal::Loop { key, rule: _ }) => return Err(TableRefusal::Loop { key }),
        Err(CycleRefusal::NoMemory) => return Err(TableRefusal::NoMemory),
    };
    match table_within(alloc, library, arrows.as_slice(), limit)? {
        Some(table) => Ok(table),
        None => Err(TableRefusal::More),
    }
}

/// The same of a library of which no class is a member of itself, with its graph by classes; None where the lists together hold more
/// than `limit` idents. The only error is NoMemory, for want of memory.
pub fn table_within(
    alloc: Global,
    library: &Library,
    arrows: &[Nodes],
    limit: usize,
) -> Result<Option<MemberTable>, NoMemory>
    requires { IsGraphOf classes_of library.now.parts arrows.now }
    ensures members { IfOk result (λ given. IfSome given (λ table. AreMembers library.now (λ class. find text_cmp class table))) }
    ensures within { IfOk result (λ given. IfSome given (λ table. members_count (λ class. find text_cmp class table) library.now ≤ limit)) }
    ensures more { result ≡ Ok None → (members : Members) → AreMembers library.now members → limit < members_count members library.now }
{
    let entries = library.parts.entries();
    let Some(lists) = listed(alloc, library, arrows, limit)? else {
        return Ok(None);
    };
    let lists = table_of(alloc, entries, lists)?;
    Ok(Some(MemberTable { lists }))
}

// For each entry of a library the members of the class that it is, where it is one of type `model`, and else none. None where
// they are more than the limit. No arrow is followed that leads to no such class: so a chain of other classes costs an element no step.
fn listed(
    alloc: Global,
    library: &Library,
    arrows: &[Nodes],
    limit: usize,
) -> Result<Option<Vec<Words>>, NoMemory>
    requires { IsGraphOf classes_of library.now.parts arrows.now }
    ensures lists { IfOk result (λ given. IfSome given (λ lists. AreListsOf library.now lists.items)) }
    ensures within { IfOk result (λ given. IfSome given (λ lists. sum_by length lists.items ≤ limit)) }
    ensures more { result ≡ Ok None → (lists : List (List (List ℕ))) × AreListed library.now lists × (limit < sum_by length lists) }
{
    let entries = library.parts.entries();
    let arrows = leading_to_models(alloc, entries, arrows)?;
    let mut marks = unmarked(alloc, arrows.as_slice())?;
    let mut lists = no_lists(alloc, entries.len())?;
    let mut left = limit;
    for (place, entry) in entries.iter().enumerate() {
        if is_element(entry) {
            let classes = reached(alloc, arrows.as_slice(), place, &mut marks)?;
            let ident = &entry.0.ident;
            let count = list_in_each(alloc, entries, classes.as_slice(), ident, &mut lists)?;
            let Some(rest) = left.checked_sub(count) else {
                return Ok(None);
            };
            left = rest;
        }
    }
    Ok(Some(lists))
}

// So many empty lists.
fn no_lists(alloc: Global, count: usize) -> Result<Vec<Words>, NoMemory>
    ensures { IfOk result (λ lists. lists.items ≡ replicate count []) }
{
    let mut lists = Vec::new(alloc);
    for _ in 0..count {
        lists.push(Words::new(alloc))?;
    }
    Ok(lists)
}

// Puts an ident at the end of the list of each of these entries that is a class of type `model`, and tells how many they are.
fn list_in_each(
    alloc: Global,
    entries: &[(Key, Component)],
    places: &[usize],
    ident: &Text,
    lists: &mut Vec<Words>,
) -> Result<usize, NoMemory>
    requires { StandOnce places.now }
    ensures listed { OnOk result (HasListed entries.now places.now ident.now lists.old.items lists.new.items) }
    ensures count { IfOk result (λ count. sum_by length lists.new.items ≡ sum_by length lists.old.items + count) }
{
    let mut count = 0;
    for place in places {
        if let Some(_) = model_at(entries, *place) {
            if let Some(list) = lists.get_mut(*place) {
                list.push(ident.copy(alloc)?)?;
                count += 1;
            }
        }
    }
    Ok(count)
}

/// The ident of the class of type `model` that stands at a place among entries.
pub fn model_at(entries: &[(Key, Component)], place: usize) -> Option<&Text>
    ensures { (class : List ℕ) → (option_copied result ≡ Some class) ↔ IsModelAt entries.now place class }
{
    match entries.get(place) {
        Some((key, Component::Class(part))) if key.kind == Kind::Class && !part.gives => {
            Some(&key.ident)
        }
        _ => None,
    }
}

// The lists of the classes of type `model` among entries.
fn table_of(
    alloc: Global,
    entries: &[(Key, Component)],
    lists: Vec<Words>,
) -> Result<Map<Text, Words>, NoMemory>
    requires { IsTrue (is_sorted key_cmp entries.now) }
    ensures { IfOk result (IsTableOf entries.now lists.items) }
{
    let mut table = Map::new(alloc);
    for (place, list) in lists.into_iter().enumerate() {
        if let Some(class) = model_at(entries, place) {
            table.put(class.copy(alloc)?, list)?;
        }
    }
    Ok(table)
}

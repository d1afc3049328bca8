ghost use Rattle.std.specs.Prelude.{◌≡◌, ◌↔◌, ℕ, Some, IfOk, IsTrue};
ghost use Rattle.std.specs.FinMap.{is_sorted};
ghost use Rattle.odd_text.specs.Key.{key_cmp};
ghost use Rattle.odd_classes.specs.Placing.{ArePlacesOf, IsGraphOf, IsPlaceOf, IsTurnedGraphOf, keys_by};

use crate::links::{Link, linked};
use odd_graph::{Nodes, turned};
use odd_library::Component;
use odd_text::{Key, NoMemory};
use std::alloc::Global;

/// The graph of a library by a link: a node for each of its entries, in their order.
pub fn graph_by(
    alloc: Global,
    link: Link,
    entries: &[(Key, Component)],
) -> Result<Vec<Nodes>, NoMemory>
    requires { IsTrue (is_sorted key_cmp entries.now) }
    ensures { IfOk result (λ arrows. IsGraphOf (keys_by link) entries.now arrows.items) }
{
    let mut arrows = Vec::new(alloc);
    for (_, part) in entries {
        arrows.push(arrows_of(alloc, link, part, entries)?)?;
    }
    Ok(arrows)
}

/// The same with its arrows turned round.
pub fn turned_by(
    alloc: Global,
    link: Link,
    entries: &[(Key, Component)],
) -> Result<Vec<Nodes>, NoMemory>
    requires { IsTrue (is_sorted key_cmp entries.now) }
    ensures { IfOk result (λ back. IsTurnedGraphOf (keys_by link) entries.now back.items) }
{
    let arrows = graph_by(alloc, link, entries)?;
    turned(alloc, arrows.as_slice())
}

/// The place of a key among entries, counted from 0.
pub fn place_of(entries: &[(Key, Component)], key: &Key) -> Option<usize>
    requires { IsTrue (is_sorted key_cmp entries.now) }
    ensures { (place : ℕ) → (result ≡ Some place) ↔ IsPlaceOf entries.now place key.now }
{
    match entries.binary_search_by(|entry| entry.0.cmp(key)) {
        Ok(place) => Some(place),
        Err(_) => None,
    }
}

// The places of those that a component names by a link and that are there.
fn arrows_of(
    alloc: Global,
    link: Link,
    part: &Component,
    entries: &[(Key, Component)],
) -> Result<Nodes, NoMemory>
    requires { IsTrue (is_sorted key_cmp entries.now) }
    ensures { IfOk result (ArePlacesOf entries.now (keys_by link part.now)) }
{
    let mut nodes = Nodes::new(alloc);
    for key in linked(alloc, link, part)?.as_slice() {
        if let Some(place) = place_of(entries, key) {
            nodes.push(place)?;
        }
    }
    Ok(nodes)
}

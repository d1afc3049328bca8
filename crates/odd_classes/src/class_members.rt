ghost use Rattle.std.specs.Prelude.{◌≡◌, ◌↔◌, ℕ, List, IfOk, IsTrue};
ghost use Rattle.std.specs.List.{Contains};
ghost use Rattle.odd_text.specs.Text.{text_cmp};
ghost use Rattle.odd_text.specs.Sorted.{IsSet};
ghost use Rattle.odd_library.specs.Odd.{element_key as the_element_key};
ghost use Rattle.odd_library.specs.declared.library.Component.TheVariants as the_component;
ghost use Rattle.odd_library.specs.declared.library.ElementPart.{ElementPart as AnElementPart};
ghost use Rattle.odd_meaning.specs.Classes.{IsElementOf, IsMember};
ghost use Rattle.odd_meaning.specs.Links.{class_key as the_class_key, classes_of};
ghost use Rattle.odd_text.specs.Standing.{StandsIn};
ghost use Rattle.odd_classes.specs.Placing.{IsEntryAt, IsGraphOf, IsIdentAt};

use crate::graph::{place_of, turned_by};
use crate::links::Link;
use crate::offering::element_key;
use odd_graph::{Nodes, reached, unmarked};
use odd_library::{Component, Library};
use odd_text::{Key, Kind, NoMemory, Text, TryCopy, Words, sorted};
use std::alloc::Global;

/// The idents of the elements that are members of a class, by their own memberships or through classes of classes (TEI
/// Guidelines, the chapter Documentation Elements), in rising order, each once; none where the class is not held. The only
/// error is NoMemory, for want of memory.
pub fn members(alloc: Global, library: &Library, class: &Text) -> Result<Words, NoMemory>
    ensures { IfOk result (IsSet text_cmp (IsElementOf library.now class.now)) }
{
    let entries = library.parts.entries();
    let Some(place) = place_of(entries, &class_key(alloc, class)?) else {
        return Ok(Words::new(alloc));
    };
    let back = turned_by(alloc, Link::Classes, entries)?;
    let mut marks = unmarked(alloc, back.as_slice())?;
    let nodes = reached(alloc, back.as_slice(), place, &mut marks)?;
    let idents = elements_among(alloc, entries, nodes.as_slice())?;
    sorted(alloc, idents)
}

/// The idents of the held classes that an element is a member of, by its own memberships or through classes of classes (TEI
/// Guidelines, the chapter Documentation Elements), in rising order, each once; none where the element is not held. The graph is
/// that of the library by classes. The only error is NoMemory, for want of memory.
pub fn memberships(
    alloc: Global,
    library: &Library,
    arrows: &[Nodes],
    element: &Text,
) -> Result<Words, NoMemory>
    requires { IsGraphOf classes_of library.now.parts arrows.now }
    ensures { IfOk result (IsSet text_cmp (λ class. IsMember library.now class (the_element_key element.now))) }
{
    let entries = library.parts.entries();
    let Some(place) = place_of(entries, &element_key(alloc, element)?) else {
        return Ok(Words::new(alloc));
    };
    let mut marks = unmarked(alloc, arrows)?;
    let nodes = reached(alloc, arrows, place, &mut marks)?;
    let idents = idents_among(alloc, entries, nodes.as_slice())?;
    sorted(alloc, idents)
}

// The key of a class.
fn class_key(alloc: Global, class: &Text) -> Result<Key, NoMemory>
    ensures { IfOk result (λ key. key ≡ the_class_key class.now) }
{
    let ident = class.copy(alloc)?;
    Ok(Key {
        kind: Kind::Class,
        ident,
    })
}

// The idents of those among places at which an element stands.
fn elements_among(
    alloc: Global,
    entries: &[(Key, Component)],
    places: &[usize],
) -> Result<Words, NoMemory>
    ensures { IfOk result (λ idents. (ident : List ℕ) → StandsIn idents ident ↔ ((place : ℕ) × (part : AnElementPart) × IsEntryAt entries.now place (the_element_key ident) (the_component.Element part) × Contains places.now place)) }
{
    let mut idents = Words::new(alloc);
    for place in places {
        if let Some(entry) = entries.get(*place) {
            if is_element(entry) {
                idents.push(entry.0.ident.copy(alloc)?)?;
            }
        }
    }
    Ok(idents)
}

// The idents of the entries at places.
fn idents_among(
    alloc: Global,
    entries: &[(Key, Component)],
    places: &[usize],
) -> Result<Words, NoMemory>
    ensures { IfOk result (λ idents. (ident : List ℕ) → StandsIn idents ident ↔ ((place : ℕ) × IsIdentAt entries.now ident place × Contains places.now place)) }
{
    let mut idents = Words::new(alloc);
    for place in places {
        if let Some(entry) = entries.get(*place) {
            idents.push(entry.0.ident.copy(alloc)?)?;
        }
    }
    Ok(idents)
}

/// Whether an entry is an element.
pub fn is_element(entry: &(Key, Component)) -> bool
    ensures { IsTrue result ↔ ((part : AnElementPart) × (entry.now ≡ (the_element_key entry.now.0.ident, the_component.Element part))) }
{
    matches!(
        (entry.0.kind, &entry.1),
        (Kind::Element, Component::Element(_))
    )
}

ghost use Rattle.std.specs.Prelude.{◌≡◌, [], ◌∷◌, ◌++◌, IfOk, OnOk, flat_map, map};
ghost use Rattle.std.specs.Option.{option_copied};
ghost use Rattle.odd_meaning.specs.Links.{class_key, classes_of, named_by as the_named_by, named_by_edit, named_by_item, named_in};
ghost use Rattle.odd_classes.specs.Placing.{datatype_in, is_of_kind, keys_by, those_of};

use odd_attributes::{AttEdit, AttEdits, Datatype};
use odd_content::{Content, Contents};
use odd_library::Component;
use odd_text::{Key, Keys, Kind, NoMemory, Text, TryCopy, Words};
use rng_types::Item;
use std::alloc::Global;

/// By what a component leads on to others.
#[derive(Clone, Copy, Drop)]
pub enum Link {
    /// The classes that it is said to be a member of.
    Classes,
    /// The macros that its content names.
    Macros,
    /// The datatypes that it names.
    Datatypes,
}

/// The keys that a component names by a link.
pub fn linked(alloc: Global, link: Link, part: &Component) -> Result<Keys, NoMemory>
    ensures { IfOk result (λ keys. keys ≡ keys_by link part.now) }
{
    match link {
        Link::Classes => classes(alloc, part),
        Link::Macros => named(alloc, Kind::Macro, part),
        Link::Datatypes => named(alloc, Kind::Datatype, part),
    }
}

// The keys of the classes that a component is said to be a member of.
fn classes(alloc: Global, part: &Component) -> Result<Keys, NoMemory>
    ensures { IfOk result (λ keys. keys ≡ classes_of part.now) }
{
    match part {
        Component::Element(part) => class_keys(alloc, &part.classes),
        Component::Class(part) => class_keys(alloc, &part.classes),
        Component::Macro(_) | Component::Datatype(_) => Ok(Keys::new(alloc)),
    }
}

// The keys of classes with these idents.
fn class_keys(alloc: Global, words: &Words) -> Result<Keys, NoMemory>
    ensures { IfOk result (λ keys. keys ≡ map class_key words.now) }
{
    let mut keys = Keys::new(alloc);
    for word in words.as_slice() {
        push_key(alloc, &mut keys, Kind::Class, word)?;
    }
    Ok(keys)
}

/// The keys of a kind that a component names, in its content and in its edits of attributes.
pub fn named(alloc: Global, wanted: Kind, part: &Component) -> Result<Keys, NoMemory>
    ensures { IfOk result (λ keys. keys ≡ those_of wanted (the_named_by part.now)) }
{
    let mut keys = Keys::new(alloc);
    match part {
        Component::Element(part) => {
            push_named(alloc, wanted, &mut keys, &part.content)?;
            push_datatypes(alloc, wanted, &mut keys, &part.atts)?;
        }
        Component::Class(part) => push_datatypes(alloc, wanted, &mut keys, &part.atts)?,
        Component::Macro(part) | Component::Datatype(part) => {
            push_named(alloc, wanted, &mut keys, &part.content)?;
        }
    }
    Ok(keys)
}

// Puts the keys of a kind that a content names, at any depth, at the end.
#[cycle(push_named)]
fn push_named(
    alloc: Global,
    wanted: Kind,
    keys: &mut Keys,
    content: &Content,
) -> Result<(), NoMemory>
    ensures { OnOk result (keys.new ≡ keys.old ++ those_of wanted (named_in content.now)) }
{
    match content {
        Content::Value(item) => push_item(alloc, wanted, keys, item),
        Content::Element { key, bounds: _ } => push_of(alloc, wanted, keys, Kind::Element, key),
        Content::Class { key, .. } => push_of(alloc, wanted, keys, Kind::Class, key),
        Content::Macro { key, bounds: _ } => push_of(alloc, wanted, keys, Kind::Macro, key),
        Content::Sequence { parts, bounds: _ } => push_named_of(alloc, wanted, keys, parts),
        Content::Alternate { parts, bounds: _ } => push_named_of(alloc, wanted, keys, parts),
        Content::Empty | Content::Text | Content::Vals(_) | Content::Any { .. } => Ok(()),
    }
}

// The same of each part.
#[cycle(push_named)]
fn push_named_of(
    alloc: Global,
    wanted: Kind,
    keys: &mut Keys,
    parts: &Contents,
) -> Result<(), NoMemory>
    ensures { OnOk result (keys.new ≡ keys.old ++ flat_map (λ part. those_of wanted (named_in part)) parts.now) }
{
    for part in parts.as_slice() {
        push_named(alloc, wanted, keys, part)?;
    }
    Ok(())
}

// Puts the keys of the datatypes that edits of attributes name at the end, where datatypes are wanted.
fn push_datatypes(
    alloc: Global,
    wanted: Kind,
    keys: &mut Keys,
    edits: &AttEdits,
) -> Result<(), NoMemory>
    ensures { OnOk result (keys.new ≡ keys.old ++ flat_map (λ e. those_of wanted (named_by_edit e.1)) edits.now) }
{
    for at in 0..edits.len() {
        if let Some(edit) = edits.value(at) {
            if let Some(datatype) = datatype_of(edit) {
                push_item(alloc, wanted, keys, &datatype.item)?;
            }
        }
    }
    Ok(())
}

// The datatype that an edit of an attribute gives.
fn datatype_of(edit: &AttEdit) -> Option<&Datatype>
    ensures { option_copied result ≡ datatype_in edit.now }
{
    match edit {
        AttEdit::Set(def) => def.datatype.as_ref(),
        AttEdit::Change(fields) => fields.datatype.as_ref(),
        AttEdit::Delete => None,
    }
}

// Puts the key of the datatype that an item names at the end, where datatypes are wanted.
fn push_item(alloc: Global, wanted: Kind, keys: &mut Keys, item: &Item) -> Result<(), NoMemory>
    ensures { OnOk result (keys.new ≡ keys.old ++ those_of wanted (named_by_item item.now)) }
{
    match item {
        Item::Key(key) => push_of(alloc, wanted, keys, Kind::Datatype, key),
        Item::Typed { .. } => Ok(()),
    }
}

// Puts the key of a kind and an ident at the end, where that kind is wanted.
fn push_of(
    alloc: Global,
    wanted: Kind,
    keys: &mut Keys,
    kind: Kind,
    ident: &Text,
) -> Result<(), NoMemory>
    ensures { OnOk result (keys.new ≡ keys.old ++ those_of wanted (record { kind = kind; ident = ident.now } ∷ [])) }
{
    if is_of(wanted, kind) {
        return push_key(alloc, keys, kind, ident);
    }
    Ok(())
}

// Whether a kind is the wanted one.
fn is_of(wanted: Kind, kind: Kind) -> bool
    ensures { result ≡ is_of_kind wanted kind }
{
    matches!(
        (wanted, kind),
        (Kind::Element, Kind::Element)
            | (Kind::Class, Kind::Class)
            | (Kind::Macro, Kind::Macro)
            | (Kind::Datatype, Kind::Datatype)
    )
}

// Puts the key of a kind and an ident at the end.
fn push_key(alloc: Global, keys: &mut Keys, kind: Kind, ident: &Text) -> Result<(), NoMemory>
    ensures { OnOk result (keys.new ≡ keys.old ++ record { kind = kind; ident = ident.now } ∷ []) }
{
    let ident = ident.copy(alloc)?;
    keys.push(Key { kind, ident })?;
    Ok(())
}

use crate::attributes::add_edits;
use crate::contents::add_content;
use odd_content::Content;
use odd_forms::TEI;
use odd_library::{ClassPart, Component, ElementPart, Library};
use odd_text::{Key, Kind, NoMemory, Text, Words};
use std::alloc::Global;

/// Puts the ident and the start words of a library, and a line for each component.
pub fn add_library(alloc: Global, out: &mut Text, library: &Library) -> Result<(), NoMemory> {
    out.push_str(library.ident.as_str())?;
    add_words(out, &library.start)?;
    for (key, part) in library.parts.entries() {
        out.push('\n')?;
        add_key(out, key)?;
        add_part(alloc, out, part)?;
    }
    Ok(())
}

/// Puts words, with a blank before each.
pub fn add_words(out: &mut Text, words: &Words) -> Result<(), NoMemory> {
    for word in words.as_slice() {
        out.push(' ')?;
        out.push_str(word.as_str())?;
    }
    Ok(())
}

/// Puts a key: its kind and its ident.
pub fn add_key(out: &mut Text, key: &Key) -> Result<(), NoMemory> {
    let kind = match key.kind {
        Kind::Element => "element ",
        Kind::Class => "class ",
        Kind::Macro => "macro ",
        Kind::Datatype => "datatype ",
    };
    out.push_str(kind)?;
    out.push_str(key.ident.as_str())
}

// Puts the fields of a component but those that an `add` without them has.
fn add_part(alloc: Global, out: &mut Text, part: &Component) -> Result<(), NoMemory> {
    if !part.module().as_str().is_empty() {
        add_field(out, " module=", part.module())?;
    }
    match part {
        Component::Element(part) => add_element(out, part)?,
        Component::Class(part) => add_class(out, part)?,
        Component::Macro(_) | Component::Datatype(_) => {}
    }
    match part.content() {
        None | Some(Content::Empty) => {}
        Some(content) => {
            out.push_str(" content=")?;
            add_content(alloc, out, content)?;
        }
    }
    match part {
        Component::Element(part) => add_edits(alloc, out, &part.atts, " atts="),
        Component::Class(part) => add_edits(alloc, out, &part.atts, " atts="),
        Component::Macro(_) | Component::Datatype(_) => Ok(()),
    }
}

fn add_field(out: &mut Text, name: &str, value: &Text) -> Result<(), NoMemory> {
    out.push_str(name)?;
    out.push_str(value.as_str())
}

// Puts the namespace, the name in documents and the memberships of an element.
fn add_element(out: &mut Text, part: &ElementPart) -> Result<(), NoMemory> {
    if part.ns.as_str() != TEI {
        add_field(out, " ns=", &part.ns)?;
    }
    if let Some(alt) = &part.alt {
        add_field(out, " alt=", alt)?;
    }
    add_classes(out, &part.classes)
}

// Puts the type and the memberships of a class.
fn add_class(out: &mut Text, part: &ClassPart) -> Result<(), NoMemory> {
    if part.gives {
        out.push_str(" type=atts")?;
    }
    add_classes(out, &part.classes)
}

// Puts memberships, with commas between them.
fn add_classes(out: &mut Text, classes: &Words) -> Result<(), NoMemory> {
    let mut before = " classes=";
    for word in classes.as_slice() {
        out.push_str(before)?;
        out.push_str(word.as_str())?;
        before = ",";
    }
    Ok(())
}

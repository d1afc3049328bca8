use crate::contents::{add_content, add_name};
use crate::libraries::add_words;
use odd_case_files::{CaseFault, Shown};
use odd_content::{ContentRefusal, read_content};
use odd_forms::Element;
use odd_library::{Membership, read_classes};
use odd_reader::read_tree;
use odd_text::{NoMemory, Text};
use odd_tree::{Node, Tree, elements};
use std::alloc::Global;

/// A file, as this of it is shown.
pub fn shown_text(alloc: Global, shown: Shown, bytes: &[u8]) -> Result<Text, CaseFault> {
    let mut out = Text::new(alloc);
    match read_tree(alloc, bytes) {
        Ok(tree) => add_shown(alloc, &mut out, shown, &tree)?,
        Err(_) => out.push_str("no tree")?,
    }
    Ok(out)
}

fn add_shown(alloc: Global, out: &mut Text, shown: Shown, tree: &Tree) -> Result<(), CaseFault> {
    match shown {
        Shown::Tree => add_tree(alloc, out, tree)?,
        Shown::Content => add_content_of(alloc, out, tree)?,
        Shown::Classes => add_classes_of(alloc, out, tree)?,
        Shown::Patterns(_) | Shown::Values => return Err(CaseFault::NotAlone),
    }
    Ok(())
}

/// Puts the rule that something breaks.
pub fn add_rule(alloc: Global, out: &mut Text, rule: u8) -> Result<(), NoMemory> {
    out.push_str(format!(in alloc; "rule {rule}")?.as_str())
}

// Puts what the first child of a root says as a `content`.
fn add_content_of(alloc: Global, out: &mut Text, root: &Tree) -> Result<(), NoMemory> {
    let Some(child) = elements(root).next() else {
        return out.push_str("no content");
    };
    match read_content(alloc, child, &root.binds) {
        Ok(content) => add_content(alloc, out, &content),
        Err(ContentRefusal::Rule(rule)) => add_rule(alloc, out, rule),
        Err(ContentRefusal::NoMemory) => Err(NoMemory),
    }
}

// Puts the memberships that a root gives, as the declaration of a class or else of an element.
fn add_classes_of(alloc: Global, out: &mut Text, root: &Tree) -> Result<(), NoMemory> {
    let form = match root.name.local.as_str() {
        "classSpec" => Element::ClassSpec,
        _ => Element::ElementSpec,
    };
    let read = read_classes(alloc, form, root)?;
    match (read.fault, &read.classes) {
        (Some(rule), _) => add_rule(alloc, out, rule),
        (None, Some(membership)) => add_membership(out, membership),
        (None, None) => out.push_str("none"),
    }
}

// Puts the classes in the place of those before them, or each with whether it is added or taken away.
fn add_membership(out: &mut Text, membership: &Membership) -> Result<(), NoMemory> {
    match membership {
        Membership::Replace(words) => {
            out.push_str("replace")?;
            add_words(out, words)
        }
        Membership::Change(marks) => {
            out.push_str("change")?;
            for (word, is_added) in marks.entries() {
                out.push_str(if *is_added { " +" } else { " -" })?;
                out.push_str(word.as_str())?;
            }
            Ok(())
        }
    }
}

// Puts a tree: the tag of its root, and its children in parentheses, a text in apostrophes.
fn add_tree(alloc: Global, out: &mut Text, tree: &Tree) -> Result<(), NoMemory> {
    add_tag(alloc, out, tree)?;
    let mut before = '(';
    for node in tree.children.as_slice() {
        out.push(before)?;
        before = ' ';
        match node {
            Node::Element(child) => add_tree(alloc, out, child)?,
            Node::Text(text) => add_quoted(out, text)?,
        }
    }
    if !tree.children.is_empty() {
        out.push(')')?;
    }
    Ok(())
}

// Puts the name of an element with the byte of its tag, its namespace declarations and its attributes.
fn add_tag(alloc: Global, out: &mut Text, tree: &Tree) -> Result<(), NoMemory> {
    add_name(out, &tree.name)?;
    out.push_str(format!(in alloc; "@{}", tree.at)?.as_str())?;
    add_binds(out, tree)?;
    add_attributes(out, tree)
}

fn add_binds(out: &mut Text, tree: &Tree) -> Result<(), NoMemory> {
    for bind in tree.binds.as_slice() {
        out.push(' ')?;
        out.push_str(bind.prefix.as_str())?;
        out.push_str(":=")?;
        out.push_str(bind.ns.as_str())?;
    }
    Ok(())
}

fn add_attributes(out: &mut Text, tree: &Tree) -> Result<(), NoMemory> {
    for attr in tree.attrs.as_slice() {
        out.push(' ')?;
        add_name(out, &attr.name)?;
        out.push('=')?;
        add_quoted(out, &attr.value)?;
    }
    Ok(())
}

fn add_quoted(out: &mut Text, text: &Text) -> Result<(), NoMemory> {
    out.push('\'')?;
    out.push_str(text.as_str())?;
    out.push('\'')
}

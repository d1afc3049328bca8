use crate::items::{add_bounds, add_item, add_list, add_named};
use odd_content::{Condition, Content, Contents, Pick};
use odd_text::{Name, NoMemory, Text, Words};
use std::alloc::Global;

/// Puts a content: the idents and the conditions with their bounds, and parts in parentheses.
#[cycle(contents)]
pub fn add_content(alloc: Global, out: &mut Text, content: &Content) -> Result<(), NoMemory> {
    let bounds = match content {
        Content::Empty => return out.push_str("empty"),
        Content::Text => return out.push_str("text"),
        Content::Value(item) => {
            out.push_str("value ")?;
            return add_item(out, item);
        }
        Content::Vals(list) => {
            out.push_str("list")?;
            return add_list(out, list);
        }
        Content::Element { key, bounds } => {
            out.push_str(key.as_str())?;
            bounds
        }
        Content::Class { key, pick, bounds } => {
            add_named(out, "class ", Some(key))?;
            add_pick(out, pick)?;
            bounds
        }
        Content::Macro { key, bounds } => {
            add_named(out, "macro ", Some(key))?;
            bounds
        }
        Content::Any { condition, bounds } => {
            add_condition(out, condition)?;
            bounds
        }
        Content::Sequence { parts, bounds } => {
            add_parts(alloc, out, "sequence(", parts)?;
            bounds
        }
        Content::Alternate { parts, bounds } => {
            add_parts(alloc, out, "alternate(", parts)?;
            bounds
        }
    };
    add_bounds(alloc, out, *bounds)
}

#[cycle(contents)]
fn add_parts(alloc: Global, out: &mut Text, first: &str, parts: &Contents) -> Result<(), NoMemory> {
    out.push_str(first)?;
    let mut is_first = true;
    for part in parts.as_slice() {
        if !is_first {
            out.push_str(", ")?;
        }
        is_first = false;
        add_content(alloc, out, part)?;
    }
    out.push(')')
}

// Puts which elements of a class are named.
fn add_pick(out: &mut Text, pick: &Pick) -> Result<(), NoMemory> {
    match pick {
        Pick::All => Ok(()),
        Pick::Include(words) => add_words(out, " include[", words),
        Pick::Except(words) => add_words(out, " except[", words),
    }
}

// Puts a condition: the required namespaces, the excepted ones and the excepted names.
fn add_condition(out: &mut Text, condition: &Condition) -> Result<(), NoMemory> {
    add_words(out, "any[", &condition.require)?;
    add_words(out, "[", &condition.spaces)?;
    let mut before = "[";
    for name in condition.names.as_slice() {
        out.push_str(before)?;
        before = " ";
        add_name(out, name)?;
    }
    out.push_str(if condition.names.is_empty() {
        "[]"
    } else {
        "]"
    })
}

fn add_words(out: &mut Text, first: &str, words: &Words) -> Result<(), NoMemory> {
    out.push_str(first)?;
    let mut before = "";
    for word in words.as_slice() {
        out.push_str(before)?;
        before = " ";
        out.push_str(word.as_str())?;
    }
    out.push(']')
}

/// Puts a name with its namespace in braces, where it has one.
pub fn add_name(out: &mut Text, name: &Name) -> Result<(), NoMemory> {
    if !name.ns.as_str().is_empty() {
        out.push('{')?;
        out.push_str(name.ns.as_str())?;
        out.push('}')?;
    }
    out.push_str(name.local.as_str())
}

use odd_content::{Content, Contents, Pick};
use odd_text::{NoMemory, Text};
use rng_types::{Bounds, DataType, Facets, Item};
use std::alloc::Global;

// The bounds of a part that stands once.
const ONCE: Bounds = Bounds {
    min: 1,
    max: Some(1),
};

/// A part of the content, or several with commas between them, which are a sequence.
pub fn read_content(alloc: Global, content: &str) -> Result<Content, NoMemory> {
    if !content.contains(',') {
        return read_choice(alloc, content);
    }
    let mut parts = Contents::new(alloc);
    for part in content.split(',') {
        parts.push(read_choice(alloc, part)?)?;
    }
    Ok(Content::Sequence {
        parts,
        bounds: ONCE,
    })
}

// A part, or several with bars between them, which are an alternate.
fn read_choice(alloc: Global, choice: &str) -> Result<Content, NoMemory> {
    if !choice.contains('|') {
        return read_part(alloc, choice);
    }
    let mut parts = Contents::new(alloc);
    for part in choice.split('|') {
        parts.push(read_part(alloc, part)?)?;
    }
    Ok(Content::Alternate {
        parts,
        bounds: ONCE,
    })
}

fn read_part(alloc: Global, part: &str) -> Result<Content, NoMemory> {
    match part.split_once('/') {
        Some(("class", ident)) => Ok(Content::Class {
            key: Text::from_str(alloc, ident)?,
            pick: Pick::All,
            bounds: ONCE,
        }),
        Some(("macro", ident)) => Ok(Content::Macro {
            key: Text::from_str(alloc, ident)?,
            bounds: ONCE,
        }),
        Some(("data", ident)) => Ok(Content::Value(Item::Key(Text::from_str(alloc, ident)?))),
        _ => read_named(alloc, part),
    }
}

fn read_named(alloc: Global, part: &str) -> Result<Content, NoMemory> {
    match part {
        "empty" => Ok(Content::Empty),
        "text" => Ok(Content::Text),
        "value" => Ok(Content::Value(Item::Typed {
            kind: DataType::Token,
            facets: Facets::new(alloc),
        })),
        ident => Ok(Content::Element {
            key: Text::from_str(alloc, ident)?,
            bounds: ONCE,
        }),
    }
}

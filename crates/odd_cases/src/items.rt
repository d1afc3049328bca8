use odd_text::{NoMemory, Text};
use rng_types::{Bounds, DataType, Facet, FacetName, Facets, Item, ListKind, ValList};
use std::alloc::Global;

// The types in their order, with their names.
const TYPES: [(&str, DataType); 15] = [
    ("string", DataType::String),
    ("normalizedString", DataType::NormalizedString),
    ("token", DataType::Token),
    ("NMTOKEN", DataType::Nmtoken),
    ("Name", DataType::Name),
    ("NCName", DataType::NcName),
    ("ID", DataType::Id),
    ("IDREF", DataType::Idref),
    ("language", DataType::Language),
    ("anyURI", DataType::AnyUri),
    ("boolean", DataType::Boolean),
    ("integer", DataType::Integer),
    ("nonNegativeInteger", DataType::NonNegativeInteger),
    ("positiveInteger", DataType::PositiveInteger),
    ("decimal", DataType::Decimal),
];

/// The type of a name.
pub fn kind_named(name: &str) -> Option<DataType> {
    for (known, kind) in TYPES {
        if known == name {
            return Some(kind);
        }
    }
    None
}

// The name of a type.
fn name_of(kind: DataType) -> &'static str {
    for (name, known) in TYPES {
        if known == kind {
            return name;
        }
    }
    ""
}

/// Puts the datatype of a value: its key, or its type and facets.
pub fn add_item(out: &mut Text, item: &Item) -> Result<(), NoMemory> {
    match item {
        Item::Key(key) => add_named(out, "key=", Some(key)),
        Item::Typed { kind, facets } => {
            out.push_str("type=")?;
            add_typed(out, *kind, facets)
        }
    }
}

/// Puts a type and its facets.
pub fn add_typed(out: &mut Text, kind: DataType, facets: &Facets) -> Result<(), NoMemory> {
    out.push_str(name_of(kind))?;
    for facet in facets.as_slice() {
        add_facet(out, facet)?;
    }
    Ok(())
}

fn add_facet(out: &mut Text, facet: &Facet) -> Result<(), NoMemory> {
    let name = match facet.name {
        FacetName::Length => " length=",
        FacetName::MaxInclusive => " maxInclusive=",
        FacetName::MaxLength => " maxLength=",
        FacetName::MinInclusive => " minInclusive=",
        FacetName::MinLength => " minLength=",
        FacetName::Pattern => " pattern=",
    };
    add_named(out, name, Some(&facet.value))
}

/// Puts the least and the greatest number, or a star where there is no greatest.
pub fn add_bounds(alloc: Global, out: &mut Text, bounds: Bounds) -> Result<(), NoMemory> {
    let Bounds { min, max } = bounds;
    match max {
        Some(max) => out.push_str(format!(in alloc; " {min}..{max}")?.as_str()),
        None => out.push_str(format!(in alloc; " {min}..*")?.as_str()),
    }
}

/// Puts the kind of a list of values, and its values.
pub fn add_list(out: &mut Text, list: &ValList) -> Result<(), NoMemory> {
    out.push_str(kind_name(list.kind))?;
    for value in list.values.as_slice() {
        add_named(out, "|", Some(value))?;
    }
    Ok(())
}

/// The name of a kind of a list.
pub fn kind_name(kind: ListKind) -> &'static str {
    match kind {
        ListKind::Closed => " closed",
        ListKind::Semi => " semi",
        ListKind::Open => " open",
    }
}

/// Puts a text behind its name, where there is one, with the pictures of tab, LF and CR in place of these.
pub fn add_named(out: &mut Text, name: &str, text: Option<&Text>) -> Result<(), NoMemory> {
    match text {
        Some(text) => {
            out.push_str(name)?;
            add_text(out, text.as_str())
        }
        None => Ok(()),
    }
}

/// Puts a text as a field.
pub fn add_text(out: &mut Text, text: &str) -> Result<(), NoMemory> {
    for c in text.chars() {
        out.push(match c {
            '\t' => '\u{2409}',
            '\n' => '\u{240A}',
            '\r' => '\u{240D}',
            _ => c,
        })?;
    }
    Ok(())
}

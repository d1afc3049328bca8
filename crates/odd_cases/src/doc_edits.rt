use odd_attributes::{AttDef, AttEdit, AttEdits, AttFields, Datatype};
use odd_case_files::CaseFault;
use odd_text::{NoMemory, Text};
use rng_types::{Bounds, Item};
use std::alloc::Global;

// The bounds of a datatype in a doc.
const ONCE: Bounds = Bounds {
    min: 1,
    max: Some(1),
};

/// Edits of attributes with commas between them, each an ident, a colon and words with points between them: `set`, `change` or
/// `delete`, and then what it gives: a usage, the key of a datatype, a name in documents and a namespace.
pub fn read_edits(alloc: Global, value: &str) -> Result<AttEdits, CaseFault> {
    let mut edits = AttEdits::new(alloc);
    for edit in value.split(',').filter(|edit| !edit.is_empty()) {
        let (ident, words) = read_ident(alloc, edit)?;
        edits.put(ident, read_edit(alloc, words)?)?;
    }
    Ok(edits)
}

// The ident of an edit, and what stands behind the colon after it, which is not the colon of `xml:`.
fn read_ident(alloc: Global, edit: &str) -> Result<(Text, &str), CaseFault> {
    let (ident, words) = edit.split_once(':').ok_or(CaseFault::NoItem)?;
    if ident != "xml" {
        return Ok((Text::from_str(alloc, ident)?, words));
    }
    let (local, words) = words.split_once(':').ok_or(CaseFault::NoItem)?;
    let ident = format!(in alloc; "xml:{local}")?;
    Ok((Text::from_string(alloc, ident)?, words))
}

fn read_edit(alloc: Global, words: &str) -> Result<AttEdit, CaseFault> {
    let (kind, rest) = words.split_once('.').unwrap_or((words, ""));
    let fields = read_fields(alloc, rest)?;
    match kind {
        "set" => read_def(fields),
        "change" => Ok(AttEdit::Change(fields)),
        "delete" if rest.is_empty() => Ok(AttEdit::Delete),
        _ => Err(CaseFault::NoItem),
    }
}

// The edit that sets an attribute with these fields, which say whether it is needed.
fn read_def(fields: AttFields) -> Result<AttEdit, CaseFault> {
    let AttFields {
        alt,
        ns,
        needed,
        datatype,
        vals: _,
    } = fields;
    let needed = needed.ok_or(CaseFault::NoItem)?;
    Ok(AttEdit::Set(AttDef {
        alt,
        ns,
        needed,
        datatype,
        vals: None,
    }))
}

// What the words of an edit give.
fn read_fields(alloc: Global, words: &str) -> Result<AttFields, CaseFault> {
    let mut fields = AttFields {
        alt: None,
        ns: None,
        needed: None,
        datatype: None,
        vals: None,
    };
    for word in words.split('.').filter(|word| !word.is_empty()) {
        put_word(alloc, &mut fields, word)?;
    }
    Ok(fields)
}

fn put_word(alloc: Global, fields: &mut AttFields, word: &str) -> Result<(), CaseFault> {
    match word.split_once('=') {
        Some(("alt", name)) => fields.alt = Some(Text::from_str(alloc, name)?),
        Some(("ns", name)) => fields.ns = Some(Text::from_str(alloc, name)?),
        Some(_) => return Err(CaseFault::NoItem),
        None => match word {
            "req" => fields.needed = Some(true),
            "opt" => fields.needed = Some(false),
            key => fields.datatype = Some(datatype_of(alloc, key)?),
        },
    }
    Ok(())
}

// The datatype of a key.
fn datatype_of(alloc: Global, key: &str) -> Result<Datatype, NoMemory> {
    Ok(Datatype {
        item: Item::Key(Text::from_str(alloc, key)?),
        bounds: ONCE,
    })
}

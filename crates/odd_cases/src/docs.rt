use crate::doc_contents::read_content;
use crate::doc_edits::read_edits;
use odd_attributes::AttEdits;
use odd_case_files::CaseFault;
use odd_chain::OddDocs;
use odd_content::Pick;
use odd_forms::TEI;
use odd_library::{ClassMarks, Entries, Entry, Membership, Mode, OddDoc, Spec};
use odd_text::{Key, Kind, NoMemory, Text, Words, sorted};
use std::alloc::Global;

/// The docs of a text. Each begins with a line of its ident and start words, and each line below it is an item, whose
/// place is the number of the line, counted from 1.
pub fn read_docs(alloc: Global, text: &[u8]) -> Result<OddDocs, CaseFault> {
    let Ok(text) = str::from_utf8(text) else {
        return Err(CaseFault::NoItem);
    };
    let mut docs = Vec::new(alloc);
    for line in text.lines() {
        let words: Vec<&str> = line.split_ascii_whitespace().collect(alloc)?;
        add_line(alloc, &mut docs, words.as_slice())?;
    }
    let mut read = OddDocs::new(alloc);
    for doc in docs {
        read.push(doc)?;
    }
    Ok(read)
}

// Begins a doc, or adds an item to the last one.
fn add_line(alloc: Global, docs: &mut Vec<OddDoc>, words: &[&str]) -> Result<(), CaseFault> {
    if let ["doc", ident, start @ ..] = words {
        docs.push(OddDoc {
            asides: 0,
            ident: Text::from_str(alloc, ident)?,
            start: texts_of(alloc, start)?,
            entries: Entries::new(alloc),
        })?;
        return Ok(());
    }
    let Some(doc) = docs.last_mut() else {
        return Err(CaseFault::NoItem);
    };
    let at = (doc.entries.len() as u64).saturating_add(1);
    doc.entries.push(read_item(alloc, at, words)?)?;
    Ok(())
}

fn texts_of(alloc: Global, words: &[&str]) -> Result<Words, NoMemory> {
    let mut texts = Words::new(alloc);
    for word in words {
        texts.push(Text::from_str(alloc, word)?)?;
    }
    Ok(texts)
}

fn read_item(alloc: Global, at: u64, words: &[&str]) -> Result<Entry, CaseFault> {
    match words {
        ["module", key, pick @ ..] => Ok(Entry::Module {
            at,
            key: Text::from_str(alloc, key)?,
            pick: read_pick(alloc, pick)?,
        }),
        ["take", kind, ident] => Ok(Entry::Take {
            at,
            key: read_key(alloc, kind, ident)?,
        }),
        [mode, kind, ident, fields @ ..] => {
            let key = read_key(alloc, kind, ident)?;
            let spec = read_spec(alloc, mode, key, fields)?;
            Ok(Entry::Spec { at, spec })
        }
        _ => Err(CaseFault::NoItem),
    }
}

fn read_pick(alloc: Global, words: &[&str]) -> Result<Pick, CaseFault> {
    match words {
        [] => Ok(Pick::All),
        ["include", idents @ ..] if !idents.is_empty() => {
            Ok(Pick::Include(texts_of(alloc, idents)?))
        }
        ["except", idents @ ..] if !idents.is_empty() => {
            Ok(Pick::Except(texts_of(alloc, idents)?))
        }
        _ => Err(CaseFault::NoItem),
    }
}

fn read_key(alloc: Global, kind: &str, ident: &str) -> Result<Key, CaseFault> {
    let kind = match kind {
        "element" => Kind::Element,
        "class" => Kind::Class,
        "macro" => Kind::Macro,
        "datatype" => Kind::Datatype,
        _ => return Err(CaseFault::NoItem),
    };
    let ident = Text::from_str(alloc, ident)?;
    Ok(Key { kind, ident })
}

fn mode_of(word: &str) -> Option<Mode> {
    match word {
        "add" => Some(Mode::Add),
        "delete" => Some(Mode::Delete),
        "change" => Some(Mode::Change),
        "replace" => Some(Mode::Replace),
        _ => None,
    }
}

// A declaration in a mode, with such fields as `module=m`. Without them an element that is added or replaced is in TEI's namespace, and
// such a class is of type `model`.
fn read_spec(alloc: Global, mode: &str, key: Key, fields: &[&str]) -> Result<Spec, CaseFault> {
    let mode = mode_of(mode).ok_or(CaseFault::NoItem)?;
    let mut spec = Spec {
        key,
        mode,
        module: Text::new(alloc),
        ns: None,
        alt: None,
        gives: None,
        classes: None,
        content: None,
        atts: AttEdits::new(alloc),
    };
    if matches!(mode, Mode::Add | Mode::Replace) {
        match spec.key.kind {
            Kind::Element => spec.ns = Some(Text::from_str(alloc, TEI)?),
            Kind::Class => spec.gives = Some(false),
            Kind::Macro | Kind::Datatype => {}
        }
    }
    put_fields(alloc, &mut spec, fields)?;
    Ok(spec)
}

fn put_fields(alloc: Global, spec: &mut Spec, fields: &[&str]) -> Result<(), CaseFault> {
    for field in fields {
        let (name, value) = field.split_once('=').ok_or(CaseFault::NoItem)?;
        put_field(alloc, spec, name, value)?;
    }
    Ok(())
}

fn put_field(alloc: Global, spec: &mut Spec, name: &str, value: &str) -> Result<(), CaseFault> {
    match (name, value) {
        ("module", _) => spec.module = Text::from_str(alloc, value)?,
        ("ns", _) => spec.ns = Some(Text::from_str(alloc, value)?),
        ("type", "atts") => spec.gives = Some(true),
        ("type", "model") => spec.gives = Some(false),
        ("classes", _) => spec.classes = Some(Membership::Replace(read_classes(alloc, value)?)),
        ("change", _) => spec.classes = Some(Membership::Change(read_marks(alloc, value)?)),
        ("content", _) => spec.content = Some(read_content(alloc, value)?),
        ("alt", _) => spec.alt = Some(Text::from_str(alloc, value)?),
        ("atts", _) => spec.atts = read_edits(alloc, value)?,
        _ => return Err(CaseFault::NoItem),
    }
    Ok(())
}

// Classes with commas between them.
fn read_classes(alloc: Global, value: &str) -> Result<Words, NoMemory> {
    let mut classes = Words::new(alloc);
    for word in value.split(',').filter(|word| !word.is_empty()) {
        classes.push(Text::from_str(alloc, word)?)?;
    }
    sorted(alloc, classes)
}

// Such classes, each after `+` where it is added and after `-` where it is taken away.
fn read_marks(alloc: Global, value: &str) -> Result<ClassMarks, CaseFault> {
    let mut marks = ClassMarks::new(alloc);
    for word in value.split(',').filter(|word| !word.is_empty()) {
        let (is_added, class) = match word.strip_prefix('+') {
            Some(class) => (true, class),
            None => (false, word.strip_prefix('-').ok_or(CaseFault::NoItem)?),
        };
        marks.put(Text::from_str(alloc, class)?, is_added)?;
    }
    Ok(marks)
}

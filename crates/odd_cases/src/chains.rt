use crate::attributes::add_offer;
use crate::libraries::{add_key, add_library, add_words};
use crate::showing::add_rule;
use odd_case_files::Asked;
use odd_chain::{OddDocs, merge};
use odd_classes::{MemberTable, OfferRefusal, TableRefusal, member_table, members, offered};
use odd_library::{Library, OddDoc, OddRefusal};
use odd_modes::{select, step};
use odd_text::{Keys, Kind, NoMemory, Offence, Text, Who};
use std::alloc::Global;

// How many docs a case may have.
const MOST_DOCS: usize = 1000;

/// What is asked of the docs of a chain, or their first offence.
pub fn told(alloc: Global, docs: &OddDocs, asked: Asked) -> Result<Text, NoMemory> {
    let mut out = Text::new(alloc);
    match asked {
        Asked::Chosen => match chosen_by_last(alloc, docs.as_slice()) {
            Ok(keys) => add_keys(&mut out, &keys)?,
            Err(refusal) => add_refusal(alloc, &mut out, &refusal)?,
        },
        _ => match library_of(alloc, docs, asked) {
            Ok(library) => add_asked(alloc, &mut out, &library, asked)?,
            Err(refusal) => add_refusal(alloc, &mut out, &refusal)?,
        },
    }
    Ok(out)
}

// The library after the docs of a chain, or their first offence. A case with more docs than any has is told as one for want of
// memory. A table, and offers unasked, are of a library that is not asked for what it breaks.
fn library_of(alloc: Global, docs: &OddDocs, asked: Asked) -> Result<Library, OddRefusal> {
    match asked {
        Asked::Table(_) | Asked::OffersUnasked => library_after(alloc, docs.as_slice()),
        _ if docs.len() > MOST_DOCS => Err(OddRefusal::NoMemory),
        _ => merge(alloc, docs),
    }
}

fn library_after(alloc: Global, docs: &[OddDoc]) -> Result<Library, OddRefusal> {
    let mut library = Library::empty(alloc)?;
    let mut file = 0u32;
    for doc in docs {
        file = file.saturating_add(1);
        library = step(alloc, &library, doc, file)?;
    }
    Ok(library)
}

// Where there is no doc nothing is chosen.
fn chosen_by_last(alloc: Global, docs: &[OddDoc]) -> Result<Keys, OddRefusal> {
    let Some((last, before)) = docs.split_last() else {
        return Ok(Keys::new(alloc));
    };
    let library = library_after(alloc, before)?;
    let file = u32::try_from(docs.len()).unwrap_or(u32::MAX);
    select(alloc, &library, last, file)
}

// Puts what is asked of a library.
fn add_asked(
    alloc: Global,
    out: &mut Text,
    library: &Library,
    asked: Asked,
) -> Result<(), NoMemory> {
    match asked {
        Asked::Library => add_library(alloc, out, library),
        Asked::Table(limit) => add_table(alloc, out, library, limit),
        _ => add_lines(alloc, out, library, asked),
    }
}

// Puts a line for each class, with its members, or for each element, with what it offers.
fn add_lines(
    alloc: Global,
    out: &mut Text,
    library: &Library,
    asked: Asked,
) -> Result<(), NoMemory> {
    for (key, _) in library.parts.entries() {
        match (asked, key.kind) {
            (Asked::Members, Kind::Class) => {
                begin_line(out, &key.ident)?;
                add_words(out, &members(alloc, library, &key.ident)?)?;
            }
            (Asked::Offers | Asked::OffersUnasked, Kind::Element) => {
                begin_line(out, &key.ident)?;
                add_offers(alloc, out, library, &key.ident)?;
            }
            _ => {}
        }
    }
    Ok(())
}

fn begin_line(out: &mut Text, ident: &Text) -> Result<(), NoMemory> {
    if !out.as_str().is_empty() {
        out.push('\n')?;
    }
    out.push_str(ident.as_str())
}

// Puts what an element offers, or the rule that it breaks: nothing where it is not held.
fn add_offers(
    alloc: Global,
    out: &mut Text,
    library: &Library,
    element: &Text,
) -> Result<(), NoMemory> {
    let Some(_) = library.find_by(Kind::Element, element) else {
        return Ok(());
    };
    match offered(alloc, library, element) {
        Ok(offers) => {
            let mut before = " ";
            for offer in offers.as_slice() {
                out.push_str(before)?;
                before = " ; ";
                add_offer(alloc, out, offer)?;
            }
            Ok(())
        }
        Err(OfferRefusal::Rule(rule)) => {
            out.push(' ')?;
            add_rule(alloc, out, rule)
        }
        Err(OfferRefusal::NoMemory) => Err(NoMemory),
    }
}

// Puts a line for each class of type `model`, with its members by the table, or why there is no table.
fn add_table(
    alloc: Global,
    out: &mut Text,
    library: &Library,
    limit: usize,
) -> Result<(), NoMemory> {
    match member_table(alloc, library, limit) {
        Ok(table) => add_lists(out, library, &table),
        Err(TableRefusal::Loop { key }) => {
            out.push_str("loop ")?;
            add_key(out, &key)
        }
        Err(TableRefusal::More) => out.push_str("more"),
        Err(TableRefusal::NoMemory) => Err(NoMemory),
    }
}

fn add_lists(out: &mut Text, library: &Library, table: &MemberTable) -> Result<(), NoMemory> {
    for (key, _) in library.parts.entries() {
        if let Some(idents) = table.of(&key.ident) {
            begin_line(out, &key.ident)?;
            add_words(out, idents)?;
        }
    }
    Ok(())
}

fn add_keys(out: &mut Text, keys: &Keys) -> Result<(), NoMemory> {
    let mut before = "";
    for key in keys.as_slice() {
        out.push_str(before)?;
        before = "\n";
        add_key(out, key)?;
    }
    Ok(())
}

// Puts an offence: its file, its place or its component, and its rule.
fn add_refusal(alloc: Global, out: &mut Text, refusal: &OddRefusal) -> Result<(), NoMemory> {
    match refusal {
        OddRefusal::Offence(Offence { file, who, rule }) => {
            out.push_str(format!(in alloc; "file {file}")?.as_str())?;
            match who {
                Who::At(place) => out.push_str(format!(in alloc; " at {place}")?.as_str())?,
                Who::Part(key) => {
                    out.push(' ')?;
                    add_key(out, key)?;
                }
                Who::Start(_) | Who::Asked(_) => {}
            }
            out.push(' ')?;
            add_rule(alloc, out, *rule)
        }
        OddRefusal::NoMemory => Err(NoMemory),
    }
}

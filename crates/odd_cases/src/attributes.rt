use crate::items::{add_bounds, add_item, add_list, add_named, add_text, kind_name};
use crate::showing::add_rule;
use crate::values::text_of;
use odd_attributes::{
    AttDef, AttEdit, AttEdits, AttFields, AttRefusal, Datatype, ValEdit, ValueMarks, read_attlist,
};
use odd_case_files::CaseFault;
use odd_classes::Offer;
use odd_forms::TEI;
use odd_overlay::Overlay;
use odd_reader::read_tree;
use odd_text::{NoMemory, Text};
use rng_types::ListKind;
use std::alloc::Global;

// The edits of attribute lists as one, or the least rule that the first of them breaks which breaks one.
#[derive(Drop)]
enum Joined {
    Edits(AttEdits),
    Rule(u8),
}

/// Puts the edits of attribute lists as one, or the rule that one of them breaks. The lists have tabs between them, and each is
/// without its beginning. With `aside` constraints are taken out of them.
pub fn add_joined(
    alloc: Global,
    out: &mut Text,
    lists: &str,
    aside: bool,
) -> Result<(), CaseFault> {
    match joined_lists(alloc, lists, aside)? {
        Joined::Edits(edits) => Ok(add_edits(alloc, out, &edits, "")?),
        Joined::Rule(rule) => Ok(add_rule(alloc, out, rule)?),
    }
}

/// Puts the attributes that the edits of attribute lists make of none.
pub fn add_definitions(alloc: Global, out: &mut Text, lists: &str) -> Result<(), CaseFault> {
    let edits = match joined_lists(alloc, lists, false)? {
        Joined::Edits(edits) => edits,
        Joined::Rule(rule) => return Ok(add_rule(alloc, out, rule)?),
    };
    let Some(defs) = edits.over(alloc, None)? else {
        return Ok(());
    };
    let mut before = "";
    for (ident, def) in defs.entries() {
        out.push_str(before)?;
        before = " ; ";
        add_text(out, ident.as_str())?;
        add_def(alloc, out, def)?;
    }
    Ok(())
}

fn joined_lists(alloc: Global, lists: &str, aside: bool) -> Result<Joined, CaseFault> {
    let mut edits = AttEdits::new(alloc);
    for list in lists.split('\t') {
        let text = text_of(alloc, list)?;
        let text = format!(in alloc; "<attList xmlns=\"{TEI}\"{}", text.as_str())?;
        let Ok(tree) = read_tree(alloc, text.as_bytes()) else {
            return Err(CaseFault::NoValue);
        };
        match read_attlist(alloc, &tree, aside) {
            Ok(later) => edits = edits.then(alloc, later)?,
            Err(AttRefusal::Rule(rule)) => return Ok(Joined::Rule(rule)),
            Err(AttRefusal::NoMemory) => return Err(CaseFault::NoMemory),
        }
    }
    Ok(Joined::Edits(edits))
}

/// Puts edits of attributes, with this before the first and ` ; ` before each other.
pub fn add_edits(
    alloc: Global,
    out: &mut Text,
    edits: &AttEdits,
    first: &str,
) -> Result<(), NoMemory> {
    let mut before = first;
    for (ident, edit) in edits.entries() {
        out.push_str(before)?;
        before = " ; ";
        add_text(out, ident.as_str())?;
        add_edit(alloc, out, edit)?;
    }
    Ok(())
}

/// Puts an attribute that is offered, and behind it the class that gives it, or `-` where the element sets it itself.
pub fn add_offer(alloc: Global, out: &mut Text, offer: &Offer) -> Result<(), NoMemory> {
    add_text(out, offer.ident.as_str())?;
    add_def(alloc, out, &offer.def)?;
    match &offer.giver {
        Some(class) => add_named(out, " @", Some(class)),
        None => out.push_str(" @-"),
    }
}

fn add_edit(alloc: Global, out: &mut Text, edit: &AttEdit) -> Result<(), NoMemory> {
    match edit {
        AttEdit::Set(def) => add_def(alloc, out, def),
        AttEdit::Change(fields) => add_fields(alloc, out, fields),
        AttEdit::Delete => out.push_str(" delete"),
    }
}

fn add_def(alloc: Global, out: &mut Text, def: &AttDef) -> Result<(), NoMemory> {
    out.push_str(if def.needed { " req" } else { " opt" })?;
    add_named(out, " alt=", def.alt.as_ref())?;
    add_named(out, " ns=", def.ns.as_ref())?;
    add_datatype(alloc, out, def.datatype.as_ref())?;
    match &def.vals {
        Some(list) => add_list(out, list),
        None => Ok(()),
    }
}

fn add_fields(alloc: Global, out: &mut Text, fields: &AttFields) -> Result<(), NoMemory> {
    out.push_str(match fields.needed {
        Some(true) => " change req",
        Some(false) => " change opt",
        None => " change",
    })?;
    add_named(out, " alt=", fields.alt.as_ref())?;
    add_named(out, " ns=", fields.ns.as_ref())?;
    add_datatype(alloc, out, fields.datatype.as_ref())?;
    match &fields.vals {
        Some(ValEdit::Set(list)) => add_list(out, list),
        Some(ValEdit::Change { kind, marks }) => add_marks(out, *kind, marks),
        Some(ValEdit::Delete) => out.push_str(" no list"),
        None => Ok(()),
    }
}

fn add_datatype(
    alloc: Global,
    out: &mut Text,
    datatype: Option<&Datatype>,
) -> Result<(), NoMemory> {
    let Some(Datatype { item, bounds }) = datatype else {
        return Ok(());
    };
    out.push(' ')?;
    add_item(out, item)?;
    add_bounds(alloc, out, *bounds)
}

fn add_marks(out: &mut Text, kind: Option<ListKind>, marks: &ValueMarks) -> Result<(), NoMemory> {
    out.push_str(" list")?;
    if let Some(kind) = kind {
        out.push_str(kind_name(kind))?;
    }
    for (value, is_put) in marks.entries() {
        add_named(out, if *is_put { "|+" } else { "|-" }, Some(value))?;
    }
    Ok(())
}

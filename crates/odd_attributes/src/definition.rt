ghost use Rattle.std.specs.Prelude.{◌≡◌, IfOk};
ghost use Rattle.odd_tree.specs.Elements.{given};
ghost use Rattle.odd_attributes.specs.Giving.{alt_given, datatype_given, def_of as the_def_of, edit_of, fields_of as the_fields_of, usage_given, val_edit_given, val_edit_of as the_val_edit_of};

use crate::att_def::{AttDef, Datatype};
use crate::att_edit::{AttEdit, AttFields};
use crate::val_edit::ValEdit;
use odd_content::{has_mode, list_kind, read_bounds, read_item, read_list, read_marks};
use odd_forms::{child_named, collapsed_in};
use odd_overlay::laid_pair;
use odd_text::{NoMemory, Text, TryCopy};
use odd_tree::{Tree, attribute};
use std::alloc::Global;

/// The edit that an `attDef` says. The only error is NoMemory, for want of memory.
pub fn read_edit(alloc: Global, def: &Tree) -> Result<AttEdit, NoMemory>
    ensures { IfOk result (λ made. made ≡ edit_of def.now) }
{
    if has_mode(def, "delete") {
        Ok(AttEdit::Delete)
    } else if has_mode(def, "change") {
        Ok(AttEdit::Change(fields_of(alloc, def)?))
    } else {
        Ok(AttEdit::Set(def_of(alloc, def)?))
    }
}

// The definition that an `attDef` sets. Its list of values is laid over none.
fn def_of(alloc: Global, def: &Tree) -> Result<AttDef, NoMemory>
    ensures { IfOk result (λ made. made ≡ the_def_of def.now) }
{
    let fields = fields_of(alloc, def)?;
    Ok(AttDef {
        alt: fields.alt,
        ns: fields.ns,
        needed: fields.needed.unwrap_or(false),
        datatype: fields.datatype,
        vals: laid_pair(alloc, fields.vals, None)?,
    })
}

// What an `attDef` gives that changes.
fn fields_of(alloc: Global, def: &Tree) -> Result<AttFields, NoMemory>
    ensures { IfOk result (λ made. made ≡ the_fields_of def.now) }
{
    Ok(AttFields {
        alt: read_alt(alloc, def)?,
        ns: text_given(alloc, def, "ns")?,
        needed: usage_of(def),
        datatype: read_datatype(alloc, def)?,
        vals: read_val_edit(alloc, def)?,
    })
}

/// The name in documents that an element or an attribute gives by its `altIdent`, with white space collapsed. The only error is
/// NoMemory, for want of memory.
pub fn read_alt(alloc: Global, tree: &Tree) -> Result<Option<Text>, NoMemory>
    ensures { IfOk result (λ alt. alt ≡ alt_given tree.now) }
{
    match child_named(tree, "altIdent") {
        Some(alt) => Ok(Some(collapsed_in(alloc, alt)?)),
        None => Ok(None),
    }
}

// The value of an attribute of an element, where it is given.
fn text_given(alloc: Global, tree: &Tree, local: &str) -> Result<Option<Text>, NoMemory>
    ensures { IfOk result (λ text. text ≡ given tree.now local.now) }
{
    match attribute(&tree.attrs, local) {
        Some(text) => Ok(Some(text.copy(alloc)?)),
        None => Ok(None),
    }
}

// Whether an element has to have the attribute, where it is said.
fn usage_of(def: &Tree) -> Option<bool>
    ensures { result ≡ usage_given def.now }
{
    match attribute(&def.attrs, "usage") {
        Some(word) => Some(word.as_str() == "req"),
        None => None,
    }
}

// The datatype of an attribute, where it gives one.
fn read_datatype(alloc: Global, def: &Tree) -> Result<Option<Datatype>, NoMemory>
    ensures { IfOk result (λ made. made ≡ datatype_given def.now) }
{
    let Some(datatype) = child_named(def, "datatype") else {
        return Ok(None);
    };
    let Some(reference) = child_named(datatype, "dataRef") else {
        return Ok(None);
    };
    match read_item(alloc, reference)? {
        Some(item) => Ok(Some(Datatype {
            item,
            bounds: read_bounds(datatype),
        })),
        None => Ok(None),
    }
}

// The edit of the list of values of an attribute, where it gives one.
fn read_val_edit(alloc: Global, def: &Tree) -> Result<Option<ValEdit>, NoMemory>
    ensures { IfOk result (λ made. made ≡ val_edit_given def.now) }
{
    match child_named(def, "valList") {
        Some(list) => Ok(Some(val_edit_of(alloc, list)?)),
        None => Ok(None),
    }
}

// The edit that a `valList` says.
fn val_edit_of(alloc: Global, list: &Tree) -> Result<ValEdit, NoMemory>
    ensures { IfOk result (λ made. made ≡ the_val_edit_of list.now) }
{
    if has_mode(list, "delete") {
        Ok(ValEdit::Delete)
    } else if has_mode(list, "change") {
        Ok(ValEdit::Change {
            kind: list_kind(list),
            marks: read_marks(alloc, list)?,
        })
    } else {
        Ok(ValEdit::Set(read_list(alloc, list)?))
    }
}

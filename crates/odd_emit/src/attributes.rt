ghost use Rattle.std.specs.Prelude.{◌≡◌, ◌↔◌, [], ◌∷◌, ◌++◌, map, IsTrue, OnOk, codes};
ghost use Rattle.std.specs.Option.{option_copied, option_map};
ghost use Rattle.odd_tree.specs.Markup.{printed};
ghost use Rattle.odd_attributes.specs.declared.att_edit.AttEdit.TheVariants as edited;
ghost use Rattle.odd_emit.specs.Attributes.{alt_markup, change_markup, datatype_markup, edit_markup, edits_markup, ident_said, ns_said, set_markup, usage_value, vals_markup};
ghost use Rattle.odd_emit.specs.Contents.{list_markup, mode_said};
ghost use Rattle.odd_emit.specs.Saying.{elements_printed, present, said_printed, says, says_if};

use crate::data::{add_item, add_list};
use crate::lists::add_values_edit;
use crate::saying::{add_alt, add_bounds, add_ident, add_mode, add_ns};
use odd_attributes::{AttDef, AttEdit, AttEdits, AttFields, Datatype};
use odd_printing::{add_attribute, add_end_tag, begin_tag, end_empty_tag, end_start_tag};
use odd_text::{NoMemory, Text};
use rng_types::ValList;

/// Puts the edits of a component, where there is one.
pub fn add_edits(out: &mut Text, edits: &AttEdits) -> Result<(), NoMemory>
    ensures { OnOk result (out.new ≡ out.old ++ elements_printed (present (edits_markup edits.now ∷ []))) }
{
    if edits.is_empty() {
        return Ok(());
    }
    begin_tag(out, "attList")?;
    end_start_tag(out)?;
    add_each_edit(out, edits)?;
    add_end_tag(out, "attList")
}

fn add_each_edit(out: &mut Text, edits: &AttEdits) -> Result<(), NoMemory>
    ensures { OnOk result (out.new ≡ out.old ++ elements_printed (map edit_markup edits.now)) }
{
    for (ident, edit) in edits.entries() {
        add_edit(out, ident, edit)?;
    }
    Ok(())
}

fn add_edit(out: &mut Text, ident: &Text, edit: &AttEdit) -> Result<(), NoMemory>
    ensures { OnOk result (out.new ≡ out.old ++ printed (edit_markup (ident.now, edit.now))) }
{
    match edit {
        AttEdit::Set(def) => add_definition(out, ident, def),
        AttEdit::Change(fields) => add_change(out, ident, fields),
        AttEdit::Delete => add_deletion(out, ident),
    }
}

fn add_deletion(out: &mut Text, ident: &Text) -> Result<(), NoMemory>
    ensures { OnOk result (out.new ≡ out.old ++ printed (edit_markup (ident.now, edited.Delete))) }
{
    begin_tag(out, "attDef")?;
    add_ident(out, ident)?;
    add_mode(out, "delete")?;
    end_empty_tag(out)
}

// Puts a definition of an attribute.
fn add_definition(out: &mut Text, ident: &Text, def: &AttDef) -> Result<(), NoMemory>
    ensures { OnOk result (out.new ≡ out.old ++ printed (set_markup ident.now def.now)) }
{
    begin_tag(out, "attDef")?;
    add_definition_said(out, ident, def)?;
    if is_bare_definition(def) {
        return end_empty_tag(out);
    }
    end_start_tag(out)?;
    add_alt(out, def.alt.as_ref())?;
    add_datatype(out, def.datatype.as_ref())?;
    add_values(out, def.vals.as_ref())?;
    add_end_tag(out, "attDef")
}

fn add_definition_said(out: &mut Text, ident: &Text, def: &AttDef) -> Result<(), NoMemory>
    ensures { OnOk result (out.new ≡ out.old ++ said_printed (ident_said ident.now ∷ mode_said (codes "add") ∷ says (codes "usage") (usage_value def.now.needed) ∷ ns_said def.now.ns ∷ [])) }
{
    add_ident(out, ident)?;
    add_mode(out, "add")?;
    add_usage(out, def.needed)?;
    add_ns(out, def.ns.as_ref())
}

// Whether nothing stands in a definition.
fn is_bare_definition(def: &AttDef) -> bool
    ensures { IsTrue result ↔ (present (alt_markup def.now.alt ∷ option_map datatype_markup def.now.datatype ∷ option_map list_markup def.now.vals ∷ []) ≡ []) }
{
    def.alt.is_none() && def.datatype.is_none() && def.vals.is_none()
}

// Puts a change of an attribute.
fn add_change(out: &mut Text, ident: &Text, fields: &AttFields) -> Result<(), NoMemory>
    ensures { OnOk result (out.new ≡ out.old ++ printed (change_markup ident.now fields.now)) }
{
    begin_tag(out, "attDef")?;
    add_change_said(out, ident, fields)?;
    if is_bare_change(fields) {
        return end_empty_tag(out);
    }
    end_start_tag(out)?;
    add_alt(out, fields.alt.as_ref())?;
    add_datatype(out, fields.datatype.as_ref())?;
    add_values_edit(out, fields.vals.as_ref())?;
    add_end_tag(out, "attDef")
}

fn add_change_said(out: &mut Text, ident: &Text, fields: &AttFields) -> Result<(), NoMemory>
    ensures { OnOk result (out.new ≡ out.old ++ said_printed (ident_said ident.now ∷ mode_said (codes "change") ∷ says_if (codes "usage") (option_map usage_value fields.now.needed) ∷ ns_said fields.now.ns ∷ [])) }
{
    add_ident(out, ident)?;
    add_mode(out, "change")?;
    add_usage_if(out, fields.needed)?;
    add_ns(out, fields.ns.as_ref())
}

// Whether nothing stands in a change.
fn is_bare_change(fields: &AttFields) -> bool
    ensures { IsTrue result ↔ (present (alt_markup fields.now.alt ∷ option_map datatype_markup fields.now.datatype ∷ option_map vals_markup fields.now.vals ∷ []) ≡ []) }
{
    fields.alt.is_none() && fields.datatype.is_none() && fields.vals.is_none()
}

// Puts whether an element has to have the attribute.
fn add_usage(out: &mut Text, needed: bool) -> Result<(), NoMemory>
    ensures { OnOk result (out.new ≡ out.old ++ said_printed (says (codes "usage") (usage_value needed) ∷ [])) }
{
    add_attribute(out, "usage", if needed { "req" } else { "opt" })
}

// The same, where it is given.
fn add_usage_if(out: &mut Text, needed: Option<bool>) -> Result<(), NoMemory>
    ensures { OnOk result (out.new ≡ out.old ++ said_printed (says_if (codes "usage") (option_map usage_value needed) ∷ [])) }
{
    match needed {
        Some(needed) => add_usage(out, needed),
        None => Ok(()),
    }
}

// Puts a datatype, where there is one.
fn add_datatype(out: &mut Text, datatype: Option<&Datatype>) -> Result<(), NoMemory>
    ensures { OnOk result (out.new ≡ out.old ++ elements_printed (present (option_map datatype_markup (option_copied datatype.entry) ∷ []))) }
{
    let Some(datatype) = datatype else {
        return Ok(());
    };
    add_one_datatype(out, datatype)
}

fn add_one_datatype(out: &mut Text, datatype: &Datatype) -> Result<(), NoMemory>
    ensures { OnOk result (out.new ≡ out.old ++ printed (datatype_markup datatype.now)) }
{
    begin_tag(out, "datatype")?;
    add_bounds(out, datatype.bounds)?;
    end_start_tag(out)?;
    add_item(out, &datatype.item)?;
    add_end_tag(out, "datatype")
}

// Puts a list of values, where there is one.
fn add_values(out: &mut Text, list: Option<&ValList>) -> Result<(), NoMemory>
    ensures { OnOk result (out.new ≡ out.old ++ elements_printed (present (option_map list_markup (option_copied list.entry) ∷ []))) }
{
    match list {
        Some(list) => add_list(out, list),
        None => Ok(()),
    }
}

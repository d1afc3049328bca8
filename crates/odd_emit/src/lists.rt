ghost use Rattle.std.specs.Prelude.{◌≡◌, [], ◌∷◌, ◌++◌, map, OnOk, codes};
ghost use Rattle.std.specs.Option.{option_copied, option_map};
ghost use Rattle.odd_tree.specs.Markup.{printed};
ghost use Rattle.odd_attributes.specs.declared.val_edit.ValEdit.TheVariants as listed;
ghost use Rattle.odd_emit.specs.Attributes.{kind_value, mark_markup, mark_word, vals_markup};
ghost use Rattle.odd_emit.specs.Contents.{mode_said};
ghost use Rattle.odd_emit.specs.Saying.{elements_printed, present, said_printed, says_if};

use crate::data::{add_list, add_type};
use crate::saying::{add_ident, add_mode};
use odd_attributes::{ValEdit, ValueMarks};
use odd_printing::{add_end_tag, begin_tag, end_empty_tag, end_start_tag};
use odd_text::{NoMemory, Text};
use rng_types::ListKind;

/// Puts an edit of a list of values, where there is one.
pub fn add_values_edit(out: &mut Text, edit: Option<&ValEdit>) -> Result<(), NoMemory>
    ensures { OnOk result (out.new ≡ out.old ++ elements_printed (present (option_map vals_markup (option_copied edit.entry) ∷ []))) }
{
    match edit {
        Some(edit) => add_list_edit(out, edit),
        None => Ok(()),
    }
}

fn add_list_edit(out: &mut Text, edit: &ValEdit) -> Result<(), NoMemory>
    ensures { OnOk result (out.new ≡ out.old ++ printed (vals_markup edit.now)) }
{
    match edit {
        ValEdit::Set(list) => add_list(out, list),
        ValEdit::Change { kind, marks } => add_list_change(out, *kind, marks),
        ValEdit::Delete => add_list_deletion(out),
    }
}

fn add_list_deletion(out: &mut Text) -> Result<(), NoMemory>
    ensures { OnOk result (out.new ≡ out.old ++ printed (vals_markup listed.Delete)) }
{
    begin_tag(out, "valList")?;
    add_mode(out, "delete")?;
    end_empty_tag(out)
}

fn add_list_change(
    out: &mut Text,
    kind: Option<ListKind>,
    marks: &ValueMarks,
) -> Result<(), NoMemory>
    ensures { OnOk result (out.new ≡ out.old ++ printed (vals_markup (listed.Change kind marks.now))) }
{
    begin_tag(out, "valList")?;
    add_type_if(out, kind)?;
    add_mode(out, "change")?;
    if marks.is_empty() {
        return end_empty_tag(out);
    }
    end_start_tag(out)?;
    add_marks(out, marks)?;
    add_end_tag(out, "valList")
}

// Puts the type of a list of values, where it is given.
fn add_type_if(out: &mut Text, kind: Option<ListKind>) -> Result<(), NoMemory>
    ensures { OnOk result (out.new ≡ out.old ++ said_printed (says_if (codes "type") (kind_value kind) ∷ [])) }
{
    match kind {
        Some(kind) => add_type(out, kind),
        None => Ok(()),
    }
}

fn add_marks(out: &mut Text, marks: &ValueMarks) -> Result<(), NoMemory>
    ensures { OnOk result (out.new ≡ out.old ++ elements_printed (map mark_markup marks.now)) }
{
    for (value, added) in marks.entries() {
        add_mark(out, value, *added)?;
    }
    Ok(())
}

fn add_mark(out: &mut Text, value: &Text, added: bool) -> Result<(), NoMemory>
    ensures { OnOk result (out.new ≡ out.old ++ printed (mark_markup (value.now, added))) }
{
    begin_tag(out, "valItem")?;
    add_ident(out, value)?;
    add_mark_mode(out, added)?;
    end_empty_tag(out)
}

// Puts whether a value is put in or taken out.
fn add_mark_mode(out: &mut Text, added: bool) -> Result<(), NoMemory>
    ensures { OnOk result (out.new ≡ out.old ++ said_printed (mode_said (mark_word added) ∷ [])) }
{
    add_mode(out, if added { "add" } else { "delete" })
}

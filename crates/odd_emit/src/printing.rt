ghost use Rattle.std.specs.Prelude.{◌≡◌, ◌↔◌, [], ◌∷◌, ◌++◌, map, IfOk, IsTrue, OnOk, codes};
ghost use Rattle.odd_tree.specs.Markup.{printed};
ghost use Rattle.odd_forms.specs.Names.{tei_namespace};
ghost use Rattle.odd_emit.specs.Attributes.{ident_said};
ghost use Rattle.odd_emit.specs.Components.{entry_markup, merged_odd, schema_markup};
ghost use Rattle.odd_emit.specs.Saying.{a_text, elements_printed, said_printed, says, some_names};

use crate::components::add_component;
use crate::saying::{add_ident, add_names};
use odd_forms::TEI;
use odd_library::{Library, Parts};
use odd_printing::{
    add_attribute, add_declaration, add_end_tag, begin_tag, end_empty_tag, end_start_tag,
};
use odd_text::{NoMemory, Text};
use std::alloc::Global;

/// The text of the merged ODD that stands for the files of a library (docs/merged-odd.md): one `schemaSpec` with a declaration
/// for each component. Edits of attributes stay edits. The only error is NoMemory, for want of memory.
pub fn print_odd(alloc: Global, library: &Library) -> Result<Text, NoMemory>
    ensures text { IfOk result (λ text. text ≡ merged_odd library.now) }
{
    let mut out = Text::new(alloc);
    add_declaration(&mut out)?;
    add_schema(&mut out, alloc, library)?;
    Ok(out)
}

fn add_schema(out: &mut Text, alloc: Global, library: &Library) -> Result<(), NoMemory>
    ensures { OnOk result (out.new ≡ out.old ++ printed (schema_markup library.now)) }
{
    begin_tag(out, "schemaSpec")?;
    add_schema_said(out, alloc, library)?;
    if has_none(&library.parts) {
        return end_empty_tag(out);
    }
    end_start_tag(out)?;
    add_components(out, alloc, &library.parts)?;
    add_end_tag(out, "schemaSpec")
}

fn has_none(parts: &Parts) -> bool
    ensures { IsTrue result ↔ (parts.now ≡ []) }
{
    parts.entries().is_empty()
}

fn add_schema_said(out: &mut Text, alloc: Global, library: &Library) -> Result<(), NoMemory>
    ensures { OnOk result (out.new ≡ out.old ++ said_printed (says (codes "xmlns") (a_text tei_namespace) ∷ ident_said library.now.ident ∷ says (codes "start") (some_names library.now.start) ∷ [])) }
{
    add_root_namespace(out)?;
    add_ident(out, &library.ident)?;
    add_names(out, alloc, "start", &library.start)
}

fn add_root_namespace(out: &mut Text) -> Result<(), NoMemory>
    ensures { OnOk result (out.new ≡ out.old ++ said_printed (says (codes "xmlns") (a_text tei_namespace) ∷ [])) }
{
    add_attribute(out, "xmlns", TEI)
}

fn add_components(out: &mut Text, alloc: Global, parts: &Parts) -> Result<(), NoMemory>
    ensures { OnOk result (out.new ≡ out.old ++ elements_printed (map entry_markup parts.now)) }
{
    for (key, part) in parts.entries() {
        add_component(out, alloc, &key.ident, part)?;
    }
    Ok(())
}

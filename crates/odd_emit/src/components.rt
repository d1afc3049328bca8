ghost use Rattle.std.specs.Prelude.{◌≡◌, ◌↔◌, [], ◌∷◌, ◌++◌, map, IsTrue, OnOk, codes};
ghost use Rattle.odd_tree.specs.Markup.{printed};
ghost use Rattle.odd_emit.specs.Attributes.{edits_markup, ident_said};
ghost use Rattle.odd_emit.specs.Components.{class_markup, classes_markup, component_markup, element_markup, member_markup, module_said, ns_value, other_markup, type_word};
ghost use Rattle.odd_emit.specs.Contents.{mode_said};
ghost use Rattle.odd_emit.specs.Saying.{a_word, elements_printed, present, said_printed, says, says_if};

use crate::attributes::add_edits;
use crate::contents::add_content;
use crate::saying::{add_alt, add_ident, add_key, add_mode};
use odd_forms::TEI;
use odd_library::{ClassPart, Component, ElementPart, OtherPart};
use odd_printing::{add_attribute, add_end_tag, begin_tag, end_empty_tag, end_start_tag};
use odd_text::{NoMemory, Text, Words};
use std::alloc::Global;

/// Puts a component of a library, as the declaration that adds it.
pub fn add_component(
    out: &mut Text,
    alloc: Global,
    ident: &Text,
    part: &Component,
) -> Result<(), NoMemory>
    ensures { OnOk result (out.new ≡ out.old ++ printed (component_markup ident.now part.now)) }
{
    match part {
        Component::Element(part) => add_element(out, alloc, ident, part),
        Component::Class(part) => add_class(out, ident, part),
        Component::Macro(part) => add_other(out, alloc, "macroSpec", ident, part),
        Component::Datatype(part) => add_other(out, alloc, "dataSpec", ident, part),
    }
}

fn add_element(
    out: &mut Text,
    alloc: Global,
    ident: &Text,
    part: &ElementPart,
) -> Result<(), NoMemory>
    ensures { OnOk result (out.new ≡ out.old ++ printed (element_markup ident.now part.now)) }
{
    begin_tag(out, "elementSpec")?;
    add_declared(out, ident, &part.module)?;
    add_namespace(out, &part.ns)?;
    end_start_tag(out)?;
    add_alt(out, part.alt.as_ref())?;
    add_classes(out, &part.classes)?;
    add_content(out, alloc, &part.content)?;
    add_edits(out, &part.atts)?;
    add_end_tag(out, "elementSpec")
}

fn add_class(out: &mut Text, ident: &Text, part: &ClassPart) -> Result<(), NoMemory>
    ensures { OnOk result (out.new ≡ out.old ++ printed (class_markup ident.now part.now)) }
{
    begin_tag(out, "classSpec")?;
    add_class_said(out, ident, part)?;
    if is_bare_class(part) {
        return end_empty_tag(out);
    }
    end_start_tag(out)?;
    add_classes(out, &part.classes)?;
    add_edits(out, &part.atts)?;
    add_end_tag(out, "classSpec")
}

fn add_class_said(out: &mut Text, ident: &Text, part: &ClassPart) -> Result<(), NoMemory>
    ensures { OnOk result (out.new ≡ out.old ++ said_printed (ident_said ident.now ∷ says (codes "type") (a_word (type_word part.now.gives)) ∷ module_said part.now.«module» ∷ mode_said (codes "add") ∷ [])) }
{
    add_ident(out, ident)?;
    add_class_type(out, part.gives)?;
    add_module(out, &part.module)?;
    add_mode(out, "add")
}

// Whether nothing stands in the declaration of a class.
fn is_bare_class(part: &ClassPart) -> bool
    ensures { IsTrue result ↔ (present (classes_markup part.now.classes ∷ edits_markup part.now.atts ∷ []) ≡ []) }
{
    part.classes.is_empty() && part.atts.is_empty()
}

// Puts a macro or a datatype.
fn add_other(
    out: &mut Text,
    alloc: Global,
    name: &str,
    ident: &Text,
    part: &OtherPart,
) -> Result<(), NoMemory>
    ensures { OnOk result (out.new ≡ out.old ++ printed (other_markup name.now ident.now part.now)) }
{
    begin_tag(out, name)?;
    add_declared(out, ident, &part.module)?;
    end_start_tag(out)?;
    add_content(out, alloc, &part.content)?;
    add_end_tag(out, name)
}

// Puts the ident and the module of a component that is added.
fn add_declared(out: &mut Text, ident: &Text, module_name: &Text) -> Result<(), NoMemory>
    ensures { OnOk result (out.new ≡ out.old ++ said_printed (ident_said ident.now ∷ module_said module_name.now ∷ mode_said (codes "add") ∷ [])) }
{
    add_ident(out, ident)?;
    add_module(out, module_name)?;
    add_mode(out, "add")
}

// Puts a module, unless it is empty.
fn add_module(out: &mut Text, name: &Text) -> Result<(), NoMemory>
    ensures { OnOk result (out.new ≡ out.old ++ said_printed (module_said name.now ∷ [])) }
{
    if name.as_str().is_empty() {
        return Ok(());
    }
    add_attribute(out, "module", name.as_str())
}

// Puts the namespace of an element, unless it is TEI's.
fn add_namespace(out: &mut Text, ns: &Text) -> Result<(), NoMemory>
    ensures { OnOk result (out.new ≡ out.old ++ said_printed (says_if (codes "ns") (ns_value ns.now) ∷ [])) }
{
    if ns.as_str() == TEI {
        return Ok(());
    }
    add_attribute(out, "ns", ns.as_str())
}

// Puts the type of a class.
fn add_class_type(out: &mut Text, gives: bool) -> Result<(), NoMemory>
    ensures { OnOk result (out.new ≡ out.old ++ said_printed (says (codes "type") (a_word (type_word gives)) ∷ [])) }
{
    add_attribute(out, "type", if gives { "atts" } else { "model" })
}

// Puts the classes that a component is a member of, where there is one.
fn add_classes(out: &mut Text, classes: &Words) -> Result<(), NoMemory>
    ensures { OnOk result (out.new ≡ out.old ++ elements_printed (present (classes_markup classes.now ∷ []))) }
{
    if classes.is_empty() {
        return Ok(());
    }
    begin_tag(out, "classes")?;
    add_mode(out, "replace")?;
    end_start_tag(out)?;
    add_members(out, classes)?;
    add_end_tag(out, "classes")
}

fn add_members(out: &mut Text, classes: &Words) -> Result<(), NoMemory>
    ensures { OnOk result (out.new ≡ out.old ++ elements_printed (map member_markup classes.now)) }
{
    for key in classes.as_slice() {
        add_member(out, key)?;
    }
    Ok(())
}

fn add_member(out: &mut Text, key: &Text) -> Result<(), NoMemory>
    ensures { OnOk result (out.new ≡ out.old ++ printed (member_markup key.now)) }
{
    begin_tag(out, "memberOf")?;
    add_key(out, key)?;
    end_empty_tag(out)
}

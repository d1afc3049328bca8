ghost use Rattle.std.specs.Prelude.{◌≡◌, ◌++◌, flat_map, IfOk, OnOk, sum_by};
ghost use Rattle.odd_text.specs.Sorted.{AreRising};
ghost use Rattle.odd_content.specs.ConditionOrder.{condition_cmp};
ghost use Rattle.compile_defines.specs.Budget.{HasTaken, IsMadeWithin};
ghost use Rattle.compile_defines.specs.Contents.{listed_in};
ghost use Rattle.compile_defines.specs.Blocks.{class_defines, component_defines, datatype_defines, element_defines, macro_defines};
ghost use Rattle.compile_defines.specs.Compiled.{class_define as the_class_define, datatype_define as the_datatype_define, element_define as the_element_define, macro_define as the_macro_define, offers_in, offers_of};
ghost use Rattle.odd_classes.specs.Offered.{AreOffersIn};
ghost use Rattle.compile_defines.specs.Elements.{define_elements};

use crate::rules::rules_of;
use crate::{
    Budget, Conditions, MakeRefusal, class_name, content_pattern, data_pattern, datatype_name,
    define_name, macro_name, references_pattern,
};
use odd_classes::{MemberTable, OfferTable};
use odd_library::{Component, ElementPart, Library, OtherPart};
use odd_offers::Givens;
use odd_text::{Key, Kind, Name, Text, TryCopy, Words};
use rng_grammar::{AttrPart, Body, Define, Defines, NameClass};
use std::alloc::Global;

/// The defines of a library in order of name, after those of its conditions: of its classes of type `model`, whose members
/// these are, of its datatypes, of its elements and of its macros. The elements of those that are added are taken of the budget.
///
/// TooLarge comes where these have more elements than are left, before more than these are made. NoMemory is answered for want
/// of memory. What is left of the budget after an error is not said.
pub fn library_defines(
    alloc: Global,
    before: Defines,
    library: &Library,
    conditions: &Conditions,
    members: &MemberTable,
    offers: &OfferTable,
    budget: &mut Budget,
) -> Result<Defines, MakeRefusal>
    requires rising { AreRising condition_cmp conditions.now }
    requires offers { AreOffersIn library.now offers.now }
    ensures defines { IfOk result (λ defines. defines ≡ before ++ component_defines library.now conditions.now (listed_in members.now) (offers_in offers.now)) }
    ensures taken { HasTaken (sum_by define_elements (component_defines library.now conditions.now (listed_in members.now) (offers_in offers.now))) budget.old budget.new result }
{
    let mut defines = before;
    add_classes(alloc, &mut defines, library, members, budget)?;
    add_datatypes(alloc, &mut defines, library, budget)?;
    add_elements(
        alloc,
        &mut defines,
        library,
        conditions,
        members,
        offers,
        budget,
    )?;
    add_macros(alloc, &mut defines, library, conditions, members, budget)?;
    Ok(defines)
}

// Puts the defines of the classes at the end.
fn add_classes(
    alloc: Global,
    defines: &mut Defines,
    library: &Library,
    members: &MemberTable,
    budget: &mut Budget,
) -> Result<(), MakeRefusal>
    ensures pushed { OnOk result (defines.new ≡ defines.old ++ flat_map (class_defines (listed_in members.now)) library.now.parts) }
    ensures taken { HasTaken (sum_by define_elements (flat_map (class_defines (listed_in members.now)) library.now.parts)) budget.old budget.new result }
{
    for (key, _) in library.parts.entries() {
        if key.kind != Kind::Class {
            continue;
        }
        if let Some(idents) = members.of(&key.ident) {
            defines.push(class_define(alloc, &key.ident, idents, budget)?)?;
        }
    }
    Ok(())
}

// Puts the defines of the datatypes at the end.
fn add_datatypes(
    alloc: Global,
    defines: &mut Defines,
    library: &Library,
    budget: &mut Budget,
) -> Result<(), MakeRefusal>
    ensures pushed { OnOk result (defines.new ≡ defines.old ++ flat_map datatype_defines library.now.parts) }
    ensures taken { HasTaken (sum_by define_elements (flat_map datatype_defines library.now.parts)) budget.old budget.new result }
{
    for (key, part) in library.parts.entries() {
        if let (Kind::Datatype, Component::Datatype(part)) = (key.kind, part) {
            defines.push(datatype_define(alloc, &key.ident, part, budget)?)?;
        }
    }
    Ok(())
}

// Puts the defines of the elements at the end.
fn add_elements(
    alloc: Global,
    defines: &mut Defines,
    library: &Library,
    conditions: &Conditions,
    members: &MemberTable,
    offers: &OfferTable,
    budget: &mut Budget,
) -> Result<(), MakeRefusal>
    requires rising { AreRising condition_cmp conditions.now }
    requires offers { AreOffersIn library.now offers.now }
    ensures pushed { OnOk result (defines.new ≡ defines.old ++ flat_map (element_defines library.now conditions.now (listed_in members.now) (offers_in offers.now)) library.now.parts) }
    ensures taken { HasTaken (sum_by define_elements (flat_map (element_defines library.now conditions.now (listed_in members.now) (offers_in offers.now)) library.now.parts)) budget.old budget.new result }
{
    for (key, part) in library.parts.entries() {
        let (Kind::Element, Component::Element(part)) = (key.kind, part) else {
            continue;
        };
        let ident = &key.ident;
        let Some(givens) = offers.of(ident) else {
            unreachable!()
        };
        let define = element_define(
            alloc, library, conditions, members, givens, ident, part, budget,
        )?;
        defines.push(define)?;
    }
    Ok(())
}

// Puts the defines of the macros at the end.
fn add_macros(
    alloc: Global,
    defines: &mut Defines,
    library: &Library,
    conditions: &Conditions,
    members: &MemberTable,
    budget: &mut Budget,
) -> Result<(), MakeRefusal>
    requires { AreRising condition_cmp conditions.now }
    ensures pushed { OnOk result (defines.new ≡ defines.old ++ flat_map (macro_defines library.now conditions.now (listed_in members.now)) library.now.parts) }
    ensures taken { HasTaken (sum_by define_elements (flat_map (macro_defines library.now conditions.now (listed_in members.now)) library.now.parts)) budget.old budget.new result }
{
    for (key, part) in library.parts.entries() {
        if let (Kind::Macro, Component::Macro(part)) = (key.kind, part) {
            let ident = &key.ident;
            let define = macro_define(alloc, library, conditions, members, ident, part, budget)?;
            defines.push(define)?;
        }
    }
    Ok(())
}

// The define of a class with these members.
fn class_define(
    alloc: Global,
    ident: &Text,
    members: &Words,
    budget: &mut Budget,
) -> Result<Define, MakeRefusal>
    ensures { IsMadeWithin define_elements (the_class_define ident.now members.now) budget.old budget.new result }
{
    let name = class_name(alloc, ident)?;
    budget.take(1)?;
    let body = Body::Part(references_pattern(alloc, members, budget)?);
    Ok(Define { name, body })
}

// The define of an element, which holds an `element`.
fn element_define(
    alloc: Global,
    library: &Library,
    conditions: &Conditions,
    members: &MemberTable,
    givens: &Givens,
    ident: &Text,
    part: &ElementPart,
    budget: &mut Budget,
) -> Result<Define, MakeRefusal>
    requires { AreRising condition_cmp conditions.now }
    ensures { IsMadeWithin define_elements (the_element_define library.now conditions.now (listed_in members.now) (offers_of givens.now) ident.now part.now) budget.old budget.new result }
{
    let name = define_name(alloc, ident)?;
    let ns = part.ns.copy(alloc)?;
    let local = part.alt.as_ref().unwrap_or(ident).copy(alloc)?;
    budget.take(2)?;
    let rules = rules_of(alloc, givens, budget)?;
    let content = content_pattern(alloc, library, conditions, members, &part.content, budget)?;
    let body = Body::Element {
        names: NameClass::One(Name { ns, local }),
        attrs: AttrPart::Listed(rules),
        content,
    };
    Ok(Define { name, body })
}

// The define of a macro.
fn macro_define(
    alloc: Global,
    library: &Library,
    conditions: &Conditions,
    members: &MemberTable,
    ident: &Text,
    part: &OtherPart,
    budget: &mut Budget,
) -> Result<Define, MakeRefusal>
    requires { AreRising condition_cmp conditions.now }
    ensures { IsMadeWithin define_elements (the_macro_define library.now conditions.now (listed_in members.now) ident.now part.now) budget.old budget.new result }
{
    let name = macro_name(alloc, ident)?;
    budget.take(1)?;
    let content = content_pattern(alloc, library, conditions, members, &part.content, budget)?;
    Ok(Define {
        name,
        body: Body::Part(content),
    })
}

// The define of a datatype.
fn datatype_define(
    alloc: Global,
    ident: &Text,
    part: &OtherPart,
    budget: &mut Budget,
) -> Result<Define, MakeRefusal>
    ensures { IsMadeWithin define_elements (the_datatype_define ident.now part.now) budget.old budget.new result }
{
    let name = datatype_name(alloc, ident)?;
    budget.take(1)?;
    let content = data_pattern(alloc, &part.content, budget)?;
    Ok(Define {
        name,
        body: Body::Part(content),
    })
}

ghost use Rattle.std.specs.Prelude.{◌≡◌, IfOk, None};
ghost use Rattle.std.specs.Option.{IfSome};
ghost use Rattle.odd_forms.specs.Children.{ChildOfFault, GivesOne};
ghost use Rattle.odd_text.specs.Least.{Among, IsLeast};
ghost use Rattle.odd_forms.specs.declared.element.Element.TheVariants as the_element;
ghost use Rattle.odd_tree.specs.Elements.{children_of};
ghost use Rattle.odd_library.specs.FormedMembers.{IsFormedMembership};
ghost use Rattle.odd_library.specs.Members.{ClassesFault, IsMembershipOf, IsSetOf, SaysEachClass, adds as the_adds, is_change as the_is_change, marks_of as the_marks_of, membership_of as the_membership_of};

use crate::membership::{ClassMarks, Membership};
use odd_forms::{Element, LEVELS, child_of_kind, deep_fault, is_child, is_one_of};
use odd_overlay::{map_of, words_laid};
use odd_text::{NoMemory, TryCopy, Words, lesser};
use odd_tree::{Tree, attribute, elements};
use std::alloc::Global;
use std::collections::BTreeMap;

/// What the `classes` of a declaration give, and the least rule that they break.
#[derive(Drop)]
pub struct ReadClasses {
    pub classes: Option<Membership>,
    pub fault: Option<u8>,
}

/// What the `classes` of a declaration of this form give, and the least rule that they break. The only error is NoMemory, for
/// want of memory.
pub fn read_classes(alloc: Global, form: Element, spec: &Tree) -> Result<ReadClasses, NoMemory>
    ensures fault { IfOk result (λ read. IsLeast (Among (ChildOfFault form the_element.Classes ClassesFault) (children_of spec.now)) read.fault) }
    ensures classes { IfOk result (λ read. GivesOne form the_element.Classes IsMembershipOf (children_of spec.now) read.classes) }
    ensures each { IfOk result (λ read. GivesOne form the_element.Classes SaysEachClass (children_of spec.now) read.classes) }
    ensures formed { IfOk result (λ read. read.fault ≡ None → IfSome read.classes IsFormedMembership) }
{
    let fault = classes_fault(alloc, form, spec)?;
    let classes = classes_given(alloc, form, spec)?;
    Ok(ReadClasses { classes, fault })
}

// The least rule that the `classes` of a declaration break.
fn classes_fault(alloc: Global, form: Element, spec: &Tree) -> Result<Option<u8>, NoMemory>
    ensures { IfOk result (IsLeast (Among (ChildOfFault form the_element.Classes ClassesFault) (children_of spec.now))) }
{
    let mut least = None;
    for child in elements(spec) {
        if is_child(form, Element::Classes, child) {
            let fault = deep_fault(alloc, Element::Classes, child, LEVELS, &[])?;
            least = lesser(least, fault);
        }
    }
    Ok(least)
}

/// What the `classes` of a declaration of this form give. Of two, which the form refuses, one of them gives it. The only error
/// is NoMemory, for want of memory.
pub fn classes_given(
    alloc: Global,
    form: Element,
    spec: &Tree,
) -> Result<Option<Membership>, NoMemory>
    ensures value { IfOk result (GivesOne form the_element.Classes IsMembershipOf (children_of spec.now)) }
    ensures each { IfOk result (GivesOne form the_element.Classes SaysEachClass (children_of spec.now)) }
{
    match child_of_kind(form, Element::Classes, spec) {
        Some(classes) => Ok(Some(membership_of(alloc, classes)?)),
        None => Ok(None),
    }
}

// What a `classes` gives.
fn membership_of(alloc: Global, classes: &Tree) -> Result<Membership, NoMemory>
    ensures value { IfOk result (λ made. made ≡ the_membership_of classes.now) }
    ensures set { IfOk result (IsSetOf (the_marks_of classes.now)) }
{
    let marks = marks_of(alloc, classes)?;
    if is_change(classes) {
        Ok(Membership::Change(marks))
    } else {
        Ok(Membership::Replace(words_laid(alloc, marks, Words::new(alloc))?))
    }
}

// The classes that the `memberOf` of a `classes` name. A tree takes them in any order, and gives them in rising order.
fn marks_of(alloc: Global, classes: &Tree) -> Result<ClassMarks, NoMemory>
    ensures { IfOk result (λ marks. marks ≡ the_marks_of classes.now) }
{
    let mut named = BTreeMap::new(alloc);
    for child in elements(classes) {
        if is_one_of(child, &["memberOf"]) {
            if let Some(key) = attribute(&child.attrs, "key") {
                named.insert(key.copy(alloc)?, adds(child))?;
            }
        }
    }
    map_of(alloc, named)
}

// Whether a `classes` changes the memberships: it replaces them, where its `mode` says nothing else.
fn is_change(classes: &Tree) -> bool
    ensures { result ≡ the_is_change classes.now }
{
    match attribute(&classes.attrs, "mode") {
        Some(word) => word.as_str() == "change",
        None => false,
    }
}

// Whether a `memberOf` adds a class: it does, where its `mode` says nothing else.
fn adds(member: &Tree) -> bool
    ensures { result ≡ the_adds member.now }
{
    match attribute(&member.attrs, "mode") {
        Some(word) => word.as_str() != "delete",
        None => true,
    }
}

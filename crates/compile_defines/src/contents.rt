ghost use Rattle.std.specs.Prelude.{◌≡◌, ◌++◌, IfOk, map};
ghost use Rattle.odd_text.specs.Sorted.{AreRising};
ghost use Rattle.odd_content.specs.ConditionOrder.{condition_cmp};
ghost use Rattle.compile_defines.specs.Contents.{class_name as the_class_name, condition_name as the_condition_name, condition_pattern as the_condition_pattern, content_pattern as the_content_pattern, define_name as the_define_name, element_pattern as the_element_pattern, holds_element as the_holds_element, holds_macro as the_holds_macro, listed_in, macro_name as the_macro_name, macro_pattern as the_macro_pattern, members_pattern as the_members_pattern, number_of as the_number_of, reference, references_pattern as the_references_pattern};
ghost use Rattle.compile_defines.specs.Budget.{IsMadeWithin, joined_elements, pattern_elements};
ghost use Rattle.compile_defines.specs.Data.{datatype_name as the_datatype_name};
ghost use Rattle.compile_defines.specs.Parts.{bounds_of as the_bounds_of, is_never as the_is_never, part_pattern as the_part_pattern};

use crate::budget::{Budget, MakeRefusal};
use crate::conditions::Conditions;
use crate::data::{item_pattern, list_pattern};
use crate::repeating::{choice_pattern, group_pattern, repeated};
use crate::words::picked;
use itoa::Buffer;
use odd_classes::MemberTable;
use odd_content::{Condition, Content, Contents, Pick};
use odd_library::{Component, Library};
use odd_text::{Kind, NoMemory, Text, Words};
use rng_grammar::{Expr, Exprs};
use rng_types::Bounds;
use std::alloc::Global;

/// The pattern of a content in the schema of a library, whose conditions these are, in rising order, and of whose classes these
/// are the members. Its elements are taken of the budget.
///
/// TooLarge comes where it has more elements than are left, before more than these are made. NoMemory is answered for want of
/// memory. What is left of the budget after an error is not said.
#[cycle(content_pattern)]
pub fn content_pattern(
    alloc: Global,
    library: &Library,
    conditions: &Conditions,
    members: &MemberTable,
    content: &Content,
    budget: &mut Budget,
) -> Result<Expr, MakeRefusal>
    requires { AreRising condition_cmp conditions.now }
    ensures { IsMadeWithin pattern_elements (the_content_pattern library.now conditions.now (listed_in members.now) content.now) budget.old budget.new result }
{
    let bounds = bounds_of(content);
    if is_never(bounds) {
        return single(Expr::Empty, budget);
    }
    let had = budget.left;
    let part = part_pattern(alloc, library, conditions, members, content, budget)?;
    let elements = had - budget.left;
    budget.left = had;
    repeated(alloc, part, elements, bounds, budget)
}

// How often the part of a content stands.
fn bounds_of(content: &Content) -> Bounds
    ensures { result ≡ the_bounds_of content.now }
{
    match content {
        Content::Empty | Content::Text | Content::Value(_) | Content::Vals(_) => Bounds {
            min: 1,
            max: Some(1),
        },
        Content::Element { bounds, .. }
        | Content::Class { bounds, .. }
        | Content::Macro { bounds, .. }
        | Content::Any { bounds, .. }
        | Content::Sequence { bounds, .. }
        | Content::Alternate { bounds, .. } => *bounds,
    }
}

/// Whether a part stands at no time, so that its pattern is `empty` whatever it is. None is made of it then, as it may be
/// larger than any schema.
pub fn is_never(bounds: Bounds) -> bool
    ensures { result ≡ the_is_never bounds }
{
    matches!((bounds.min, bounds.max), (0, Some(0)))
}

// A pattern of one element.
fn single(pattern: Expr, budget: &mut Budget) -> Result<Expr, MakeRefusal>
    requires { pattern_elements pattern ≡ 1 }
    ensures { IsMadeWithin pattern_elements pattern budget.old budget.new result }
{
    budget.take(1)?;
    Ok(pattern)
}

// The pattern of what a content says may stand, however often.
#[cycle(content_pattern)]
fn part_pattern(
    alloc: Global,
    library: &Library,
    conditions: &Conditions,
    members: &MemberTable,
    content: &Content,
    budget: &mut Budget,
) -> Result<Expr, MakeRefusal>
    requires { AreRising condition_cmp conditions.now }
    ensures { IsMadeWithin pattern_elements (the_part_pattern library.now conditions.now (listed_in members.now) content.now) budget.old budget.new result }
{
    match content {
        Content::Empty => single(Expr::Empty, budget),
        Content::Text => single(Expr::Text, budget),
        Content::Value(item) => item_pattern(alloc, item, budget),
        Content::Vals(list) => list_pattern(alloc, list, budget),
        Content::Element { key, .. } => element_pattern(alloc, library, key, budget),
        Content::Class { key, pick, .. } => members_pattern(alloc, members, key, pick, budget),
        Content::Macro { key, .. } => macro_pattern(alloc, library, key, budget),
        Content::Any { condition, .. } => condition_pattern(alloc, conditions, condition, budget),
        Content::Sequence { parts, .. } => {
            let patterns = part_patterns(alloc, library, conditions, members, parts, budget)?;
            Ok(group_pattern(patterns))
        }
        Content::Alternate { parts, .. } => {
            let patterns = part_patterns(alloc, library, conditions, members, parts, budget)?;
            Ok(choice_pattern(patterns))
        }
    }
}

// The patterns of some parts. The element of a group or a choice of them is taken too.
#[cycle(content_pattern)]
fn part_patterns(
    alloc: Global,
    library: &Library,
    conditions: &Conditions,
    members: &MemberTable,
    parts: &Contents,
    budget: &mut Budget,
) -> Result<Exprs, MakeRefusal>
    requires { AreRising condition_cmp conditions.now }
    ensures { IsMadeWithin joined_elements (map (the_content_pattern library.now conditions.now (listed_in members.now)) parts.now) budget.old budget.new result }
{
    let mut made = Exprs::new(alloc);
    for part in parts.as_slice() {
        made.push(content_pattern(alloc, library, conditions, members, part, budget)?)?;
    }
    budget.take_joint(made.len())?;
    Ok(made)
}

// The pattern of an element by its ident.
fn element_pattern(
    alloc: Global,
    library: &Library,
    ident: &Text,
    budget: &mut Budget,
) -> Result<Expr, MakeRefusal>
    ensures { IsMadeWithin pattern_elements (the_element_pattern library.now ident.now) budget.old budget.new result }
{
    if holds_element(library, ident) {
        single(Expr::Ref(define_name(alloc, ident)?), budget)
    } else {
        single(Expr::NotAllowed, budget)
    }
}

// The pattern of a macro by its ident.
fn macro_pattern(
    alloc: Global,
    library: &Library,
    ident: &Text,
    budget: &mut Budget,
) -> Result<Expr, MakeRefusal>
    ensures { IsMadeWithin pattern_elements (the_macro_pattern library.now ident.now) budget.old budget.new result }
{
    if holds_macro(library, ident) {
        single(Expr::Ref(macro_name(alloc, ident)?), budget)
    } else {
        single(Expr::NotAllowed, budget)
    }
}

/// Whether a library holds an element of the ident.
pub fn holds_element(library: &Library, ident: &Text) -> bool
    ensures { result ≡ the_holds_element library.now ident.now }
{
    matches!(
        library.find_by(Kind::Element, ident),
        Some(Component::Element(_))
    )
}

// Whether a library holds a macro of the ident.
fn holds_macro(library: &Library, ident: &Text) -> bool
    ensures { result ≡ the_holds_macro library.now ident.now }
{
    matches!(
        library.find_by(Kind::Macro, ident),
        Some(Component::Macro(_))
    )
}

// The pattern of the members of a class that are picked.
fn members_pattern(
    alloc: Global,
    members: &MemberTable,
    class: &Text,
    pick: &Pick,
    budget: &mut Budget,
) -> Result<Expr, MakeRefusal>
    ensures { IsMadeWithin pattern_elements (the_members_pattern class.now pick.now (listed_in members.now class.now)) budget.old budget.new result }
{
    let Some(idents) = members.of(class) else {
        return single(Expr::NotAllowed, budget);
    };
    match pick {
        Pick::All => single(Expr::Ref(class_name(alloc, class)?), budget),
        Pick::Include(_) | Pick::Except(_) => {
            references_pattern(alloc, &picked(alloc, idents, pick)?, budget)
        }
    }
}

// The pattern of the elements that meet a condition.
fn condition_pattern(
    alloc: Global,
    conditions: &Conditions,
    condition: &Condition,
    budget: &mut Budget,
) -> Result<Expr, MakeRefusal>
    requires { AreRising condition_cmp conditions.now }
    ensures { IsMadeWithin pattern_elements (the_condition_pattern conditions.now condition.now) budget.old budget.new result }
{
    let name = condition_name(alloc, conditions, condition)?;
    single(Expr::Ref(name), budget)
}

/// A choice of references to elements of these idents. Its elements are taken of the budget: one for each ident, and one more
/// where there is not one ident.
///
/// TooLarge comes where fewer are left, before a reference is made. NoMemory is answered for want of memory. What is left of the
/// budget after an error is not said.
pub fn references_pattern(
    alloc: Global,
    idents: &Words,
    budget: &mut Budget,
) -> Result<Expr, MakeRefusal>
    ensures { IsMadeWithin pattern_elements (the_references_pattern idents.now) budget.old budget.new result }
{
    budget.take(idents.len() as u64)?;
    budget.take_joint(idents.len())?;
    Ok(choice_pattern(references(alloc, idents)?))
}

fn references(alloc: Global, idents: &Words) -> Result<Exprs, NoMemory>
    ensures { IfOk result (λ refs. refs ≡ map reference idents.now) }
{
    let mut refs = Exprs::new(alloc);
    for ident in idents.as_slice() {
        refs.push(Expr::Ref(define_name(alloc, ident)?))?;
    }
    Ok(refs)
}

/// The name of an element's define.
pub fn define_name(alloc: Global, ident: &Text) -> Result<Text, NoMemory>
    ensures { IfOk result (λ name. name ≡ the_define_name ident.now) }
{
    prefixed(alloc, "e.", ident)
}

/// The name of the define of a class. The only error is NoMemory, for want of memory.
pub fn class_name(alloc: Global, ident: &Text) -> Result<Text, NoMemory>
    ensures { IfOk result (λ name. name ≡ the_class_name ident.now) }
{
    prefixed(alloc, "c.", ident)
}

/// The name of the define of a macro. The only error is NoMemory, for want of memory.
pub fn macro_name(alloc: Global, ident: &Text) -> Result<Text, NoMemory>
    ensures { IfOk result (λ name. name ≡ the_macro_name ident.now) }
{
    prefixed(alloc, "m.", ident)
}

/// The name of the define of a datatype. The only error is NoMemory, for want of memory.
pub fn datatype_name(alloc: Global, ident: &Text) -> Result<Text, NoMemory>
    ensures { IfOk result (λ name. name ≡ the_datatype_name ident.now) }
{
    prefixed(alloc, "d.", ident)
}

// An ident after a prefix.
fn prefixed(alloc: Global, prefix: &str, ident: &Text) -> Result<Text, NoMemory>
    ensures { IfOk result (λ name. name ≡ prefix.now ++ ident.now) }
{
    let mut name = Text::from_str(alloc, prefix)?;
    name.push_str(ident.as_str())?;
    Ok(name)
}

/// The name of the define of a condition among conditions in rising order: its number from 1.
pub fn condition_name(
    alloc: Global,
    conditions: &Conditions,
    condition: &Condition,
) -> Result<Text, NoMemory>
    requires { AreRising condition_cmp conditions.now }
    ensures { IfOk result (λ name. name ≡ the_condition_name conditions.now condition.now) }
{
    let mut buffer = Buffer::new();
    let mut name = Text::from_str(alloc, "a.")?;
    name.push_str(buffer.format(number_of(conditions, condition)))?;
    Ok(name)
}

// The number of a condition, from 1.
fn number_of(conditions: &Conditions, condition: &Condition) -> usize
    requires { AreRising condition_cmp conditions.now }
    ensures { result ≡ the_number_of conditions.now condition.now }
{
    let conditions = conditions.as_slice();
    conditions.partition_point(|other| other.cmp(condition).is_lt()) + 1
}

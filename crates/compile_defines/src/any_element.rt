ghost use Rattle.std.specs.Prelude.{◌≡◌, ◌+◌, ℕ, List, map, filter, IfOk, sum_by};
ghost use Rattle.std.specs.List.Sorted.{IsPermutation, IsSorted, IsSortedByKey};
ghost use Rattle.odd_text.specs.Text.{text_cmp};
ghost use Rattle.odd_text.specs.Sorted.{AreRising, IsSet};
ghost use Rattle.odd_text.specs.Same.{is_same};
ghost use Rattle.odd_content.specs.ConditionOrder.{condition_cmp};
ghost use Rattle.compile_defines.specs.Budget.{HasTaken, IsMadeWithin};
ghost use Rattle.compile_defines.specs.Blocks.{IsConditionDefine};
ghost use Rattle.compile_defines.specs.Compiled.{condition_body as the_condition_body, condition_define as the_condition_define, content_throughout as the_content_throughout, define_cmp, space_part as the_space_part, spaces_left as the_spaces_left};
ghost use Rattle.compile_defines.specs.Elements.{HasTakenSet, body_elements, define_elements, excepting_elements, part_elements, throughout_elements};
ghost use Rattle.rng_grammar.specs.declared.grammar.AttrPart.TheVariants as attributes;
ghost use Rattle.rng_grammar.specs.declared.grammar.Body.TheVariants as body;

use crate::{Budget, Conditions, MakeRefusal, condition_name, those_among};
use odd_content::Condition;
use odd_text::{Name, Names, NoMemory, Text, TryCopy, Words};
use rng_grammar::{AttrPart, Body, Define, Defines, Expr, Exprs, NameClass, NsPart, NsParts};
use sqlite_items::Boxed;
use std::alloc::Global;

/// The defines of conditions, which stand in rising order, in order of name. Their elements are taken of the budget.
///
/// TooLarge comes where they have more elements than are left, before more than these are made. NoMemory is answered for want
/// of memory. What is left of the budget after an error is not said.
pub fn condition_defines(
    alloc: Global,
    conditions: &Conditions,
    budget: &mut Budget,
) -> Result<Defines, MakeRefusal>
    requires { AreRising condition_cmp conditions.now }
    ensures set { IfOk result (IsSet define_cmp (IsConditionDefine conditions.now)) }
    ensures taken { HasTakenSet (IsConditionDefine conditions.now) budget.old budget.new result }
{
    let mut defines = Defines::new(alloc);
    for condition in conditions.as_slice() {
        defines.push(condition_define(alloc, conditions, condition, budget)?)?;
    }
    Ok(by_name(alloc, defines)?)
}

// The defines in order of name.
fn by_name(alloc: Global, defines: Defines) -> Result<Defines, NoMemory>
    ensures { IfOk result (λ sorted. IsPermutation defines sorted × IsSorted define_cmp sorted) }
{
    let mut items = defines.into_items();
    items.sort_unstable_by(|one: &Define, other: &Define| one.name.cmp(&other.name));
    let mut sorted = Defines::new(alloc);
    for define in items {
        sorted.push(define)?;
    }
    Ok(sorted)
}

// The define of a condition.
fn condition_define(
    alloc: Global,
    conditions: &Conditions,
    condition: &Condition,
    budget: &mut Budget,
) -> Result<Define, MakeRefusal>
    requires { AreRising condition_cmp conditions.now }
    ensures { IsMadeWithin define_elements (the_condition_define conditions.now condition.now) budget.old budget.new result }
{
    let name = condition_name(alloc, conditions, condition)?;
    budget.take(1)?;
    let body = condition_body(alloc, &name, condition, budget)?;
    Ok(Define { name, body })
}

// An element of the names that meet the condition, or nothing where there is no such name.
fn condition_body(
    alloc: Global,
    name: &Text,
    condition: &Condition,
    budget: &mut Budget,
) -> Result<Body, MakeRefusal>
    ensures { IsMadeWithin body_elements (the_condition_body name.now condition.now) budget.old budget.new result }
{
    if condition.require.is_empty() {
        take_excepting(condition.spaces.len(), condition.names.len(), budget)?;
        let spaces = condition.spaces.copy(alloc)?;
        let names = condition.names.copy(alloc)?;
        return element_throughout(alloc, name, NameClass::AnyBut { spaces, names }, budget);
    }
    let parts = space_parts(alloc, condition, budget)?;
    if parts.is_empty() {
        budget.take(1)?;
        return Ok(Body::Part(Expr::NotAllowed));
    }
    budget.take_joint(parts.len())?;
    element_throughout(alloc, name, NameClass::Within { parts }, budget)
}

// Takes an element that leaves out so many namespaces and names, which stand in an `except` where there are some.
fn take_excepting(spaces: usize, names: usize, budget: &mut Budget) -> Result<(), MakeRefusal>
    ensures { HasTaken (excepting_elements (spaces + names)) budget.old budget.new result }
{
    budget.take(spaces as u64)?;
    budget.take_over(names as u64)?;
    if spaces == 0 && names == 0 {
        return Ok(());
    }
    budget.take(1)
}

// An element of some names with any attributes, over any texts and elements that the define itself takes. The elements of
// the names are taken already.
fn element_throughout(
    alloc: Global,
    name: &Text,
    names: NameClass,
    budget: &mut Budget,
) -> Result<Body, MakeRefusal>
    ensures made { IfOk result (λ made. made ≡ body.Element names attributes.AnyAttributes (the_content_throughout name.now)) }
    ensures taken { HasTaken throughout_elements budget.old budget.new result }
{
    budget.take(8)?;
    let mut parts = Exprs::new(alloc);
    parts.push(Expr::Text)?;
    parts.push(Expr::Ref(name.copy(alloc)?))?;
    let content = Expr::ZeroOrMore(Boxed::new(alloc, Expr::Choice(parts))?);
    Ok(Body::Element {
        names,
        attrs: AttrPart::AnyAttributes,
        content,
    })
}

// The required namespaces that are not excepted, each without its excepted names.
fn space_parts(
    alloc: Global,
    condition: &Condition,
    budget: &mut Budget,
) -> Result<NsParts, MakeRefusal>
    ensures { IsMadeWithin (sum_by part_elements) (map (the_space_part condition.now) (the_spaces_left condition.now)) budget.old budget.new result }
{
    let spaces = spaces_left(alloc, condition)?;
    let by_space = names_by_space(alloc, &condition.names)?;
    let mut parts = NsParts::new(alloc);
    for space in spaces.as_slice() {
        parts.push(space_part(alloc, &by_space, space, budget)?)?;
    }
    Ok(parts)
}

// A namespace without its names, among names by their namespaces.
fn space_part(
    alloc: Global,
    by_space: &[Name],
    space: &Text,
    budget: &mut Budget,
) -> Result<NsPart, MakeRefusal>
    requires { IsSortedByKey (λ n. n.ns) text_cmp by_space.now }
    ensures { IsMadeWithin part_elements (record { ns = space.now; but = filter (λ n. is_same n.ns space.now) by_space.now }) budget.old budget.new result }
{
    let names = run_of(by_space, space);
    take_excepting(0, names.len(), budget)?;
    let ns = space.copy(alloc)?;
    let but = copied(alloc, names)?;
    Ok(NsPart { ns, but })
}

// The required namespaces that are not excepted.
fn spaces_left(alloc: Global, condition: &Condition) -> Result<Words, NoMemory>
    ensures { IfOk result (λ left. left ≡ the_spaces_left condition.now) }
{
    those_among(alloc, &condition.require, &condition.spaces, false)
}

// The names by their namespaces, and in each as they stand.
fn names_by_space(alloc: Global, names: &Names) -> Result<Vec<Name>, NoMemory>
    ensures rising { IfOk result (λ sorted. IsSortedByKey (λ n. n.ns) text_cmp sorted.items) }
    ensures same { IfOk result (λ sorted. (space : List ℕ) → filter (λ n. is_same n.ns space) sorted.items ≡ filter (λ n. is_same n.ns space) names.now) }
{
    let mut by_space = names.copy(alloc)?.into_items();
    by_space.sort_by(|one: &Name, other: &Name| one.ns.cmp(&other.ns))?;
    Ok(by_space)
}

// Copies of some names.
fn copied(alloc: Global, names: &[Name]) -> Result<Names, NoMemory>
    ensures { IfOk result (λ made. made ≡ names.now) }
{
    let mut made = Names::new(alloc);
    for name in names {
        made.push(name.copy(alloc)?)?;
    }
    Ok(made)
}

// The names of a namespace, which stand together.
fn run_of<'a>(by_space: &'a [Name], space: &Text) -> &'a [Name]
    requires { IsSortedByKey (λ n. n.ns) text_cmp by_space.now }
    ensures { result.now ≡ filter (λ n. is_same n.ns space.now) by_space.now }
{
    let first = by_space.partition_point(|name| name.ns.cmp(space).is_lt());
    let end = by_space.partition_point(|name| name.ns.cmp(space).is_le());
    &by_space[first..end]
}

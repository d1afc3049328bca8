ghost use Rattle.std.specs.Prelude.{◌≡◌, ◌+◌, ◌++◌, OnOk, replicate, sum_by};
ghost use Rattle.compile_defines.specs.Budget.{HasTaken, IsMadeWithin, pattern_elements};
ghost use Rattle.compile_defines.specs.Repeating.{choice_pattern as the_choice_pattern, further, group_pattern as the_group_pattern, repeated as the_repeated};

use crate::budget::{Budget, MakeRefusal};
use odd_text::TryCopy;
use rng_grammar::{Expr, Exprs};
use rng_types::Bounds;
use sqlite_items::Boxed;
use std::alloc::Global;

/// The pattern of a part that stands so often, under a budget of which the part has taken nothing yet. The part has so many
/// elements.
pub fn repeated(
    alloc: Global,
    part: Expr,
    elements: u64,
    bounds: Bounds,
    budget: &mut Budget,
) -> Result<Expr, MakeRefusal>
    requires { pattern_elements part ≡ elements }
    ensures { IsMadeWithin pattern_elements (the_repeated part bounds) budget.old budget.new result }
{
    match (bounds.min, bounds.max) {
        (1, Some(1)) => {
            budget.take(elements)?;
            Ok(part)
        }
        (0, Some(1)) => {
            budget.take_over(elements)?;
            Ok(Expr::Optional(Boxed::new(alloc, part)?))
        }
        (0, None) => {
            budget.take_over(elements)?;
            Ok(Expr::ZeroOrMore(Boxed::new(alloc, part)?))
        }
        (1, None) => {
            budget.take_over(elements)?;
            Ok(Expr::OneOrMore(Boxed::new(alloc, part)?))
        }
        (min, max) => several(alloc, part, elements, min, max, budget),
    }
}

// The group of the copies that must stand and of what may stand after them.
fn several(
    alloc: Global,
    part: Expr,
    elements: u64,
    min: u32,
    max: Option<u32>,
    budget: &mut Budget,
) -> Result<Expr, MakeRefusal>
    requires { pattern_elements part ≡ elements }
    ensures { IsMadeWithin pattern_elements (the_group_pattern (replicate min part ++ further part min max)) budget.old budget.new result }
{
    let mut parts = Exprs::new(alloc);
    add_copies(alloc, &mut parts, &part, elements - 1, min, budget)?;
    add_further(alloc, &mut parts, part, elements, min, max, budget)?;
    budget.take_joint(parts.len())?;
    Ok(group_pattern(parts))
}

/// The group of some patterns: of none `empty`, of one that one.
pub fn group_pattern(parts: Exprs) -> Expr
    ensures { result ≡ the_group_pattern parts }
{
    if parts.len() >= 2 {
        return Expr::Group(parts);
    }
    match parts.into_items().pop() {
        Some(part) => part,
        None => Expr::Empty,
    }
}

/// The choice of some patterns: of none `notAllowed`, of one that one.
pub fn choice_pattern(parts: Exprs) -> Expr
    ensures { result ≡ the_choice_pattern parts }
{
    if parts.len() >= 2 {
        return Expr::Choice(parts);
    }
    match parts.into_items().pop() {
        Some(part) => part,
        None => Expr::NotAllowed,
    }
}

// Puts a pattern, which has so many elements in it, at the end so many times. Each copy is paid for before it is made.
fn add_copies(
    alloc: Global,
    parts: &mut Exprs,
    part: &Expr,
    inside: u64,
    count: u32,
    budget: &mut Budget,
) -> Result<(), MakeRefusal>
    requires { pattern_elements part.now ≡ inside + 1 }
    ensures pushed { OnOk result (parts.new ≡ parts.old ++ replicate count part.now) }
    ensures taken { HasTaken (sum_by pattern_elements (replicate count part.now)) budget.old budget.new result }
{
    for _ in 0..count {
        budget.take_over(inside)?;
        parts.push(part.copy(alloc)?)?;
    }
    Ok(())
}

// Puts at the end what may stand after the least number of times.
fn add_further(
    alloc: Global,
    parts: &mut Exprs,
    part: Expr,
    elements: u64,
    min: u32,
    max: Option<u32>,
    budget: &mut Budget,
) -> Result<(), MakeRefusal>
    requires { pattern_elements part ≡ elements }
    ensures pushed { OnOk result (parts.new ≡ parts.old ++ further part min max) }
    ensures taken { HasTaken (sum_by pattern_elements (further part min max)) budget.old budget.new result }
{
    match max {
        None => {
            budget.take_over(elements)?;
            Ok(parts.push(Expr::ZeroOrMore(Boxed::new(alloc, part)?))?)
        }
        Some(max) => {
            let optional = Expr::Optional(Boxed::new(alloc, part)?);
            let count = max.saturating_sub(min);
            add_copies(alloc, parts, &optional, elements, count, budget)
        }
    }
}

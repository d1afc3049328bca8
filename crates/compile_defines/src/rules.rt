ghost use Rattle.std.specs.Prelude.{map};
ghost use Rattle.compile_defines.specs.Budget.{IsMadeWithin};
ghost use Rattle.compile_defines.specs.Compiled.{offers_of, rule_of as the_rule_of};
ghost use Rattle.compile_defines.specs.Elements.{rule_elements, rules_elements};

use crate::{Budget, MakeRefusal, value_pattern};
use odd_attributes::AttDef;
use odd_offers::{Givens, attribute_name};
use odd_text::Text;
use rng_grammar::{AttrRule, Rules};
use std::alloc::Global;

/// A rule for each attribute that is given, in order of ident. Their elements are taken of the budget: an `attribute`, what its
/// value is, and an `optional` around one that is not needed.
pub fn rules_of(alloc: Global, givens: &Givens, budget: &mut Budget) -> Result<Rules, MakeRefusal>
    ensures { IsMadeWithin rules_elements (map the_rule_of (offers_of givens.now)) budget.old budget.new result }
{
    let mut rules = Rules::new(alloc);
    for (ident, given) in givens.entries() {
        rules.push(rule_of(alloc, ident, given.def.get(), budget)?)?;
    }
    Ok(rules)
}

// The rule for one attribute.
fn rule_of(
    alloc: Global,
    ident: &Text,
    def: &AttDef,
    budget: &mut Budget,
) -> Result<AttrRule, MakeRefusal>
    ensures { IsMadeWithin rule_elements (the_rule_of (ident.now, def.now)) budget.old budget.new result }
{
    budget.take(if def.needed { 1 } else { 2 })?;
    Ok(AttrRule {
        name: attribute_name(alloc, ident, def)?,
        needed: def.needed,
        value: value_pattern(alloc, def, budget)?,
    })
}

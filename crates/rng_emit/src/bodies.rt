ghost use Rattle.std.specs.Prelude.{◌≡◌, [], ◌∷◌, ◌++◌, map, OnOk, codes, if◌then◌else◌};
ghost use Rattle.odd_tree.specs.Markup.{all_of, all_printed, attributes_printed, printed};
ghost use Rattle.odd_text.specs.Same.{is_same};
ghost use Rattle.rng_grammar.specs.declared.grammar.Body.TheVariants as body;
ghost use Rattle.rng_emit.specs.Grammar.{any_attributes, attribute_markup, attributes_markup, body_markup, define_markup, rule_markup};

use crate::names::{add_names, begin_element};
use crate::patterns::add_pattern;
use odd_printing::{
    add_attribute, add_empty_tag, add_end_tag, add_start_tag, begin_tag_with, end_start_tag,
};
use odd_text::{Name, NoMemory, Text};
use rng_grammar::{AttrPart, AttrRule, Body, Define, Defines, Expr, NameClass, Rules};

/// Puts the defines of a grammar.
pub fn add_defines(out: &mut Text, defines: &Defines) -> Result<(), NoMemory>
    ensures { OnOk result (out.new ≡ out.old ++ all_printed (all_of (map define_markup defines.now))) }
{
    for define in defines.as_slice() {
        add_define(out, define)?;
    }
    Ok(())
}

fn add_define(out: &mut Text, define: &Define) -> Result<(), NoMemory>
    ensures { OnOk result (out.new ≡ out.old ++ printed (define_markup define.now)) }
{
    begin_tag_with(out, "define", "name", define.name.as_str())?;
    end_start_tag(out)?;
    add_body(out, &define.body)?;
    add_end_tag(out, "define")
}

fn add_body(out: &mut Text, body: &Body) -> Result<(), NoMemory>
    ensures { OnOk result (out.new ≡ out.old ++ printed (body_markup body.now)) }
{
    match body {
        Body::Element {
            names,
            attrs,
            content,
        } => add_element(out, names, attrs, content),
        Body::Part(pattern) => add_pattern(out, pattern),
    }
}

fn add_element(
    out: &mut Text,
    names: &NameClass,
    attrs: &AttrPart,
    content: &Expr,
) -> Result<(), NoMemory>
    ensures { OnOk result (out.new ≡ out.old ++ printed (body_markup (body.Element names.now attrs.now content.now))) }
{
    begin_element(out, names)?;
    end_start_tag(out)?;
    add_names(out, names)?;
    add_attributes(out, attrs)?;
    add_pattern(out, content)?;
    add_end_tag(out, "element")
}

fn add_attributes(out: &mut Text, attrs: &AttrPart) -> Result<(), NoMemory>
    ensures { OnOk result (out.new ≡ out.old ++ all_printed (all_of (attributes_markup attrs.now))) }
{
    match attrs {
        AttrPart::AnyAttributes => add_any_attributes(out),
        AttrPart::Listed(rules) => add_rules(out, rules),
    }
}

fn add_any_attributes(out: &mut Text) -> Result<(), NoMemory>
    ensures { OnOk result (out.new ≡ out.old ++ printed any_attributes) }
{
    add_start_tag(out, "zeroOrMore")?;
    add_start_tag(out, "attribute")?;
    add_empty_tag(out, "anyName")?;
    add_end_tag(out, "attribute")?;
    add_end_tag(out, "zeroOrMore")
}

fn add_rules(out: &mut Text, rules: &Rules) -> Result<(), NoMemory>
    ensures { OnOk result (out.new ≡ out.old ++ all_printed (all_of (map rule_markup rules.now))) }
{
    for rule in rules.as_slice() {
        add_rule(out, rule)?;
    }
    Ok(())
}

fn add_rule(out: &mut Text, rule: &AttrRule) -> Result<(), NoMemory>
    ensures { OnOk result (out.new ≡ out.old ++ printed (rule_markup rule.now)) }
{
    if rule.needed {
        return add_attribute_rule(out, rule);
    }
    add_start_tag(out, "optional")?;
    add_attribute_rule(out, rule)?;
    add_end_tag(out, "optional")
}

fn add_attribute_rule(out: &mut Text, rule: &AttrRule) -> Result<(), NoMemory>
    ensures { OnOk result (out.new ≡ out.old ++ printed (attribute_markup rule.now)) }
{
    begin_attribute(out, &rule.name)?;
    end_start_tag(out)?;
    add_pattern(out, &rule.value)?;
    add_end_tag(out, "attribute")
}

fn begin_attribute(out: &mut Text, name: &Name) -> Result<(), NoMemory>
    ensures { OnOk result (out.new ≡ out.old ++ (codes "<" ++ codes "attribute" ++ attributes_printed ((codes "name", name.now.local) ∷ (if is_same name.now.ns [] then [] else (codes "ns", name.now.ns) ∷ [])))) }
{
    begin_tag_with(out, "attribute", "name", name.local.as_str())?;
    if name.ns.as_str().is_empty() {
        return Ok(());
    }
    add_attribute(out, "ns", name.ns.as_str())
}

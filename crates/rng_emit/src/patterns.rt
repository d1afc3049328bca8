ghost use Rattle.std.specs.Prelude.{◌≡◌, [], ◌∷◌, ◌++◌, map, OnOk, codes};
ghost use Rattle.odd_tree.specs.Markup.{all_of, all_printed, plain, printed};
ghost use Rattle.rng_emit.specs.Grammar.{named, pattern_markup};

use crate::values::{add_data, add_value};
use odd_printing::{add_empty_tag, add_end_tag, add_start_tag, begin_tag_with, end_empty_tag};
use odd_text::{NoMemory, Text};
use rng_grammar::{Expr, Exprs};

/// Puts a pattern as the element of its name.
#[cycle(patterns)]
pub fn add_pattern(out: &mut Text, pattern: &Expr) -> Result<(), NoMemory>
    ensures { OnOk result (out.new ≡ out.old ++ printed (pattern_markup pattern.now)) }
{
    match pattern {
        Expr::Empty => add_empty_tag(out, "empty"),
        Expr::NotAllowed => add_empty_tag(out, "notAllowed"),
        Expr::Text => add_empty_tag(out, "text"),
        Expr::Typed { kind, facets } => add_data(out, *kind, facets),
        Expr::Same(text) => add_value(out, text.as_str()),
        Expr::List(part) => add_part(out, "list", part.get()),
        Expr::Ref(name) => add_reference(out, name.as_str()),
        Expr::Group(parts) => add_parts(out, "group", parts),
        Expr::Choice(parts) => add_parts(out, "choice", parts),
        Expr::Optional(part) => add_part(out, "optional", part.get()),
        Expr::ZeroOrMore(part) => add_part(out, "zeroOrMore", part.get()),
        Expr::OneOrMore(part) => add_part(out, "oneOrMore", part.get()),
    }
}

#[cycle(patterns)]
fn add_part(out: &mut Text, tag: &str, part: &Expr) -> Result<(), NoMemory>
    ensures { OnOk result (out.new ≡ out.old ++ printed (plain tag.now (pattern_markup part.now ∷ []))) }
{
    add_start_tag(out, tag)?;
    add_pattern(out, part)?;
    add_end_tag(out, tag)
}

#[cycle(patterns)]
fn add_parts(out: &mut Text, tag: &str, parts: &Exprs) -> Result<(), NoMemory>
    ensures { OnOk result (out.new ≡ out.old ++ printed (plain tag.now (map pattern_markup parts.now))) }
{
    if parts.is_empty() {
        return add_empty_tag(out, tag);
    }
    add_start_tag(out, tag)?;
    add_patterns(out, parts)?;
    add_end_tag(out, tag)
}

#[cycle(patterns)]
fn add_patterns(out: &mut Text, patterns: &Exprs) -> Result<(), NoMemory>
    ensures { OnOk result (out.new ≡ out.old ++ all_printed (all_of (map pattern_markup patterns.now))) }
{
    for pattern in patterns.as_slice() {
        add_pattern(out, pattern)?;
    }
    Ok(())
}

fn add_reference(out: &mut Text, name: &str) -> Result<(), NoMemory>
    ensures { OnOk result (out.new ≡ out.old ++ printed (named (codes "ref") name.now [])) }
{
    begin_tag_with(out, "ref", "name", name)?;
    end_empty_tag(out)
}

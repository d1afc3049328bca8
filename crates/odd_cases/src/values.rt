ghost use Rattle.std.specs.Prelude.{All};
ghost use Rattle.std.specs.Str.{chars};
ghost use Rattle.rng_values.specs.Formed.{IsFormedFacet};
ghost use Rattle.rng_values.specs.Lexical.{Fits};

use crate::allowing::add_allowing;
use crate::attributes::{add_definitions, add_joined};
use crate::items::{add_text, add_typed, kind_named};
use crate::matching::add_matching;
use crate::regexes::add_regex;
use crate::showing::add_rule;
use odd_case_files::CaseFault;
use odd_text::{NoMemory, Text};
use rng_values::{
    DataType, FacetName, FacetText, FacetTexts, Facets, Item, ItemRefusal, PatternRefusal,
    collapse, fits, make_item, meets, read_pattern,
};
use std::alloc::Global;

/// The lines, of each its question and what is answered to it. The fields of a line have tabs between them, and the last is the
/// answer.
pub fn told_values(alloc: Global, lines: &str) -> Result<Text, CaseFault> {
    let mut out = Text::new(alloc);
    for line in lines.split('\n') {
        if !out.as_str().is_empty() {
            out.push('\n')?;
        }
        let Some((question, _)) = line.rsplit_once('\t') else {
            return Err(CaseFault::NoValue);
        };
        out.push_str(question)?;
        out.push('\t')?;
        add_answer(alloc, &mut out, question)?;
    }
    Ok(out)
}

// Puts the answer to a question.
fn add_answer(alloc: Global, out: &mut Text, question: &str) -> Result<(), CaseFault> {
    let Some((call, rest)) = question.split_once('\t') else {
        return Err(CaseFault::NoValue);
    };
    match call {
        "pattern" => add_pattern(alloc, out, &text_of(alloc, rest)?),
        "collapse" => {
            let collapsed = collapse(alloc, &text_of(alloc, rest)?)?;
            Ok(add_text(out, collapsed.as_str())?)
        }
        "fits" => add_fitting(alloc, out, rest),
        "match" => add_matching(alloc, out, rest),
        "allows" => add_allowing(alloc, out, rest),
        "item" => add_item(alloc, out, rest),
        "meets" => add_meeting(alloc, out, rest),
        "edits" => add_joined(alloc, out, rest, false),
        "edits_aside" => add_joined(alloc, out, rest, true),
        "definitions" => add_definitions(alloc, out, rest),
        _ => Err(CaseFault::NoValue),
    }
}

// Puts the pattern that a text spells, or the byte where it spells none.
fn add_pattern(alloc: Global, out: &mut Text, text: &Text) -> Result<(), CaseFault> {
    match read_pattern(alloc, text) {
        Ok(regex) => Ok(add_regex(alloc, out, &regex)?),
        Err(PatternRefusal::BadPattern { at }) => {
            Ok(out.push_str(format!(in alloc; "none at {at}")?.as_str())?)
        }
        Err(PatternRefusal::NoMemory) => Err(CaseFault::NoMemory),
    }
}

// Puts whether a text is of a type.
fn add_fitting(alloc: Global, out: &mut Text, question: &str) -> Result<(), CaseFault> {
    let Some((name, text)) = question.split_once('\t') else {
        return Err(CaseFault::NoValue);
    };
    let Some(kind) = kind_named(name) else {
        return Err(CaseFault::NoValue);
    };
    out.push_str(said(fits(kind, &text_of(alloc, text)?)))?;
    Ok(())
}

/// How an answer is told.
pub fn said(yes: bool) -> &'static str {
    if yes { "yes" } else { "no" }
}

// Puts the item that a type's name and facets give, or the rule that they break.
fn add_item(alloc: Global, out: &mut Text, question: &str) -> Result<(), CaseFault> {
    let (name, facets) = facets_of(alloc, question, '\t')?;
    match make_item(alloc, &name, &facets) {
        Ok(Item::Typed { kind, facets }) => Ok(add_typed(out, kind, &facets)?),
        Ok(Item::Key(_)) => Err(CaseFault::NoValue),
        Err(ItemRefusal::Rule(rule)) => Ok(add_rule(alloc, out, rule)?),
        Err(ItemRefusal::NoMemory) => Err(CaseFault::NoMemory),
    }
}

// Puts whether a text meets a facet of a type.
fn add_meeting(alloc: Global, out: &mut Text, question: &str) -> Result<(), CaseFault> {
    let Some((item, text)) = question.rsplit_once('\t') else {
        return Err(CaseFault::NoValue);
    };
    let (name, facets) = facets_of(alloc, item, '\t')?;
    let text = text_of(alloc, text)?;
    let Ok(Item::Typed { kind, facets }) = make_item(alloc, &name, &facets) else {
        return Err(CaseFault::NoValue);
    };
    if !fits(kind, &text) {
        return Ok(out.push_str("not of the type")?);
    }
    Ok(out.push_str(said(meets_all(kind, &facets, &text)))?)
}

// Whether a text of a type meets all facets but patterns.
fn meets_all(kind: DataType, facets: &Facets, text: &Text) -> bool
    requires formed { All (IsFormedFacet kind) facets.now }
    requires fits { Fits kind (chars text.now) }
{
    for facet in facets.as_slice() {
        if facet.name != FacetName::Pattern && !meets(kind, facet, text) {
            return false;
        }
    }
    true
}

/// The name of a type and its facets, with a sign before each facet, which stands as its name, `=` and its value.
pub fn facets_of(alloc: Global, item: &str, sign: char) -> Result<(Text, FacetTexts), CaseFault> {
    let mut fields = item.split(sign);
    let name = text_of(alloc, fields.next().unwrap_or(""))?;
    let mut facets = FacetTexts::new(alloc);
    for field in fields {
        facets.push(facet_of(alloc, field)?)?;
    }
    Ok((name, facets))
}

fn facet_of(alloc: Global, field: &str) -> Result<FacetText, CaseFault> {
    let Some((name, value)) = field.split_once('=') else {
        return Err(CaseFault::NoValue);
    };
    Ok(FacetText {
        name: text_of(alloc, name)?,
        value: text_of(alloc, value)?,
    })
}

/// The text of a field, in which pictures of tab, LF and CR stand for these.
pub fn text_of(alloc: Global, field: &str) -> Result<Text, NoMemory> {
    let mut text = String::new(alloc);
    for c in field.chars() {
        text.push(match c {
            '\u{2409}' => '\t',
            '\u{240A}' => '\n',
            '\u{240D}' => '\r',
            _ => c,
        })?;
    }
    Text::from_string(alloc, text)
}

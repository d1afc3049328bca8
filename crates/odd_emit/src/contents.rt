ghost use Rattle.std.specs.Prelude.{◌≡◌, [], ◌∷◌, ◌++◌, map, OnOk, codes};
ghost use Rattle.odd_tree.specs.Markup.{printed};
ghost use Rattle.odd_emit.specs.Contents.{bounds_said, bounds_unless_once, condition_said, content_markup, key_said, part_markup, pick_said, prefixes_of};
ghost use Rattle.odd_emit.specs.Saying.{elements_printed, spoken, spoken_with};

use crate::conditions::{add_condition, add_prefixes};
use crate::data::{add_item, add_list};
use crate::saying::{add_bare, add_bounds, add_bounds_unless_once, add_key, add_pick};
use odd_content::{Condition, Content, Contents, Pick};
use odd_printing::{add_end_tag, begin_tag, end_empty_tag, end_start_tag};
use odd_text::{NoMemory, Text};
use rng_types::Bounds;
use std::alloc::Global;

/// Puts a content model, as a `content` with one part.
pub fn add_content(out: &mut Text, alloc: Global, content: &Content) -> Result<(), NoMemory>
    ensures { OnOk result (out.new ≡ out.old ++ printed (content_markup content.now)) }
{
    begin_tag(out, "content")?;
    end_start_tag(out)?;
    add_part(out, alloc, content)?;
    add_end_tag(out, "content")
}

// Puts a part as the element of its name.
#[cycle(parts)]
fn add_part(out: &mut Text, alloc: Global, part: &Content) -> Result<(), NoMemory>
    ensures { OnOk result (out.new ≡ out.old ++ printed (part_markup part.now)) }
{
    match part {
        Content::Empty => add_bare(out, "empty"),
        Content::Text => add_bare(out, "textNode"),
        Content::Value(item) => add_item(out, item),
        Content::Vals(list) => add_list(out, list),
        Content::Element { key, bounds } => add_element(out, key, *bounds),
        Content::Class { key, pick, bounds } => add_class(out, alloc, key, pick, *bounds),
        Content::Macro { key, bounds } => add_macro(out, key, *bounds),
        Content::Any { condition, bounds } => add_any(out, alloc, condition, *bounds),
        Content::Sequence { parts, bounds } => add_level(out, alloc, "sequence", parts, *bounds),
        Content::Alternate { parts, bounds } => add_level(out, alloc, "alternate", parts, *bounds),
    }
}

fn add_element(out: &mut Text, key: &Text, bounds: Bounds) -> Result<(), NoMemory>
    ensures { OnOk result (out.new ≡ out.old ++ printed (spoken (codes "elementRef") (key_said key.now ∷ bounds_said bounds) [])) }
{
    begin_tag(out, "elementRef")?;
    add_key(out, key)?;
    add_bounds(out, bounds)?;
    end_empty_tag(out)
}

fn add_class(
    out: &mut Text,
    alloc: Global,
    key: &Text,
    pick: &Pick,
    bounds: Bounds,
) -> Result<(), NoMemory>
    ensures { OnOk result (out.new ≡ out.old ++ printed (spoken (codes "classRef") (key_said key.now ∷ pick_said pick.now ++ bounds_said bounds) [])) }
{
    begin_tag(out, "classRef")?;
    add_key(out, key)?;
    add_pick(out, alloc, pick)?;
    add_bounds(out, bounds)?;
    end_empty_tag(out)
}

fn add_macro(out: &mut Text, key: &Text, bounds: Bounds) -> Result<(), NoMemory>
    ensures { OnOk result (out.new ≡ out.old ++ printed (spoken (codes "macroRef") (key_said key.now ∷ bounds_unless_once bounds) [])) }
{
    begin_tag(out, "macroRef")?;
    add_key(out, key)?;
    add_bounds_unless_once(out, bounds)?;
    end_empty_tag(out)
}

fn add_any(
    out: &mut Text,
    alloc: Global,
    condition: &Condition,
    bounds: Bounds,
) -> Result<(), NoMemory>
    ensures { OnOk result (out.new ≡ out.old ++ printed (spoken_with (codes "anyElement") (prefixes_of condition.now) (condition_said condition.now ++ bounds_said bounds))) }
{
    begin_tag(out, "anyElement")?;
    add_prefixes(out, alloc, condition)?;
    add_condition(out, alloc, condition)?;
    add_bounds(out, bounds)?;
    end_empty_tag(out)
}

#[cycle(parts)]
fn add_level(
    out: &mut Text,
    alloc: Global,
    tag: &str,
    parts: &Contents,
    bounds: Bounds,
) -> Result<(), NoMemory>
    ensures { OnOk result (out.new ≡ out.old ++ printed (spoken tag.now (bounds_said bounds) (map part_markup parts.now))) }
{
    begin_tag(out, tag)?;
    add_bounds(out, bounds)?;
    if parts.is_empty() {
        return end_empty_tag(out);
    }
    end_start_tag(out)?;
    add_parts(out, alloc, parts)?;
    add_end_tag(out, tag)
}

#[cycle(parts)]
fn add_parts(out: &mut Text, alloc: Global, parts: &Contents) -> Result<(), NoMemory>
    ensures { OnOk result (out.new ≡ out.old ++ elements_printed (map part_markup parts.now)) }
{
    for part in parts.as_slice() {
        add_part(out, alloc, part)?;
    }
    Ok(())
}

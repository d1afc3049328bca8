ghost use Rattle.std.specs.Prelude.{◌≡◌, [], ◌++◌, map, OnOk, IsTrue, ◌↔◌, codes};
ghost use Rattle.odd_tree.specs.Markup.{all_of, all_printed, attributes_printed, plain, printed};
ghost use Rattle.rng_emit.specs.Grammar.{class_markup, except_markup, name_markup, name_pairs, part_markup, parts_markup, space_markup};

use odd_printing::{
    add_attribute, add_empty_tag, add_end_tag, add_start_tag, begin_tag, begin_tag_with,
    end_empty_tag, end_line, end_start_tag,
};
use odd_text::{Name, Names, NoMemory, Text, Words};
use rng_grammar::{NameClass, NsPart, NsParts};

/// Begins the tag of an element, with its name where it has one.
pub fn begin_element(out: &mut Text, names: &NameClass) -> Result<(), NoMemory>
    ensures { OnOk result (out.new ≡ out.old ++ (codes "<" ++ codes "element" ++ attributes_printed (name_pairs names.now))) }
{
    match names {
        NameClass::One(name) => {
            begin_tag_with(out, "element", "name", name.local.as_str())?;
            add_attribute(out, "ns", name.ns.as_str())
        }
        _ => begin_tag(out, "element"),
    }
}

/// Puts a name class that stands in an element. One name stands in the tag.
pub fn add_names(out: &mut Text, names: &NameClass) -> Result<(), NoMemory>
    ensures { OnOk result (out.new ≡ out.old ++ all_printed (all_of (class_markup names.now))) }
{
    match names {
        NameClass::One(_) => Ok(()),
        NameClass::AnyBut { spaces, names } => add_any_name(out, spaces, names),
        NameClass::Within { parts } => add_spaces_within(out, parts),
    }
}

fn add_any_name(out: &mut Text, spaces: &Words, names: &Names) -> Result<(), NoMemory>
    ensures { OnOk result (out.new ≡ out.old ++ printed (plain (codes "anyName") (except_markup (map space_markup spaces.now ++ map name_markup names.now)))) }
{
    if except_none(spaces, names) {
        return add_empty_tag(out, "anyName");
    }
    add_start_tag(out, "anyName")?;
    add_start_tag(out, "except")?;
    add_excepted_spaces(out, spaces)?;
    add_excepted_names(out, names)?;
    add_end_tag(out, "except")?;
    add_end_tag(out, "anyName")
}

/// Whether nothing is left out.
fn except_none(spaces: &Words, names: &Names) -> bool
    ensures { IsTrue result ↔ ((spaces.now ≡ []) × (names.now ≡ [])) }
{
    spaces.is_empty() && names.is_empty()
}

fn add_excepted_spaces(out: &mut Text, spaces: &Words) -> Result<(), NoMemory>
    ensures { OnOk result (out.new ≡ out.old ++ all_printed (all_of (map space_markup spaces.now))) }
{
    for space in spaces.as_slice() {
        add_excepted_space(out, space.as_str())?;
    }
    Ok(())
}

fn add_excepted_space(out: &mut Text, space: &str) -> Result<(), NoMemory>
    ensures { OnOk result (out.new ≡ out.old ++ printed (space_markup space.now)) }
{
    begin_tag_with(out, "nsName", "ns", space)?;
    end_empty_tag(out)
}

fn add_excepted_names(out: &mut Text, names: &Names) -> Result<(), NoMemory>
    ensures { OnOk result (out.new ≡ out.old ++ all_printed (all_of (map name_markup names.now))) }
{
    for name in names.as_slice() {
        add_excepted_name(out, name)?;
    }
    Ok(())
}

fn add_excepted_name(out: &mut Text, name: &Name) -> Result<(), NoMemory>
    ensures { OnOk result (out.new ≡ out.old ++ printed (name_markup name.now)) }
{
    begin_tag_with(out, "name", "ns", name.ns.as_str())?;
    end_line(out, "name", name.local.as_str())
}

fn add_spaces_within(out: &mut Text, parts: &NsParts) -> Result<(), NoMemory>
    ensures { OnOk result (out.new ≡ out.old ++ printed (parts_markup parts.now)) }
{
    match parts.as_slice() {
        [] => add_empty_tag(out, "choice"),
        [part] => add_space_within(out, part),
        _ => {
            add_start_tag(out, "choice")?;
            add_each_within(out, parts)?;
            add_end_tag(out, "choice")
        }
    }
}

fn add_each_within(out: &mut Text, parts: &NsParts) -> Result<(), NoMemory>
    ensures { OnOk result (out.new ≡ out.old ++ all_printed (all_of (map part_markup parts.now))) }
{
    for part in parts.as_slice() {
        add_space_within(out, part)?;
    }
    Ok(())
}

fn add_space_within(out: &mut Text, part: &NsPart) -> Result<(), NoMemory>
    ensures { OnOk result (out.new ≡ out.old ++ printed (part_markup part.now)) }
{
    begin_tag_with(out, "nsName", "ns", part.ns.as_str())?;
    if part.but.is_empty() {
        return end_empty_tag(out);
    }
    end_start_tag(out)?;
    add_start_tag(out, "except")?;
    add_excepted_names(out, &part.but)?;
    add_end_tag(out, "except")?;
    add_end_tag(out, "nsName")
}

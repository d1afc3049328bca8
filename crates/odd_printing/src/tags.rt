ghost use Rattle.std.specs.Prelude.{◌≡◌, ℕ, List, [], ◌∷◌, ◌++◌, OnOk, codes};
ghost use Rattle.odd_tree.specs.Markup.{Pair, attributes_printed, line, plain, printed};

use crate::printing::{
    add_attribute, add_end_tag, add_escaped_text, begin_tag, end_empty_tag, end_start_tag,
};
use odd_text::{NoMemory, Text};

/// Puts an element without attributes and without anything in it.
pub fn add_empty_tag(out: &mut Text, name: &str) -> Result<(), NoMemory>
    ensures { OnOk result (out.new ≡ out.old ++ printed (plain name.now [])) }
{
    begin_tag(out, name)?;
    end_empty_tag(out)
}

/// Puts a start tag without attributes.
pub fn add_start_tag(out: &mut Text, name: &str) -> Result<(), NoMemory>
    ensures { OnOk result (out.new ≡ out.old ++ (codes "<" ++ name.now ++ codes ">\n")) }
{
    begin_tag(out, name)?;
    end_start_tag(out)
}

/// Begins a tag, with one attribute.
pub fn begin_tag_with(out: &mut Text, tag: &str, name: &str, value: &str) -> Result<(), NoMemory>
    ensures { OnOk result (out.new ≡ out.old ++ (codes "<" ++ tag.now ++ attributes_printed ((name.now, value.now) ∷ []))) }
{
    begin_tag(out, tag)?;
    add_attribute(out, name, value)
}

/// Ends an element with a text in it, whose tag was begun and got its attributes.
pub fn end_line(out: &mut Text, tag: &str, text: &str) -> Result<(), NoMemory>
    ensures { OnOk result ((before : List ℕ) (attrs : List Pair) → out.old ≡ before ++ (codes "<" ++ tag.now ++ attributes_printed attrs) → out.new ≡ before ++ printed (line tag.now attrs text.now)) }
{
    if text.is_empty() {
        return end_empty_tag(out);
    }
    out.push_str(">")?;
    add_escaped_text(out, text)?;
    add_end_tag(out, tag)
}

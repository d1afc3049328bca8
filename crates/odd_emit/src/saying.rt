ghost use Rattle.std.specs.Prelude.{◌≡◌, [], ◌∷◌, ◌++◌, IfOk, OnOk, codes};
ghost use Rattle.std.specs.Option.{option_copied};
ghost use Rattle.odd_tree.specs.Markup.{line, printed};
ghost use Rattle.odd_emit.specs.Attributes.{alt_markup, ident_said, ns_said};
ghost use Rattle.odd_emit.specs.Contents.{bounds_said, bounds_unless_once, key_said, mode_said, pick_said, words_value};
ghost use Rattle.odd_emit.specs.Contents.{is_once as the_is_once};
ghost use Rattle.odd_emit.specs.Saying.{elements_printed, present, said_printed, says, says_if, some_names, spoken};
ghost use Rattle.odd_emit.specs.Saying.{joined as the_joined};

use itoa::Buffer;
use odd_content::Pick;
use odd_printing::{
    add_attribute, add_end_tag, add_escaped_text, begin_tag, end_empty_tag, end_start_tag,
};
use odd_text::{NoMemory, Text, TryCopy, Words};
use rng_types::Bounds;
use std::alloc::Global;

/// Puts an element without attributes and without anything in it.
pub fn add_bare(out: &mut Text, name: &str) -> Result<(), NoMemory>
    ensures { OnOk result (out.new ≡ out.old ++ printed (spoken name.now [] [])) }
{
    begin_tag(out, name)?;
    end_empty_tag(out)
}

/// Puts the ident that a reference names.
pub fn add_key(out: &mut Text, key: &Text) -> Result<(), NoMemory>
    ensures { OnOk result (out.new ≡ out.old ++ said_printed (key_said key.now ∷ [])) }
{
    add_attribute(out, "key", key.as_str())
}

/// Puts the ident of what is declared.
pub fn add_ident(out: &mut Text, ident: &Text) -> Result<(), NoMemory>
    ensures { OnOk result (out.new ≡ out.old ++ said_printed (ident_said ident.now ∷ [])) }
{
    add_attribute(out, "ident", ident.as_str())
}

/// Puts what a declaration does to what was declared before.
pub fn add_mode(out: &mut Text, word: &str) -> Result<(), NoMemory>
    ensures { OnOk result (out.new ≡ out.old ++ said_printed (mode_said word.now ∷ [])) }
{
    add_attribute(out, "mode", word)
}

/// Puts a namespace, where there is one.
pub fn add_ns(out: &mut Text, ns: Option<&Text>) -> Result<(), NoMemory>
    ensures { OnOk result (out.new ≡ out.old ++ said_printed (ns_said (option_copied ns.entry) ∷ [])) }
{
    match ns {
        Some(ns) => add_attribute(out, "ns", ns.as_str()),
        None => Ok(()),
    }
}

/// Puts the name in documents, where there is one.
pub fn add_alt(out: &mut Text, alt: Option<&Text>) -> Result<(), NoMemory>
    ensures { OnOk result (out.new ≡ out.old ++ elements_printed (present (alt_markup (option_copied alt.entry) ∷ []))) }
{
    match alt {
        Some(name) => add_alt_line(out, name.as_str()),
        None => Ok(()),
    }
}

fn add_alt_line(out: &mut Text, name: &str) -> Result<(), NoMemory>
    ensures { OnOk result (out.new ≡ out.old ++ printed (line (codes "altIdent") [] name.now)) }
{
    begin_tag(out, "altIdent")?;
    if name.is_empty() {
        return end_empty_tag(out);
    }
    out.push_str(">")?;
    add_escaped_text(out, name)?;
    add_end_tag(out, "altIdent")
}

/// Puts how often a part may stand.
pub fn add_bounds(out: &mut Text, bounds: Bounds) -> Result<(), NoMemory>
    ensures { OnOk result (out.new ≡ out.old ++ said_printed (bounds_said bounds)) }
{
    let mut buffer = Buffer::new();
    add_attribute(out, "minOccurs", buffer.format(bounds.min))?;
    match bounds.max {
        Some(max) => add_attribute(out, "maxOccurs", buffer.format(max)),
        None => add_attribute(out, "maxOccurs", "unbounded"),
    }
}

// Whether a part stands once.
fn is_once(bounds: Bounds) -> bool
    ensures { result ≡ the_is_once bounds }
{
    bounds.min == 1 && bounds.max == Some(1)
}

/// Puts how often a part may stand, where that is not once.
pub fn add_bounds_unless_once(out: &mut Text, bounds: Bounds) -> Result<(), NoMemory>
    ensures { OnOk result (out.new ≡ out.old ++ said_printed (bounds_unless_once bounds)) }
{
    if is_once(bounds) {
        return Ok(());
    }
    add_bounds(out, bounds)
}

// Some words, with a space between.
fn joined(alloc: Global, words: &Words) -> Result<Text, NoMemory>
    ensures { IfOk result (λ text. text ≡ the_joined words.now) }
{
    let Some((first, rest)) = words.as_slice().split_first() else {
        return Ok(Text::new(alloc));
    };
    let mut text = first.copy(alloc)?;
    for word in rest {
        text.push_str(" ")?;
        text.push_str(word.as_str())?;
    }
    Ok(text)
}

/// Puts names, as the words of an attribute.
pub fn add_names(out: &mut Text, alloc: Global, name: &str, words: &Words) -> Result<(), NoMemory>
    ensures { OnOk result (out.new ≡ out.old ++ said_printed (says name.now (some_names words.now) ∷ [])) }
{
    let text = joined(alloc, words)?;
    add_attribute(out, name, text.as_str())
}

/// Puts words, where there are some.
pub fn add_words(out: &mut Text, alloc: Global, name: &str, words: &Words) -> Result<(), NoMemory>
    ensures { OnOk result (out.new ≡ out.old ++ said_printed (says_if name.now (words_value words.now) ∷ [])) }
{
    if words.is_empty() {
        return Ok(());
    }
    let text = joined(alloc, words)?;
    add_attribute(out, name, text.as_str())
}

/// Puts which members of a class a reference names, unless it names all.
pub fn add_pick(out: &mut Text, alloc: Global, pick: &Pick) -> Result<(), NoMemory>
    ensures { OnOk result (out.new ≡ out.old ++ said_printed (pick_said pick.now)) }
{
    match pick {
        Pick::All => Ok(()),
        Pick::Include(words) => add_names(out, alloc, "include", words),
        Pick::Except(words) => add_names(out, alloc, "except", words),
    }
}

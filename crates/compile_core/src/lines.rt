ghost use Rattle.std.specs.Prelude.{◌≡◌, ◌++◌, flat_map, unwrap_or, IfOk, OnOk, codes};
ghost use Rattle.odd_meaning.specs.Naming.{element_name};
ghost use Rattle.compile_core.specs.Account.{account_text, line, member_line, module_line, name_written, offer_line};
ghost use Rattle.compile_core.specs.Account.{giver_word as the_giver_word, usage_word as the_usage_word};

use odd_classes::{Offer, Offers};
use odd_library::ElementPart;
use odd_text::{NoMemory, Text, Words};
use std::alloc::Global;

/// The lines of an account: what an element is called, its module, its classes and what it offers. The only error is NoMemory,
/// for want of memory.
pub fn account(
    alloc: Global,
    ident: &Text,
    part: &ElementPart,
    classes: &Words,
    offers: &Offers,
) -> Result<Text, NoMemory>
    ensures { IfOk result (λ text. text ≡ account_text ident.now part.now classes.now offers.now) }
{
    let mut out = Text::new(alloc);
    add_line(&mut out, "element", ident)?;
    add_name(&mut out, ident, part)?;
    add_module(&mut out, &part.module)?;
    add_members(&mut out, classes)?;
    add_offers(&mut out, offers)?;
    Ok(out)
}

// Puts a line that begins with a word.
fn add_line(out: &mut Text, word: &str, rest: &Text) -> Result<(), NoMemory>
    ensures { OnOk result (out.new ≡ out.old ++ line word.now rest.now) }
{
    out.push_str(word)?;
    out.push_str(" ")?;
    out.push_str(rest.as_str())?;
    out.push_str("\n")
}

// Puts the name in documents.
fn add_name(out: &mut Text, ident: &Text, part: &ElementPart) -> Result<(), NoMemory>
    ensures { OnOk result (out.new ≡ out.old ++ line (codes "name") (name_written (element_name ident.now part.now))) }
{
    out.push_str("name {")?;
    out.push_str(part.ns.as_str())?;
    out.push_str("}")?;
    out.push_str(local_name(ident, part))?;
    out.push_str("\n")
}

// The local name in documents.
fn local_name<'a>(ident: &'a Text, part: &'a ElementPart) -> &'a str
    ensures { result.now ≡ unwrap_or part.now.alt ident.now }
{
    match &part.alt {
        Some(name) => name.as_str(),
        None => ident.as_str(),
    }
}

// Puts the module, unless it is empty.
fn add_module(out: &mut Text, name: &Text) -> Result<(), NoMemory>
    ensures { OnOk result (out.new ≡ out.old ++ module_line name.now) }
{
    if name.as_str().is_empty() {
        return Ok(());
    }
    add_line(out, "module", name)
}

// Puts the classes.
fn add_members(out: &mut Text, classes: &Words) -> Result<(), NoMemory>
    ensures { OnOk result (out.new ≡ out.old ++ flat_map member_line classes.now) }
{
    for class in classes.as_slice() {
        add_line(out, "member", class)?;
    }
    Ok(())
}

// Puts the attributes.
fn add_offers(out: &mut Text, offers: &Offers) -> Result<(), NoMemory>
    ensures { OnOk result (out.new ≡ out.old ++ flat_map offer_line offers.now) }
{
    for offer in offers.as_slice() {
        add_offer(out, offer)?;
    }
    Ok(())
}

// Puts an attribute.
fn add_offer(out: &mut Text, offer: &Offer) -> Result<(), NoMemory>
    ensures { OnOk result (out.new ≡ out.old ++ offer_line offer.now) }
{
    out.push_str("attribute ")?;
    out.push_str(offer.ident.as_str())?;
    out.push_str(" ")?;
    out.push_str(usage_word(offer.def.needed))?;
    out.push_str(" ")?;
    out.push_str(giver_word(offer))?;
    out.push_str("\n")
}

// The word for whether an element has to have an attribute.
fn usage_word(needed: bool) -> &'static str
    ensures { result.now ≡ the_usage_word needed }
{
    if needed { "req" } else { "opt" }
}

// The class that gives an attribute, or `-` where the element does.
fn giver_word(offer: &Offer) -> &str
    ensures { result.now ≡ the_giver_word offer.now.giver }
{
    match &offer.giver {
        Some(class) => class.as_str(),
        None => "-",
    }
}

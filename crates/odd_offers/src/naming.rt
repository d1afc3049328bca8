ghost use Rattle.std.specs.Prelude.{◌≡◌, ◌↔◌, [], IfOk, IsTrue, unwrap_or};
ghost use Rattle.odd_meaning.specs.Naming.{attribute_name as the_attribute_name};
ghost use Rattle.odd_offers.specs.Names.{IsNamedTwice, names_of as the_names_of};

use crate::given::Givens;
use odd_attributes::AttDef;
use odd_text::{Name, Names, NoMemory, Text, TryCopy};
use std::alloc::Global;
use std::collections::BTreeSet;

// What is written before the local name of an attribute of XML.
const XML_PREFIX: &str = "xml:";

// The namespace of XML.
const XML: &str = "http://www.w3.org/XML/1998/namespace";

/// Whether two attributes have one name in documents. The only error is NoMemory, for want of memory.
pub fn shares_name(alloc: Global, givens: &Givens) -> Result<bool, NoMemory>
    ensures { IfOk result (λ shared. IsTrue shared ↔ IsNamedTwice (the_names_of givens.now)) }
{
    has_twice(alloc, names_of(alloc, givens)?)
}

// The names of attributes in documents, in order of ident.
fn names_of(alloc: Global, givens: &Givens) -> Result<Names, NoMemory>
    ensures { IfOk result (λ names. names ≡ the_names_of givens.now) }
{
    let mut names = Names::new(alloc);
    for (ident, given) in givens.entries() {
        names.push(attribute_name(alloc, ident, given.def.get())?)?;
    }
    Ok(names)
}

// Whether a name stands twice among these. Most often they rise, and then none does.
fn has_twice(alloc: Global, names: Names) -> Result<bool, NoMemory>
    ensures { IfOk result (λ twice. IsTrue twice ↔ IsNamedTwice names) }
{
    if do_rise(names.as_slice()) {
        return Ok(false);
    }
    let mut seen = BTreeSet::new(alloc);
    for name in names.into_items() {
        if !seen.insert(name)? {
            return Ok(true);
        }
    }
    Ok(false)
}

// Whether each name comes after the one before it.
fn do_rise(names: &[Name]) -> bool
    ensures { IsTrue result → IsNamedTwice names.now → ⊥ }
{
    names.is_sorted_by(|before, name| before.cmp(name).is_lt())
}

/// The name of an attribute in documents: its `altIdent`, or else its ident, in its namespace; after `xml:` in that of XML. The
/// only error is NoMemory, for want of memory.
pub fn attribute_name(alloc: Global, ident: &Text, def: &AttDef) -> Result<Name, NoMemory>
    ensures { IfOk result (λ name. name ≡ the_attribute_name ident.now def.now) }
{
    let text = def.alt.as_ref().unwrap_or(ident);
    match text.as_str().strip_prefix(XML_PREFIX) {
        Some(local) => Ok(Name {
            ns: Text::from_str(alloc, XML)?,
            local: Text::from_str(alloc, local)?,
        }),
        None => Ok(Name {
            ns: namespace_of(alloc, def)?,
            local: text.copy(alloc)?,
        }),
    }
}

// The namespace of a definition, or none.
fn namespace_of(alloc: Global, def: &AttDef) -> Result<Text, NoMemory>
    ensures { IfOk result (λ ns. ns ≡ unwrap_or def.now.ns []) }
{
    match &def.ns {
        Some(ns) => ns.copy(alloc),
        None => Ok(Text::new(alloc)),
    }
}

ghost use Rattle.std.specs.Prelude.{◌≡◌, ◌↔◌, not, IfOk, IsTrue};
ghost use Rattle.std.specs.FinMap.{find};
ghost use Rattle.std.specs.List.{list_any};
ghost use Rattle.odd_text.specs.Key.{key_cmp};
ghost use Rattle.odd_text.specs.Least.{IsLeast};
ghost use Rattle.odd_library.specs.Odd.{element_key};
ghost use Rattle.odd_library.specs.declared.odd.OddDoc.{OddDoc as ADoc};
ghost use Rattle.odd_modes.specs.Choosing.{IsChosen};
ghost use Rattle.odd_modes.specs.Index.{AreModulesOf, AreReferencesOf, IsFirst, fault_of, is_of_module};
ghost use Rattle.odd_modes.specs.Offences.{GivesAnotherType, Offends, OffendsAt, ReferenceFault, RefersWrongly, SpecFault, words_in as the_words_in};

use crate::references::References;
use odd_content::Pick;
use odd_forms::fault_where;
use odd_library::{Component, Entry, Fault, Library, Mode, OddDoc, Spec};
use odd_text::{Key, Kind, NoMemory, Text, lesser};
use std::alloc::Global;
use std::collections::BTreeSet;

// What is added was chosen.
const CHOSEN: u8 = 5;
// What is changed, deleted or replaced was not chosen, or what is referred to is not held.
const NOT_CHOSEN: u8 = 6;
// No component is of the module.
const NO_MODULE: u8 = 7;
// `include` or `except` names no element of the module.
const NO_ELEMENT: u8 = 8;
// A class that is changed is given another type.
const ANOTHER_TYPE: u8 = 9;

/// The first of the faults of a file's items by place, of those at one place the one with the least rule.
pub fn first_fault(
    alloc: Global,
    library: &Library,
    references: &References<'_>,
    doc: &OddDoc,
) -> Result<Option<Fault>, NoMemory>
    requires { AreReferencesOf doc.now.entries references.now }
    ensures { IfOk result (IsFirst (Offends library.now doc.now)) }
{
    let of_references = first_reference_fault(alloc, library, doc)?;
    let of_specs = first_spec_fault(library, references, doc);
    Ok(lesser(of_references, of_specs))
}

/// The first of the faults of a file's references by place, of those at one place the one with the least rule.
pub fn first_reference_fault(
    alloc: Global,
    library: &Library,
    doc: &OddDoc,
) -> Result<Option<Fault>, NoMemory>
    ensures { IfOk result (IsFirst (RefersWrongly library.now doc.now)) }
{
    let modules = modules_of(alloc, library)?;
    let mut first = None;
    for entry in doc.entries.as_slice() {
        let rule = reference_fault(library, &modules, entry);
        first = lesser(first, fault_at(entry, rule));
    }
    Ok(first)
}

// The first of the faults of a file's declarations.
fn first_spec_fault(library: &Library, references: &References<'_>, doc: &OddDoc) -> Option<Fault>
    requires { AreReferencesOf doc.now.entries references.now }
    ensures { IsFirst (OffendsAt (SpecFault library.now doc.now) doc.now) result }
{
    let mut first = None;
    for entry in doc.entries.as_slice() {
        let rule = spec_fault(library, references, entry);
        first = lesser(first, fault_at(entry, rule));
    }
    first
}

// The fault of an item that breaks a rule.
fn fault_at(entry: &Entry, rule: Option<u8>) -> Option<Fault>
    ensures { result ≡ fault_of entry.now rule }
{
    let at = match entry {
        Entry::Module { at, .. } | Entry::Take { at, .. } | Entry::Spec { at, .. } => *at,
    };
    Some(Fault { at, rule: rule? })
}

// The modules of the components of a library.
fn modules_of(alloc: Global, library: &Library) -> Result<BTreeSet<&str>, NoMemory>
    ensures { IfOk result (AreModulesOf library.entry.now) }
{
    let mut modules = BTreeSet::new(alloc);
    for (_, part) in library.parts.entries() {
        modules.insert(part.module().as_str())?;
    }
    Ok(modules)
}

// The least rule that an item breaks as a reference.
fn reference_fault(library: &Library, modules: &BTreeSet<&str>, entry: &Entry) -> Option<u8>
    requires { AreModulesOf library.now modules.now }
    ensures { IsLeast (ReferenceFault library.now entry.now) result }
{
    match entry {
        Entry::Module { at: _, key, pick } if modules.contains(key.as_str()) => {
            fault_where(has_other(library, key, words_in(pick)), NO_ELEMENT)
        }
        Entry::Module { .. } => Some(NO_MODULE),
        Entry::Take { at: _, key } => fault_where(library.find(key).is_none(), NOT_CHOSEN),
        Entry::Spec { .. } => None,
    }
}

// The words of `include` or `except`.
fn words_in(pick: &Pick) -> &[Text]
    ensures { result.now ≡ the_words_in pick.now }
{
    match pick {
        Pick::All => &[],
        Pick::Include(words) | Pick::Except(words) => words.as_slice(),
    }
}

// Whether a word is the ident of no element of the module.
fn has_other(library: &Library, module: &Text, words: &[Text]) -> bool
    ensures { result ≡ list_any (λ word. not (is_of_module (find key_cmp (element_key word) library.now.parts) «module».now)) words.now }
{
    words.iter().any(|word| !is_element(library, module, word))
}

// Whether an element of the module has this ident.
fn is_element(library: &Library, module: &Text, ident: &Text) -> bool
    ensures { result ≡ is_of_module (find key_cmp (element_key ident.now) library.now.parts) «module».now }
{
    match library.find_by(Kind::Element, ident) {
        Some(part) => part.module() == module,
        None => false,
    }
}

// The rule that an item breaks as a declaration.
fn spec_fault(library: &Library, references: &References<'_>, entry: &Entry) -> Option<u8>
    ensures { (doc : ADoc) → AreReferencesOf doc.entries references.now → IsLeast (SpecFault library.now doc entry.now) result }
{
    let Entry::Spec { at: _, spec } = entry else {
        return None;
    };
    let chosen = is_chosen(library, references, &spec.key);
    match (spec.mode, chosen) {
        (Mode::Add, _) => fault_where(chosen, CHOSEN),
        (_, false) => Some(NOT_CHOSEN),
        (Mode::Change, true) => fault_where(gives_another_type(library, spec), ANOTHER_TYPE),
        (Mode::Delete | Mode::Replace, true) => None,
    }
}

// Whether a declaration gives the class that is held at its key another type.
fn gives_another_type(library: &Library, spec: &Spec) -> bool
    ensures { IsTrue result ↔ GivesAnotherType library.now spec.now }
{
    match (library.find(&spec.key), spec.gives) {
        (Some(Component::Class(part)), Some(gives)) => gives != part.gives,
        _ => false,
    }
}

// Whether a component is held that the references refer to.
fn is_chosen(library: &Library, references: &References<'_>, key: &Key) -> bool
    ensures { (doc : ADoc) → AreReferencesOf doc.entries references.now → IsTrue result ↔ IsChosen library.now doc key.now }
{
    match library.find(key) {
        Some(part) => references.refer(key, part),
        None => false,
    }
}

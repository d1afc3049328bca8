ghost use Rattle.std.specs.Prelude.{◌≡◌, ◌↔◌, ℕ, Err, IfOk, IsOk, IsTrue, OnOk};
ghost use Rattle.std.specs.FinMap.{find};
ghost use Rattle.std.specs.Option.{option_copied};
ghost use Rattle.odd_text.specs.Map.{SetsOnly};
ghost use Rattle.odd_text.specs.Text.{text_cmp};
ghost use Rattle.odd_text.specs.declared.key.Key.{Key as AKey};
ghost use Rattle.odd_meaning.specs.Rules.{Breaks, BreaksWithin, IsFirstBreak};
ghost use Rattle.odd_content.specs.Formed.{once};
ghost use Rattle.odd_content.specs.declared.content.Content.{Macro};
ghost use Rattle.odd_classes.specs.DataFacts.{AreFactsOf, HasFacts, HasFactsOfParts, IsMixedPart};
ghost use Rattle.odd_classes.specs.Ranking.{IsMacroOrder};

use crate::rules::LibraryRefusal;
use odd_content::{Content, Contents};
use odd_library::{Component, Library};
use odd_text::{Kind, NoMemory, Text, TryCopy, Words};
use rng_types::Bounds;
use std::alloc::Global;
use std::collections::BTreeMap;

/// Whether a content reaches data, and whether it is data content.
#[derive(Clone, Copy, Drop)]
pub struct DataFacts {
    pub reaches: bool,
    pub is_data: bool,
}

// What holds of each macro, by ident. A tree takes them in any order.
type MacroFacts = BTreeMap<Text, DataFacts>;

// The content of an element or a macro reaches data and is not data content.
const MIXES_DATA: u8 = 18;

/// Rule is answered for the first element, or else the first macro, whose content reaches data and is not data content (rule 18). No
/// macro of the library reaches itself, and they are given in their order. NoMemory is answered for want of memory.
pub fn check_data(alloc: Global, library: &Library, order: &Words) -> Result<(), LibraryRefusal>
    requires acyclic { (key : AKey) → Breaks library.now key 14 → ⊥ }
    requires order { IsMacroOrder library.now order.now }
    ensures none { IsOk result → (key : AKey) (rule : ℕ) → BreaksWithin 18 18 library.now key rule → ⊥ }
    ensures first { (key : AKey) (rule : ℕ) → result ≡ Err (LibraryRefusal.Rule key rule) → IsFirstBreak (BreaksWithin 18 18 library.now) key rule }
{
    let macros = macro_facts(alloc, library, order)?;
    for (key, part) in library.parts.entries() {
        if is_mixed(part, &macros) {
            let key = key.copy(alloc)?;
            let rule = MIXES_DATA;
            return Err(LibraryRefusal::Rule { key, rule });
        }
    }
    Ok(())
}

// Whether a component is an element or a macro whose content reaches data and is not data content.
fn is_mixed(part: &Component, macros: &MacroFacts) -> bool
    ensures { IsMixedPart macros.now.entries part.now result }
{
    match part {
        Component::Element(part) => {
            let facts = facts_of(&part.content, macros);
            facts.reaches && !facts.is_data
        }
        Component::Macro(part) => {
            let facts = facts_of(&part.content, macros);
            facts.reaches && !facts.is_data
        }
        Component::Class(_) | Component::Datatype(_) => false,
    }
}

// What holds of each held macro, each after those that its content names.
fn macro_facts(alloc: Global, library: &Library, order: &Words) -> Result<MacroFacts, NoMemory>
    requires acyclic { (key : AKey) → Breaks library.now key 14 → ⊥ }
    requires order { IsMacroOrder library.now order.now }
    ensures { IfOk result (λ facts. AreFactsOf library.now facts.entries) }
{
    let mut facts = BTreeMap::new(alloc);
    for ident in order.as_slice() {
        if let Some(Component::Macro(part)) = library.find_by(Kind::Macro, ident) {
            let of_it = facts_of(&part.content, &facts);
            keep(&mut facts, ident.copy(alloc)?, of_it)?;
        }
    }
    Ok(facts)
}

// Keeps what holds of a macro.
fn keep(macros: &mut MacroFacts, ident: Text, facts: DataFacts) -> Result<(), NoMemory>
    ensures { OnOk result (SetsOnly text_cmp macros.old.entries macros.new.entries ident facts) }
{
    macros.insert(ident, facts)?;
    Ok(())
}

// What is kept of a macro.
fn kept<'a>(macros: &'a MacroFacts, ident: &Text) -> Option<&'a DataFacts>
    ensures { option_copied result ≡ find text_cmp ident.now macros.now.entries }
{
    macros.get(ident)
}

// What holds of a content, by what holds of macros.
#[cycle(facts_of)]
fn facts_of(content: &Content, macros: &MacroFacts) -> DataFacts
    ensures { HasFacts macros.now.entries content.now result }
{
    match content {
        Content::Value(_) | Content::Vals(_) => DataFacts {
            reaches: true,
            is_data: true,
        },
        Content::Macro { key, bounds } => macro_named(key, *bounds, macros),
        Content::Sequence { parts, bounds: _ } => DataFacts {
            reaches: facts_of_parts(parts, macros).reaches,
            is_data: false,
        },
        Content::Alternate { parts, bounds } => {
            let facts = facts_of_parts(parts, macros);
            DataFacts {
                reaches: facts.reaches,
                is_data: facts.is_data && is_once(*bounds) && !parts.is_empty(),
            }
        }
        Content::Empty
        | Content::Text
        | Content::Element { .. }
        | Content::Class { .. }
        | Content::Any { .. } => NO_DATA,
    }
}

// What holds of a content without data.
const NO_DATA: DataFacts = DataFacts {
    reaches: false,
    is_data: false,
};

// Whether one of the parts reaches data, and whether each is data content.
#[cycle(facts_of)]
fn facts_of_parts(parts: &Contents, macros: &MacroFacts) -> DataFacts
    ensures { HasFactsOfParts macros.now.entries parts.now result }
{
    let mut facts = DataFacts {
        reaches: false,
        is_data: true,
    };
    for part in parts.as_slice() {
        let of_part = facts_of(part, macros);
        facts.reaches = facts.reaches || of_part.reaches;
        facts.is_data = facts.is_data && of_part.is_data;
    }
    facts
}

// What holds of a reference to a macro.
fn macro_named(key: &Text, bounds: Bounds, macros: &MacroFacts) -> DataFacts
    ensures { HasFacts macros.now.entries (Macro key.now bounds) result }
{
    match kept(macros, key) {
        Some(facts) => DataFacts {
            reaches: facts.reaches,
            is_data: facts.is_data && is_once(bounds),
        },
        None => NO_DATA,
    }
}

// Whether bounds are 1 and 1.
fn is_once(bounds: Bounds) -> bool
    ensures { IsTrue result ↔ (bounds ≡ once) }
{
    bounds.min == 1 && bounds.max == Some(1)
}

ghost use Rattle.std.specs.Prelude.{◌≡◌, ◌↔◌, ℕ, Err, IfOk, IsOk};
ghost use Rattle.odd_text.specs.Key.{key_cmp};
ghost use Rattle.odd_text.specs.declared.key.Key.{Key as AKey};
ghost use Rattle.odd_text.specs.declared.offence.Offence.{Offence as AnOffence};
ghost use Rattle.odd_text.specs.Standing.{StandsIn};
ghost use Rattle.odd_text.specs.Sorted.{IsSet};
ghost use Rattle.odd_modes.specs.Choosing.{IsChosen};
ghost use Rattle.odd_modes.specs.Index.{AreReferencesOf, keys_listed};
ghost use Rattle.odd_modes.specs.Offences.{IsFirstOffence, RefersWrongly};
ghost use Rattle.odd_library.specs.declared.odd.OddDoc.{OddDoc as ADoc};

use crate::faults::first_reference_fault;
use crate::references::References;
use odd_library::{Library, OddDoc, OddRefusal};
use odd_text::{Keys, NoMemory, TryCopy, sorted};
use std::alloc::Global;

/// The components of a library that a file chooses, which is number `file` of its chain, counted from 1: those that its
/// references name, in order of their keys, each once (docs/merging.md). Offence is answered for the first reference by
/// place that breaks a rule, with the least that it breaks: 6, it names a component that is not held; 7, no component
/// is of the module; 8, `include` or `except` names no element of the module. NoMemory is answered for want of memory.
pub fn select(alloc: Global, library: &Library, doc: &OddDoc, file: u32) -> Result<Keys, OddRefusal>
    ensures keys { IfOk result (IsSet key_cmp (IsChosen library.now doc.now)) }
    ensures sound { IsOk result → (place rule : ℕ) → RefersWrongly library.now doc.now place rule → ⊥ }
    ensures offence { (offence : AnOffence) → result ≡ Err (OddRefusal.Offence offence) → IsFirstOffence (RefersWrongly library.now doc.now) file offence }
{
    if let Some(fault) = first_reference_fault(alloc, library, doc)? {
        return Err(OddRefusal::Offence(fault.in_file(file)));
    }
    let references = References::among(alloc, doc.entries.as_slice())?;
    let keys = chosen_keys(alloc, library, &references)?;
    Ok(sorted(alloc, keys)?)
}

/// The keys of the components that references refer to.
pub fn chosen_keys(
    alloc: Global,
    library: &Library,
    references: &References<'_>,
) -> Result<Keys, NoMemory>
    ensures listed { IfOk result (λ keys. keys ≡ keys_listed references.now library.now.parts) }
    ensures chosen { IfOk result (λ keys. (doc : ADoc) → AreReferencesOf doc.entries references.now → (key : AKey) → StandsIn keys key ↔ IsChosen library.now doc key) }
{
    let mut keys = Keys::new(alloc);
    for (key, part) in library.parts.entries() {
        if references.refer(key, part) {
            keys.push(key.copy(alloc)?)?;
        }
    }
    Ok(keys)
}

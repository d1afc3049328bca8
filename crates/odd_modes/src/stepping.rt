ghost use Rattle.std.specs.Prelude.{◌≡◌, ◌<◌, ℕ, List, [], ◌∷◌, ◌++◌, Err, IfOk, IsOk, IsTrue};
ghost use Rattle.std.specs.FinMap.{find, is_sorted};
ghost use Rattle.odd_text.specs.Key.{key_cmp};
ghost use Rattle.odd_text.specs.declared.key.Key.{Key as AKey};
ghost use Rattle.odd_text.specs.declared.offence.Offence.{Offence as AnOffence};
ghost use Rattle.odd_library.specs.Formed.{IsFormedDoc, IsFormedLibrary};
ghost use Rattle.odd_library.specs.Over.{spec_laid};
ghost use Rattle.odd_library.specs.declared.odd.OddDoc.{OddDoc as ADoc};
ghost use Rattle.odd_modes.specs.After.{IsLibraryAfter, after_one};
ghost use Rattle.odd_modes.specs.Index.{AreReferencesOf};
ghost use Rattle.odd_modes.specs.Offences.{IsFirstOffence, Offends};
ghost use Rattle.odd_modes.specs.Swept.{swept_at};

use crate::faults::first_fault;
use crate::layer::{Layer, layer_of};
use crate::references::References;
use crate::sweeping::sweep;
use odd_library::{Library, OddDoc, OddRefusal, Parts};
use odd_text::{NoMemory, Steps, TryCopy};
use std::alloc::Global;
use std::marker::Brand;
use std::sync::ledger::{Blank, Ledger};

/// The library after a file, which is number `file` of its chain, counted from 1, over the library after the files before
/// it (docs/merging.md). Offence is answered for the first item by place that breaks a rule, with the least that it
/// breaks: 5, it adds what is chosen; 6, it changes, deletes or replaces what is not chosen, or refers to what is not
/// held; 7, no component is of the module; 8, `include` or `except` names no element of the module; 9, it gives a class
/// that it changes another type. NoMemory is answered for want of memory.
pub fn step(
    alloc: Global,
    library: &Library,
    doc: &OddDoc,
    file: u32,
) -> Result<Library, OddRefusal>
    ensures library { IfOk result (λ made. (docs : List ADoc) → IsLibraryAfter docs library.now → IsLibraryAfter (docs ++ doc.now ∷ []) made) }
    ensures formed { IsFormedLibrary library.now → IsFormedDoc doc.now → IfOk result IsFormedLibrary }
    ensures sound { IsOk result → (place rule : ℕ) → Offends library.now doc.now place rule → ⊥ }
    ensures offence { (offence : AnOffence) → result ≡ Err (OddRefusal.Offence offence) → IsFirstOffence (Offends library.now doc.now) file offence }
{
    step_into(alloc, library.copy(alloc)?, doc, file)
}

/// As `step`, with the library moved in: what the file keeps of it is moved, and not copied.
pub fn step_into(
    alloc: Global,
    library: Library,
    doc: &OddDoc,
    file: u32,
) -> Result<Library, OddRefusal>
    ensures library { IfOk result (λ made. (docs : List ADoc) → IsLibraryAfter docs library → IsLibraryAfter (docs ++ doc.now ∷ []) made) }
    ensures formed { IsFormedLibrary library → IsFormedDoc doc.now → IfOk result IsFormedLibrary }
    ensures sound { IsOk result → (place rule : ℕ) → Offends library doc.now place rule → ⊥ }
    ensures offence { (offence : AnOffence) → result ≡ Err (OddRefusal.Offence offence) → IsFirstOffence (Offends library doc.now) file offence }
{
    let references = References::among(alloc, doc.entries.as_slice())?;
    if let Some(fault) = first_fault(alloc, &library, &references, doc)? {
        return Err(OddRefusal::Offence(fault.in_file(file)));
    }
    let ident = doc.ident.copy(alloc)?;
    let start = doc.start.copy(alloc)?;
    let parts = parts_after(alloc, library, &references, doc)?;
    Ok(Library {
        ident,
        start,
        parts,
    })
}

// What the library after a file holds.
fn parts_after(
    alloc: Global,
    library: Library,
    references: &References<'_>,
    doc: &OddDoc,
) -> Result<Parts, NoMemory>
    requires { AreReferencesOf doc.now.entries references.now }
    ensures rising { IfOk result (λ parts. IsTrue (is_sorted key_cmp parts)) }
    ensures holds { IfOk result (λ parts. (key : AKey) → find key_cmp key parts ≡ after_one doc.now key (find key_cmp key library.parts)) }
{
    let layer = layer_of(alloc, &library, references, doc.entries.as_slice())?;
    let parts = swept(alloc, library.parts, layer)?;
    let _ = parts.entries();
    Ok(parts)
}

// The acts laid over the parts, with no count kept.
fn swept(alloc: Global, parts: Parts, layer: Layer<'_>) -> Result<Parts, NoMemory>
    ensures { IfOk result (λ made. (key : AKey) → find key_cmp key made ≡ swept_at spec_laid (find key_cmp key layer.entry) (find key_cmp key parts)) }
{
    counted::<Brand>(alloc, parts, layer, Blank::new(1))
}

// The same with a count of the steps.
fn counted<L: Ledger>(
    alloc: Global,
    parts: Parts,
    layer: Layer<'_>,
    blank: Blank,
) -> Result<Parts, NoMemory>
    requires name { blank.name ≡ L.name }
    requires parts { blank.parts ≡ L.parts }
    requires some { 0 < blank.parts }
    ensures { IfOk result (λ made. (key : AKey) → find key_cmp key made ≡ swept_at spec_laid (find key_cmp key layer.entry) (find key_cmp key parts)) }
{
    let mut steps = Steps::<L>::start(blank);
    sweep(alloc, parts, layer, &mut steps)
}

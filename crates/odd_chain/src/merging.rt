ghost use Rattle.std.specs.Prelude.{◌≡◌, ◌<◌, ◌^◌, ℕ, length, All, Err, IfOk, IsOk};
ghost use Rattle.odd_text.specs.declared.key.Key.{Key as AKey};
ghost use Rattle.odd_text.specs.declared.offence.Offence.{Offence as AnOffence};
ghost use Rattle.odd_library.specs.Formed.{IsFormedDoc, IsFormedLibrary};
ghost use Rattle.odd_meaning.specs.Rules.{Breaks};
ghost use Rattle.odd_modes.specs.After.{IsLibraryAfter};
ghost use Rattle.odd_chain.specs.Offences.{OffendsIn};
ghost use Rattle.odd_chain.specs.Order.{IsFirst, Position};
ghost use Rattle.odd_chain.specs.Reading.{IsFirstOfLibrary};

use odd_classes::{Checked, LibraryRefusal, check};
use odd_library::{Library, OddDoc, OddRefusal};
use odd_modes::step_into;
use odd_text::{Offence, Seq, Who};
use std::alloc::Global;

/// The docs of a chain, in the order of its files.
pub type OddDocs = Seq<OddDoc>;

/// The library after the docs of a chain, each over the library after those before it (docs/merging.md); over no doc it is
/// the empty one. Offence is answered for the first doc that has an offence: with the first of its items by place and then
/// by rule, and where its items have none with the first of the library after it, by rule, kind and ident. The number of a
/// doc is its place in the list, counted from 1. There are fewer than 2^32 docs. NoMemory is answered for want of memory.
pub fn merge(alloc: Global, docs: &OddDocs) -> Result<Library, OddRefusal>
    requires { length docs.now < 2 ^ 32 }
    ensures library { IfOk result (IsLibraryAfter docs.now) }
    ensures formed { All IsFormedDoc docs.now → IfOk result IsFormedLibrary }
    ensures sound { IsOk result → (file : ℕ) (at : Position) → OffendsIn docs.now file at → ⊥ }
    ensures offence { (offence : AnOffence) → result ≡ Err (OddRefusal.Offence offence) → IsFirst (OffendsIn docs.now) offence }
    ensures unbroken { IfOk result (λ library. (key : AKey) (rule : ℕ) → Breaks library key rule → ⊥) }
{
    let mut library = Library::empty(alloc)?;
    let mut file = 0u32;
    for doc in docs.as_slice() {
        checked_after(alloc, &library, file)?;
        file += 1;
        library = step_into(alloc, library, doc, file)?;
    }
    checked_after(alloc, &library, file)?;
    Ok(library)
}

/// The library after so many docs, with what was found when it was checked. Offence is answered for the first rule that it breaks.
/// NoMemory is answered for want of memory.
pub fn checked_after<'a>(
    alloc: Global,
    library: &'a Library,
    file: u32,
) -> Result<Checked<'a>, OddRefusal>
    ensures same { IfOk result (λ checked. checked ≡ library.now) }
    ensures sound { IsOk result → (key : AKey) (rule : ℕ) → Breaks library.now key rule → ⊥ }
    ensures offence { (offence : AnOffence) → result ≡ Err (OddRefusal.Offence offence) → IsFirstOfLibrary library.now file offence }
{
    match check(alloc, library) {
        Ok(checked) => Ok(checked),
        Err(LibraryRefusal::Rule { key, rule }) => {
            let who = Who::Part(key);
            Err(OddRefusal::Offence(Offence { file, who, rule }))
        }
        Err(LibraryRefusal::NoMemory) => Err(OddRefusal::NoMemory),
    }
}

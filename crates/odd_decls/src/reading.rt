ghost use Rattle.std.specs.Prelude.{◌≡◌, ℕ, List, [], Err, IfOk, map, unwrap_or};
ghost use Rattle.odd_text.specs.declared.offence.Offence.{Offence as AnOffence};
ghost use Rattle.odd_tree.specs.Formed.{IsFormed};
ghost use Rattle.odd_tree.specs.declared.tree.Tree.{Tree as ATree};
ghost use Rattle.odd_items.specs.Search.{Found as AFound};
ghost use Rattle.odd_library.specs.Formed.{IsFormedDoc};
ghost use Rattle.odd_decls.specs.Declares.{AreEntriesOf, Declares, DeclaresWhole, PlacesRise, ident_in, namespace_of as the_namespace_of, start_in};
ghost use Rattle.odd_decls.specs.FileItems.{AreFileItems};
ghost use Rattle.odd_decls.specs.Offences.{IsRefusal, OffendsWhole};
ghost use Rattle.odd_decls.specs.Reading.{IsFirst, IsRefusalWhole};

use crate::aside::constraints_in;
use crate::declarations::namespace_around;
use crate::faults::first_fault;
use crate::file_items::{FileItems, file_items};
use crate::items::item_entry;
use odd_forms::{TEI, words_of};
use odd_items::without::without;
use odd_items::{Kept, bindings_around, level_bindings};
use odd_library::{Entries, OddDoc, OddRefusal};
use odd_text::{NoMemory, Text, TryCopy, Words, sorted};
use odd_tree::{Bindings, Tree, attribute};
use std::alloc::Global;

// The ident of a file without a `schemaSpec`, and the start word of one that has none.
const BARE: &str = "bare";

const START: &str = "TEI";

/// What the tree of an ODD file declares. `file` is its number, counted from 1. With `aside` each constraint that would break
/// rule 2 is taken out before all else, and `asides` is their number; without it none is.
///
/// Offence comes at an offence of form; of a formed tree, as `read_tree` gives it, at the first one, by place and then by rule.
/// NoMemory is answered for want of memory.
pub fn read_odd(alloc: Global, tree: &Tree, file: u32, aside: bool) -> Result<OddDoc, OddRefusal>
    ensures ok { (first end : ℕ) → IsFormed first end tree.now → IfOk result (Declares tree.now aside) }
    ensures offence { (offence : AnOffence) (first end : ℕ) → IsFormed first end tree.now → result ≡ Err (OddRefusal.Offence offence) → IsRefusal tree.now aside file offence }
    ensures formed { (first end : ℕ) → IsFormed first end tree.now → IfOk result IsFormedDoc }
{
    if !aside {
        return read_whole(alloc, tree, file, 0);
    }
    let of = file_items(alloc, tree)?;
    let places = constraints_in(alloc, of.items.as_slice())?;
    let mut gone = Vec::new(alloc);
    let left = without(alloc, tree, &places, &mut gone)?;
    read_whole(alloc, &left, file, gone.len() as u64)
}

// What a file declares of which so many constraints were taken out.
fn read_whole(alloc: Global, tree: &Tree, file: u32, asides: u64) -> Result<OddDoc, OddRefusal>
    ensures ok { (first end : ℕ) → IsFormed first end tree.now → IfOk result (λ doc. DeclaresWhole tree.now doc × (doc.asides ≡ asides)) }
    ensures offence { (offence : AnOffence) (first end : ℕ) → IsFormed first end tree.now → result ≡ Err (OddRefusal.Offence offence) → IsRefusalWhole tree.now file offence }
    ensures formed { (first end : ℕ) → IsFormed first end tree.now → IfOk result IsFormedDoc }
{
    let of = file_items(alloc, tree)?;
    let own = level_bindings(alloc, of.levels.as_slice())?;
    match first_fault(alloc, &of, own.as_slice())? {
        Some(fault) => Err(OddRefusal::Offence(fault.in_file(file))),
        None => Ok(doc_of(alloc, &of, own.as_slice(), asides)?),
    }
}

// What a file without an offence declares.
fn doc_of(
    alloc: Global,
    of: &FileItems<'_>,
    own: &[Bindings],
    asides: u64,
) -> Result<OddDoc, NoMemory>
    requires { own.now ≡ map (λ l. l.binds.now) of.now.levels.items }
    ensures { (t : ATree) (first end : ℕ) → IsFormed first end t → AreFileItems t of.now → ((place rule : ℕ) → OffendsWhole t place rule → ⊥) → IfOk result (λ doc. DeclaresWhole t doc × (doc.asides ≡ asides)) }
{
    let schema = of.schemas.as_slice().first();
    let ns = namespace_of(alloc, schema)?;
    Ok(OddDoc {
        ident: ident_of(alloc, schema)?,
        start: sorted(alloc, start_words(alloc, schema)?)?,
        entries: entries_of(alloc, of, own, &ns)?,
        asides,
    })
}

// The namespace of the elements that give none themselves.
fn namespace_of(alloc: Global, schema: Option<&Kept<'_>>) -> Result<Text, NoMemory>
    ensures { (schemas : List AFound) → IsFirst schema.entry schemas → IfOk result (λ ns. ns ≡ the_namespace_of schemas) }
{
    match schema {
        Some(schema) => namespace_around(alloc, schema.tree),
        None => Text::from_str(alloc, TEI),
    }
}

// The ident of a file.
fn ident_of(alloc: Global, schema: Option<&Kept<'_>>) -> Result<Text, NoMemory>
    ensures { (schemas : List AFound) → IsFirst schema.entry schemas → IfOk result (λ ident. ident ≡ unwrap_or (ident_in schemas) []) }
{
    let Some(schema) = schema else {
        return Text::from_str(alloc, BARE);
    };
    match attribute(&schema.tree.attrs, "ident") {
        Some(ident) => ident.copy(alloc),
        None => Ok(Text::new(alloc)),
    }
}

// The words of `start`, as they are written; `TEI` where it is absent.
fn start_words(alloc: Global, schema: Option<&Kept<'_>>) -> Result<Words, NoMemory>
    ensures { (schemas : List AFound) → IsFirst schema.entry schemas → IfOk result (λ words. words ≡ start_in schemas) }
{
    let Some(schema) = schema else {
        return words_of(alloc, START);
    };
    match attribute(&schema.tree.attrs, "start") {
        Some(value) => words_of(alloc, value.as_str()),
        None => words_of(alloc, START),
    }
}

// What the items declare, in their order. `ns` is the namespace of elements that give none themselves.
fn entries_of(
    alloc: Global,
    of: &FileItems<'_>,
    own: &[Bindings],
    ns: &Text,
) -> Result<Entries, NoMemory>
    requires { own.now ≡ map (λ l. l.binds.now) of.now.levels.items }
    ensures { (t : ATree) (first end : ℕ) → IsFormed first end t → (are : AreFileItems t of.now) → ((place rule : ℕ) → OffendsWhole t place rule → ⊥) → ns.now ≡ the_namespace_of are.schemas → IfOk result (λ entries. AreEntriesOf t are.schemas entries × PlacesRise entries) }
{
    let mut entries = Entries::new(alloc);
    for item in of.items.iter() {
        let around = bindings_around(alloc, of.levels.as_slice(), own, item.level)?;
        if let Some(entry) = item_entry(alloc, ns, item, around.as_slice())? {
            entries.push(entry)?;
        }
    }
    Ok(entries)
}

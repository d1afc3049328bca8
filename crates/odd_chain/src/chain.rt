ghost use Rattle.std.specs.Prelude.{◌≡◌, ℕ, suc, Bool, List, [], ◌∷◌, ◌++◌, length, Err, IfOk};
ghost use Rattle.odd_text.specs.declared.offence.Offence.{Offence as AnOffence};
ghost use Rattle.odd_library.specs.Formed.{IsFormedLibrary};
ghost use Rattle.odd_chain.specs.Files.{Gives, IsChainRefusal};
ghost use Rattle.odd_chain.specs.Reading.{AreMerged, IsChainOf, IsFormedChain};
ghost use Rattle.odd_tree.specs.Formed.{IsFormed};
ghost use Rattle.odd_tree.specs.declared.tree.Tree.{Tree as ATree};

use crate::merging::checked_after;
use odd_classes::Checked;
use odd_decls::read_odd;
use odd_library::{Library, OddRefusal};
use odd_modes::step_into;
use odd_text::{NoMemory, Offence};
use odd_tree::Tree;
use std::alloc::Global;

/// What the files of a chain that are read so far come to. Files are numbered from 1. What a file declares is merged as soon as it is
/// read, and no doc is kept.
#[derive(Drop)]
pub enum Chain {
    /// The files have no offence so far; whether the library after them breaks a rule is asked next.
    Whole(Merged),
    /// The first offence.
    Broken(Offence),
}

/// The library after so many files, of which so many constraints were taken out; past the last number of 64 bits these stand still.
#[derive(Drop)]
pub struct Merged {
    pub library: Library,
    pub files: u32,
    pub asides: u64,
}

impl Chain {
    /// The chain of no file. The only error is NoMemory, for want of memory.
    pub fn new(alloc: Global) -> Result<Chain, NoMemory>
        ensures empty { IfOk result (λ made. (aside : Bool) → IsChainOf aside made []) }
        ensures formed { IfOk result IsFormedChain }
    {
        let library = Library::empty(alloc)?;
        Ok(Chain::Whole(Merged {
            library,
            files: 0,
            asides: 0,
        }))
    }

    /// The chain with one file more, of which this is the tree, a formed one as `spell` gives it, which is given up once it is read. `file` is its number: one
    /// more than there are files so far. With `aside` constraints are taken out, of each file of a chain or of none. The only
    /// error is NoMemory, for want of memory.
    pub fn with(self, alloc: Global, tree: Tree, file: u32, aside: bool) -> Result<Chain, NoMemory>
        ensures chain { IfOk result (λ made. (trees : List ATree) (first end : ℕ) → IsFormed first end tree → IsChainOf aside self trees → file ≡ suc (length trees) → IsChainOf aside made (trees ++ tree ∷ [])) }
        ensures formed { (first end : ℕ) → IsFormed first end tree → IsFormedChain self → IfOk result IsFormedChain }
    {
        match self {
            Chain::Whole(merged) => match merged.with(alloc, tree, file, aside) {
                Ok(merged) => Ok(Chain::Whole(merged)),
                Err(OddRefusal::Offence(offence)) => Ok(Chain::Broken(offence)),
                Err(OddRefusal::NoMemory) => Err(NoMemory),
            },
            Chain::Broken(offence) => Ok(Chain::Broken(offence)),
        }
    }
}

impl Merged {
    /// The library, which breaks no rule, with what was found when it was checked; or Offence for the first offence of the files:
    /// the first by rule, kind and ident of the library after the last. NoMemory is answered for want of memory.
    pub fn checked(&self, alloc: Global) -> Result<Checked<'_>, OddRefusal>
        ensures same { IfOk result (λ library. library ≡ self.now.library) }
        ensures library { IfOk result (λ library. (aside : Bool) (trees : List ATree) → AreMerged aside trees self.now → Gives aside trees library) }
        ensures offence { (offence : AnOffence) → result ≡ Err (OddRefusal.Offence offence) → (aside : Bool) (trees : List ATree) → AreMerged aside trees self.now → IsChainRefusal aside trees offence }
    {
        checked_after(alloc, &self.library, self.files)
    }

    // The files with one more, or their first offence.
    fn with(self, alloc: Global, tree: Tree, file: u32, aside: bool) -> Result<Merged, OddRefusal>
        ensures merged { IfOk result (λ made. (trees : List ATree) (first end : ℕ) → IsFormed first end tree → AreMerged aside trees self → file ≡ suc (length trees) → AreMerged aside (trees ++ tree ∷ []) made) }
        ensures formed { (first end : ℕ) → IsFormed first end tree → IsFormedLibrary self.library → IfOk result (λ made. IsFormedLibrary made.library) }
        ensures offence { (offence : AnOffence) → result ≡ Err (OddRefusal.Offence offence) → (trees : List ATree) (first end : ℕ) → IsFormed first end tree → AreMerged aside trees self → file ≡ suc (length trees) → IsChainRefusal aside (trees ++ tree ∷ []) offence }
    {
        let Merged {
            library,
            files: before,
            asides,
        } = self;
        checked_after(alloc, &library, before)?;
        let doc = read_odd(alloc, &tree, file, aside)?;
        drop(tree);
        let library = step_into(alloc, library, &doc, file)?;
        Ok(Merged {
            library,
            files: file,
            asides: asides.saturating_add(doc.asides),
        })
    }
}

ghost use Rattle.std.specs.Prelude.{◌≡◌, ℕ, Bool, List, IfOk, IfErr, length};
ghost use Rattle.odd_text.specs.declared.key.Key.{Key as AKey};
ghost use Rattle.odd_meaning.specs.Rules.{Breaks};
ghost use Rattle.odd_tree.specs.declared.tree.Tree.{Tree as ATree};
ghost use Rattle.odd_chain.specs.Base.{SpellsBase};
ghost use Rattle.odd_chain.specs.Files.{Gives};
ghost use Rattle.odd_chain.specs.Reading.{IsChainOf, IsFormedChain};
ghost use Rattle.odd_library.specs.Formed.{IsFormedLibrary};
ghost use Rattle.odd_library.specs.declared.library.Library.{Library as ALibrary};
ghost use Rattle.odd_emit.specs.Components.{merged_odd};
ghost use Rattle.odd_cli.specs.Outcome.{answers, gives};
ghost use Rattle.odd_cli.specs.Reply.{HasAccount, HasText, TreesComeTo};
ghost use Rattle.odd_cli.specs.Reading.{IsOfTrees};
ghost use Rattle.odd_cli.specs.Running.{AcceptsAdmitted, IsReplied, Serves, ServesTrees};
ghost use Rattle.odd_cli.specs.Words as task_is;
ghost use Rattle.odd_cli.specs.Words.{told};
ghost use Rattle.compile_core.specs.Account.{IsAccount};

use crate::status::{LimitKind, Status};
use crate::words::Task;
use compile_core::{CompileRefusal, compile_checked, explain_checked};
use odd_chain::{Chain, print_odd};
use odd_classes::Checked;
use odd_library::{Library, OddRefusal};
use odd_text::{NoMemory, Offence, Text};
use rng_emit::print_rng;
use std::alloc::Global;

/// What is written of the library after the files of a chain, of which there are so many, or why nothing is written.
pub fn text_of_chain(
    alloc: Global,
    chain: Chain,
    task: Task<'_>,
    files: u32,
) -> Result<Text, Status>
    requires { IsFormedChain chain }
    ensures ok { IfOk result (λ text. (aside : Bool) (trees : List ATree) → IsChainOf aside chain trees → files ≡ length trees → TreesComeTo (told task.entry) aside trees (gives text)) }
    ensures serves { IfOk result (λ text. (aside : Bool) (trees : List ATree) → IsChainOf aside chain trees → ServesTrees (told task.entry) aside trees text) }
    ensures whole { IfOk result (λ text. (aside : Bool) (trees : List ATree) → IsChainOf aside chain trees → (library : ALibrary) × Gives aside trees library) }
    ensures err { IfErr result (λ status. (aside : Bool) (trees : List ATree) → IsChainOf aside chain trees → files ≡ length trees → IsReplied status → TreesComeTo (told task.entry) aside trees (answers status)) }
    ensures of_trees { IfErr result IsOfTrees }
{
    let merged = match chain {
        Chain::Whole(merged) => merged,
        Chain::Broken(offence) => return Err(Status::Refused(offence)),
    };
    match merged.checked(alloc) {
        Ok(library) => text_of_library(alloc, &library, task, files),
        Err(OddRefusal::Offence(offence)) => Err(Status::Refused(offence)),
        Err(OddRefusal::NoMemory) => Err(Status::NoMemory),
    }
}

// What is written of the library after so many files.
fn text_of_library(
    alloc: Global,
    library: &Checked<'_>,
    task: Task<'_>,
    files: u32,
) -> Result<Text, Status>
    requires { IsFormedLibrary library.now }
    ensures ok { IfOk result (λ text. HasText (told task.entry) files library.now (gives text)) }
    ensures serves { IfOk result (Serves (told task.entry) library.now) }
    ensures err { IfErr result (λ status. IsReplied status → HasText (told task.entry) files library.now (answers status)) }
    ensures of_trees { IfErr result IsOfTrees }
{
    match task {
        Task::Merge => merged_odd_of(alloc, library.library()),
        Task::Compile => schema_of(alloc, library, files),
        Task::Explain(ident) => account_of(alloc, library, ident, files),
    }
}

// The merged ODD that stands for the files of a library, which breaks no rule.
fn merged_odd_of(alloc: Global, library: &Library) -> Result<Text, Status>
    requires unbroken { (key : AKey) (rule : ℕ) → Breaks library.now key rule → ⊥ }
    requires formed { IsFormedLibrary library.now }
    ensures ok { IfOk result (λ text. text ≡ merged_odd library.now) }
    ensures base { IfOk result (SpellsBase library.now) }
    ensures err { IfErr result (λ status. status ≡ Status.NoMemory) }
{
    match print_odd(alloc, library) {
        Ok(text) => Ok(text),
        Err(NoMemory) => Err(Status::NoMemory),
    }
}

// The schema of the library after so many files, or the start word that is no held element.
fn schema_of(alloc: Global, library: &Checked<'_>, files: u32) -> Result<Text, Status>
    requires { IsFormedLibrary library.now }
    ensures ok { IfOk result (λ text. HasText task_is.compile files library.now (gives text)) }
    ensures accepts { IfOk result (AcceptsAdmitted library.now) }
    ensures err { IfErr result (λ status. IsReplied status → HasText task_is.compile files library.now (answers status)) }
    ensures of_trees { IfErr result IsOfTrees }
{
    let grammar = match compile_checked(alloc, library, &library.library().start) {
        Ok(grammar) => grammar,
        Err(CompileRefusal::Offence(offence)) => {
            return Err(Status::Refused(in_file(offence, files)));
        }
        Err(CompileRefusal::TooLarge) => return Err(Status::Limit(LimitKind::Nodes)),
        Err(CompileRefusal::NoMemory) => return Err(Status::NoMemory),
    };
    match print_rng(alloc, &grammar) {
        Ok(text) => Ok(text),
        Err(NoMemory) => Err(Status::NoMemory),
    }
}

// The account of the element at an ident, or the offence that none is held there.
fn account_of(
    alloc: Global,
    library: &Checked<'_>,
    ident: &Text,
    files: u32,
) -> Result<Text, Status>
    ensures ok { IfOk result (IsAccount library.now ident.now) }
    ensures err { IfErr result (λ status. IsReplied status → HasAccount ident.now files library.now (answers status)) }
    ensures of_trees { IfErr result IsOfTrees }
{
    match explain_checked(alloc, library, ident) {
        Ok(text) => Ok(text),
        Err(OddRefusal::Offence(offence)) => Err(Status::Refused(in_file(offence, files))),
        Err(OddRefusal::NoMemory) => Err(Status::NoMemory),
    }
}

// The offence, in the file of a number.
fn in_file(offence: Offence, file: u32) -> Offence
    ensures file { result.file ≡ file }
    ensures who { result.who ≡ offence.who }
    ensures rule { result.rule ≡ offence.rule }
{
    let Offence { file: _, who, rule } = offence;
    Offence { file, who, rule }
}

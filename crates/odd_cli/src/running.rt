ghost use Rattle.std.specs.Prelude.{◌≡◌, ◌≢◌, ◌↔◌, ◌⊎◌, ◌≤◌, ◌+◌, ◌*◌, ◌<◌, ℕ, suc, Bool, List, Option, Err, Ok, Some, IsTrue, IfOk, IfErr, OnOk, [], ◌∷◌, ◌++◌, length};
ghost use Rattle.odd_text.specs.Count.{HasRisen, next_count};
ghost use Rattle.odd_base.specs.Shelf.{FileMap, Held, LeavesSuffix, NotHeld};
ghost use Rattle.odd_base.specs.Sink.{IsPartWritten};
ghost use Rattle.odd_tree.specs.Formed.{IsFormed as IsFormedTree};
ghost use Rattle.odd_tree.specs.declared.tree.Tree.{Tree as ATree};
ghost use Rattle.odd_chain.specs.Files.{AreDeclared, ChainOffends};
ghost use Rattle.odd_chain.specs.Order.{Position};
ghost use Rattle.odd_chain.specs.Reading.{IsChainOf, IsFormedChain};
ghost use Rattle.odd_library.specs.declared.odd.OddDoc.{OddDoc as ADoc};
ghost use Rattle.odd_cli.specs.Note.{note_text};
ghost use Rattle.odd_cli.specs.Outcome.{answers, gives};
ghost use Rattle.odd_cli.specs.Base.{IsBase};
ghost use Rattle.odd_cli.specs.Order.{IsInAnyOrder};
ghost use Rattle.odd_cli.specs.Words as task_is;
ghost use Rattle.odd_cli.specs.Words.{Asks, WordsMean, files_named, told};
ghost use Rattle.odd_cli.specs.declared.words.Job.{Job as AJob};
ghost use Rattle.odd_cli.specs.declared.status.Status.{Status as AStatus};
ghost use Rattle.odd_cli.specs.Reply.{FileStops, NamesFiles, ReadsChain, Reply, TreesComeTo, chain_files, file_bytes};
ghost use Rattle.odd_cli.specs.Reading.{IsChainRead, IsOfFile, IsOfTrees, IsTreeRead, StopsAt};
ghost use Rattle.odd_cli.specs.Running.{AcceptsOfWords, AsidesOfTrees, AsidesOfWords, BeginsFiles, GoesOn, IsComplete, IsFaultPlace, IsNoted, IsReadPlace, IsReplied, IsSilent, IsSound, AreReadWhole, ServesTrees, ServesWords, counted};

use crate::note::write_note;
use crate::status::{LimitKind, Status};
use crate::texts::text_of_chain;
use crate::words::{Asked, Task, job_asked};
use odd_base::{Shelf, Sink, SlurpRefusal, slurp, write_whole};
use odd_chain::Chain;
use odd_reader::{ReadRefusal, read_tree};
use odd_text::{NoMemory, Text, Words};
use odd_tree::Tree;
use std::alloc::Global;

/// How many bytes a file may have.
pub const FILE_BYTES: usize = 16_777_216;

/// How many files a chain may have.
pub const CHAIN_FILES: usize = 16;

/// Does all that the program does: reads the files that the words name from the shelf, writes the reply to `out`
/// and the status's line to `note`. The reply is whole in memory before its first byte is written.
pub fn run<F: Shelf, W: Sink, N: Sink>(
    alloc: Global,
    words: &Words,
    shelf: &mut F,
    out: &mut W,
    note: &mut N,
) -> Status
    ensures reply { (files : FileMap) (before : List ℕ) → F.holds shelf.old ≡ Some files → W.written out.old ≡ Some before → IsReplied result → ((text : List ℕ) × (W.written out.new ≡ Some (before ++ text)) × Reply words.now files text result) }
    ensures accepts { (files : FileMap) (before : List ℕ) → F.holds shelf.old ≡ Some files → W.written out.old ≡ Some before → result ≡ Status.Done → ((text : List ℕ) × (W.written out.new ≡ Some (before ++ text)) × AcceptsOfWords words.now files text) }
    ensures base { (files : FileMap) (before : List ℕ) (aside : Bool) (first : List (List ℕ)) → F.holds shelf.old ≡ Some files → W.written out.old ≡ Some before → result ≡ Status.Done → Asks words.now task_is.merge aside first → ((text : List ℕ) × (W.written out.new ≡ Some (before ++ text)) × IsBase files aside first text) }
    ensures order { (files : FileMap) (before : List ℕ) → F.holds shelf.old ≡ Some files → W.written out.old ≡ Some before → IsReplied result → ((text : List ℕ) × (W.written out.new ≡ Some (before ++ text)) × IsInAnyOrder files words.now text result) }
    ensures usage { (result ≡ Status.Usage) ↔ ((job : AJob) → WordsMean words.now job → ⊥) }
    ensures files { (result ≡ Status.Limit LimitKind.Files) ↔ NamesFiles words.now (answers (Status.Limit LimitKind.Files)) }
    ensures silent { IsSilent result → W.written out.new ≡ W.written out.old }
    ensures partial { (files : FileMap) (before : List ℕ) → F.holds shelf.old ≡ Some files → W.written out.old ≡ Some before → result ≡ Status.WriteFault → ((text : List ℕ) × Reply words.now files text Status.Done × IsPartWritten before text (W.written out.new)) }
    ensures read_cause { (file : ℕ) → result ≡ Status.ReadFault file → HasRisen (F.faults shelf.old) (F.faults shelf.new) }
    ensures write_cause { result ≡ Status.WriteFault → HasRisen (W.faults out.old) (W.faults out.new) }
    ensures read_place { (files : FileMap) (file : ℕ) → F.holds shelf.old ≡ Some files → result ≡ Status.ReadFault file → IsReadPlace words.now files file (F.rest shelf.new) (F.steady shelf.old) }
    ensures room { (files : FileMap) (text : List ℕ) (status : AStatus) → F.holds shelf.old ≡ Some files → Reply words.now files text status → IsTrue (W.steady out.old) → length text ≤ W.room out.old → result ≢ Status.WriteFault }
    ensures few_reads { F.reads shelf.new ≤ F.reads shelf.old + (files_named words.now) * (file_bytes + 1) }
    ensures begins { BeginsFiles result (files_named words.now) (F.begins shelf.old) (F.begins shelf.new) (F.reads shelf.old) (F.reads shelf.new) }
    ensures to_the_end { (files : FileMap) → F.holds shelf.old ≡ Some files → result ≡ Status.Done → AreReadWhole F.begins F.rest (GoesOn F.holds F.steady F.faults F.begins F.reads) (files_named words.now) shelf.old shelf.new × (F.rest shelf.new ≡ Some []) }
    ensures kept { F.holds shelf.new ≡ F.holds shelf.old }
    ensures note { (before : List ℕ) → N.written note.old ≡ Some before → (asides : Option ℕ) × IsNoted before (note_text result asides) (N.written note.new) (N.faults note.old) (N.faults note.new) × ((files : FileMap) → F.holds shelf.old ≡ Some files → result ≡ Status.Done → AsidesOfWords words.now files asides) }
    ensures complete { (files : FileMap) → F.holds shelf.old ≡ Some files → IsSound words.now files → (HasRisen (F.faults shelf.old) (F.faults shelf.new) → ⊥) → (HasRisen (W.faults out.old) (W.faults out.new) → ⊥) → IsComplete result }
    ensures complete_steady { (files : FileMap) → F.holds shelf.old ≡ Some files → IsSound words.now files → IsTrue (F.steady shelf.old) → IsTrue (W.steady out.old) → ((text : List ℕ) → Reply words.now files text Status.Done → length text ≤ W.room out.old) → IsComplete result }
    ensures one { (files : FileMap) (before text : List ℕ) (status : AStatus) → F.holds shelf.old ≡ Some files → W.written out.old ≡ Some before → IsReplied result → Reply words.now files text status → (result ≡ status) × (W.written out.new ≡ Some (before ++ text)) }

    // What a second run over the same shelf and output begins with.
    ensures shelf_counts { (F.faults shelf.old ≤ F.faults shelf.new) × (F.begins shelf.old ≤ F.begins shelf.new) × (F.reads shelf.old ≤ F.reads shelf.new) }
    ensures output_counts { (W.faults out.old ≤ W.faults out.new) × (N.faults note.old ≤ N.faults note.new) }
    ensures same_steady { (F.steady shelf.new ≡ F.steady shelf.old) × (W.steady out.new ≡ W.steady out.old) }
    ensures room_taken { (files : FileMap) (text : List ℕ) → F.holds shelf.old ≡ Some files → Reply words.now files text Status.Done → IsTrue (W.steady out.old) → result ≡ Status.Done → W.room out.new + length text ≡ W.room out.old }
    ensures room_kept { IsSilent result → W.room out.new ≡ W.room out.old }
{
    match reply_text(alloc, words, shelf) {
        Ok(answer) => match write_whole(out, answer.text.as_str().as_bytes()) {
            Ok(()) => noted(note, Status::Done, answer.asides),
            Err(_) => noted(note, Status::WriteFault, None),
        },
        Err(status) => noted(note, status, None),
    }
}

// The text of a reply, and how many constraints were taken out, where they are.
#[derive(Drop)]
struct Answer {
    text: Text,
    asides: Option<u64>,
}

// Writes the status's line to the note. What the note can't take changes nothing else.
fn noted<N: Sink>(note: &mut N, status: Status, asides: Option<u64>) -> Status
    ensures same { result ≡ status }
    ensures note { (before : List ℕ) → N.written note.old ≡ Some before → IsNoted before (note_text status asides) (N.written note.new) (N.faults note.old) (N.faults note.new) }
    ensures never_falls { N.faults note.old ≤ N.faults note.new }
{
    let _ = write_note(note, &status, asides);
    status
}

// The text of the reply, or the status where there is none.
fn reply_text<F: Shelf>(alloc: Global, words: &Words, shelf: &mut F) -> Result<Answer, Status>
    ensures ok { (files : FileMap) → F.holds shelf.old ≡ Some files → IfOk result (λ answer. Reply words.now files answer.text Status.Done) }
    ensures serves { (files : FileMap) → F.holds shelf.old ≡ Some files → IfOk result (λ answer. ServesWords words.now files answer.text) }
    ensures asides { (files : FileMap) → F.holds shelf.old ≡ Some files → IfOk result (λ answer. AsidesOfWords words.now files answer.asides) }
    ensures err { (files : FileMap) → F.holds shelf.old ≡ Some files → IfErr result (λ status. IsReplied status → Reply words.now files [] status) }
    ensures early { IfErr result IsSilent }
    ensures usage { (result ≡ Err Status.Usage) ↔ ((job : AJob) → WordsMean words.now job → ⊥) }
    ensures files { (result ≡ Err (Status.Limit LimitKind.Files)) ↔ NamesFiles words.now (answers (Status.Limit LimitKind.Files)) }
    ensures read_cause { (file : ℕ) → result ≡ Err (Status.ReadFault file) → HasRisen (F.faults shelf.old) (F.faults shelf.new) }
    ensures read_place { (files : FileMap) (file : ℕ) → F.holds shelf.old ≡ Some files → result ≡ Err (Status.ReadFault file) → IsReadPlace words.now files file (F.rest shelf.new) (F.steady shelf.old) }
    ensures few_reads { F.reads shelf.new ≤ F.reads shelf.old + (files_named words.now) * (file_bytes + 1) }
    ensures begins { OnOk result (F.begins shelf.new ≡ counted (F.begins shelf.old) (files_named words.now)) }
    ensures begins_err { IfErr result (λ status. BeginsFiles status (files_named words.now) (F.begins shelf.old) (F.begins shelf.new) (F.reads shelf.old) (F.reads shelf.new)) }
    ensures to_the_end { (files : FileMap) → F.holds shelf.old ≡ Some files → OnOk result (AreReadWhole F.begins F.rest (GoesOn F.holds F.steady F.faults F.begins F.reads) (files_named words.now) shelf.old shelf.new × (F.rest shelf.new ≡ Some [])) }
    ensures goes_on { GoesOn F.holds F.steady F.faults F.begins F.reads shelf.old shelf.new }
{
    let job = match chain_asked(words) {
        Ok(asked) => asked,
        Err(status) => return Err(status),
    };
    match read_chain(alloc, job.chain, job.aside, shelf) {
        Ok(chain) => answer_of(alloc, chain, job.task, job.aside, job.chain.len() as u32),
        Err(status) => Err(status),
    }
}

// What is written of the library after the files of a chain, of which there are so many, with the number of constraints
// that were taken out, or why nothing is written.
fn answer_of(
    alloc: Global,
    chain: Chain,
    task: Task<'_>,
    aside: bool,
    files: u32,
) -> Result<Answer, Status>
    requires { IsFormedChain chain }
    ensures ok { IfOk result (λ answer. (trees : List ATree) → IsChainOf aside chain trees → files ≡ length trees → TreesComeTo (told task.entry) aside trees (gives answer.text)) }
    ensures serves { IfOk result (λ answer. (trees : List ATree) → IsChainOf aside chain trees → ServesTrees (told task.entry) aside trees answer.text) }
    ensures asides { IfOk result (λ answer. (trees : List ATree) → IsChainOf aside chain trees → AsidesOfTrees aside trees answer.asides) }
    ensures err { IfErr result (λ status. (trees : List ATree) → IsChainOf aside chain trees → files ≡ length trees → IsReplied status → TreesComeTo (told task.entry) aside trees (answers status)) }
    ensures of_trees { IfErr result IsOfTrees }
{
    let asides = asides_of(&chain, aside);
    match text_of_chain(alloc, chain, task, files) {
        Ok(text) => Ok(Answer { text, asides }),
        Err(status) => Err(status),
    }
}

// How many constraints were taken out of the files of a chain, where they are.
fn asides_of(chain: &Chain, aside: bool) -> Option<u64>
    ensures { (trees : List ATree) (docs : List ADoc) → IsChainOf aside chain.now trees → ((file : ℕ) (at : Position) → ChainOffends aside trees file at → ⊥) → AreDeclared aside trees docs → AsidesOfTrees aside trees result }
{
    match chain {
        Chain::Whole(merged) if aside => Some(merged.asides),
        Chain::Whole(_) | Chain::Broken(_) => None,
    }
}

// The files of the chain that the words name.
fn chain_asked(words: &Words) -> Result<Asked<'_>, Status>
    ensures ok { IfOk result (λ asked. NamesFiles words.now (gives (told asked.task, asked.aside, asked.chain.now))) }
    ensures err { IfErr result (λ status. NamesFiles words.now (answers status)) }
{
    let Some(asked) = job_asked(words) else {
        return Err(Status::Usage);
    };
    if asked.chain.len() > CHAIN_FILES {
        return Err(Status::Limit(LimitKind::Files));
    }
    Ok(asked)
}

// The files of these names, one after the other. Each is read whole before the next is begun, and its tree is given up
// once it is read.
fn read_chain<F: Shelf>(
    alloc: Global,
    names: &[Text],
    aside: bool,
    shelf: &mut F,
) -> Result<Chain, Status>
    requires { length names.now ≤ chain_files }
    ensures ok { IfOk result (IsChainRead aside (F.holds shelf.old) names.now) }
    ensures err { (files : FileMap) → F.holds shelf.old ≡ Some files → IfErr result (λ status. IsReplied status → ReadsChain files names.now (answers status)) }
    ensures read_cause { (file : ℕ) → result ≡ Err (Status.ReadFault file) → HasRisen (F.faults shelf.old) (F.faults shelf.new) }
    ensures read_place { (files : FileMap) (file : ℕ) → F.holds shelf.old ≡ Some files → result ≡ Err (Status.ReadFault file) → IsFaultPlace names.now files file (F.rest shelf.new) (F.steady shelf.old) }
    ensures few_reads { F.reads shelf.new ≤ F.reads shelf.old + length names.now * (file_bytes + 1) }
    ensures begins { OnOk result (F.begins shelf.new ≡ counted (F.begins shelf.old) (length names.now)) }
    ensures begins_err { IfErr result (λ status. StopsAt (length names.now) status (F.begins shelf.old) (F.begins shelf.new) (F.reads shelf.old) (F.reads shelf.new)) }
    ensures to_the_end { (files : FileMap) → F.holds shelf.old ≡ Some files → OnOk result (AreReadWhole F.begins F.rest (GoesOn F.holds F.steady F.faults F.begins F.reads) (length names.now) shelf.old shelf.new) }
    ensures last_ended { (files : FileMap) → F.holds shelf.old ≡ Some files → names.now ≢ [] → OnOk result (F.rest shelf.new ≡ Some []) }
    ensures goes_on { GoesOn F.holds F.steady F.faults F.begins F.reads shelf.old shelf.new }
{
    let mut chain = match Chain::new(alloc) {
        Ok(chain) => chain,
        Err(NoMemory) => return Err(Status::NoMemory),
    };
    let mut file = 0u32;
    for name in names {
        file += 1;
        let read = read_file(alloc, name, file, shelf);
        chain = match with_file(alloc, chain, read, file, aside) {
            Ok(made) => made,
            Err(status) => return Err(status),
        };
    }
    Ok(chain)
}

// The tree of the file of a name, which has this number in its chain.
fn read_file<F: Shelf>(alloc: Global, name: &Text, file: u32, shelf: &mut F) -> Result<Tree, Status>
    ensures ok { IfOk result (IsTreeRead (F.holds shelf.old) name.now) }
    ensures err { (files : FileMap) → F.holds shelf.old ≡ Some files → IfErr result (λ status. IsReplied status → FileStops files name.now file status) }
    ensures of_file { IfErr result (IsOfFile file) }
    ensures read_cause { (number : ℕ) → result ≡ Err (Status.ReadFault number) → HasRisen (F.faults shelf.old) (F.faults shelf.new) }
    ensures not_held { (files : FileMap) (number : ℕ) → F.holds shelf.old ≡ Some files → IsTrue (F.steady shelf.old) → result ≡ Err (Status.ReadFault number) → NotHeld files name.now }
    ensures suffix { (files : FileMap) (bytes : List ℕ) (number : ℕ) → F.holds shelf.old ≡ Some files → Held files name.now bytes → result ≡ Err (Status.ReadFault number) → LeavesSuffix bytes (F.rest shelf.new) }
    ensures few_reads { F.reads shelf.new ≤ F.reads shelf.old + (file_bytes + 1) }
    ensures begins { F.begins shelf.new ≡ next_count (F.begins shelf.old) }
    ensures to_the_end { (files : FileMap) → F.holds shelf.old ≡ Some files → OnOk result (F.rest shelf.new ≡ Some []) }
    ensures goes_on { GoesOn F.holds F.steady F.faults F.begins F.reads shelf.old shelf.new }
{
    let bytes = match slurp(alloc, shelf, name, FILE_BYTES) {
        Ok(bytes) => bytes,
        Err(SlurpRefusal::ReadFault) => return Err(Status::ReadFault { file }),
        Err(SlurpRefusal::TooLong) => return Err(Status::Limit(LimitKind::Bytes { file })),
        Err(SlurpRefusal::NoMemory) => return Err(Status::NoMemory),
    };
    match read_tree(alloc, bytes.as_slice()) {
        Ok(tree) => Ok(tree),
        Err(ReadRefusal::NotXml { at }) => Err(Status::NotXml { file, at }),
        Err(ReadRefusal::TooDeep { at }) => Err(Status::Limit(LimitKind::Depth { file, at })),
        Err(ReadRefusal::NoMemory) => Err(Status::NoMemory),
    }
}

// The chain with one file more, of which this is the tree, or why it gives none.
fn with_file(
    alloc: Global,
    chain: Chain,
    read: Result<Tree, Status>,
    file: u32,
    aside: bool,
) -> Result<Chain, Status>
    ensures ok { IfOk result (λ made. (tree : ATree) × (read ≡ Ok tree) × ((trees : List ATree) (first end : ℕ) → IsFormedTree first end tree → IsChainOf aside chain trees → file ≡ suc (length trees) → IsChainOf aside made (trees ++ tree ∷ []))) }
    ensures formed { (first end : ℕ) → IfOk read (IsFormedTree first end) → IsFormedChain chain → IfOk result IsFormedChain }
    ensures err { IfErr result (λ status. (read ≡ Err status) ⊎ (status ≡ Status.NoMemory)) }
{
    let tree = read?;
    match chain.with(alloc, tree, file, aside) {
        Ok(made) => Ok(made),
        Err(NoMemory) => Err(Status::NoMemory),
    }
}

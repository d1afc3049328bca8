ghost use Rattle.std.specs.Prelude.{◌≡◌, ◌↔◌, ◌≤◌, ◌<◌, ℕ, IfOk, Some, Err, IsOk};
ghost use Rattle.std.specs.Option.{option_copied};
ghost use Rattle.odd_tree.specs.declared.tree.Tree.{Tree as ATree};
ghost use Rattle.odd_text.specs.declared.key.Key.{Key as AKey};
ghost use Rattle.odd_text.specs.declared.offence.Offence.{Offence as AnOffence};
ghost use Rattle.odd_meaning.specs.Admission.{Admits};
ghost use Rattle.odd_meaning.specs.Classes.{AreMembers, Members, members_count};
ghost use Rattle.odd_meaning.specs.Rules.{Breaks};
ghost use Rattle.rng_grammar.specs.Acceptance.{Accepts};
ghost use Rattle.rng_emit.specs.Grammar.{grammar_text};
ghost use Rattle.rng_emit.specs.Nodes.{text_nodes};
ghost use Rattle.rng_emit.specs.Plain.{IsPlain};
ghost use Rattle.compile_defines.specs.Contents.{listed_in};
ghost use Rattle.compile_defines.specs.declared.budget.MakeRefusal.TheVariants as refused;
ghost use Rattle.compile_defines.specs.Compiled.{HoldsStart, IsGrammarOf};
ghost use Rattle.odd_library.specs.Formed.{IsFormedLibrary};
ghost use Rattle.compile_core.specs.Schema.{HasLargeSchema, IsLeast, IsStartOffence, IsTooLarge};
ghost use Rattle.compile_core.specs.SchemaText.{IsSchemaText};

use compile_defines::{
    Budget, MakeRefusal, condition_defines, conditions_of, holds_element, library_defines,
    references_pattern,
};
use odd_classes::{Checked, LibraryRefusal, MemberTable, check};
use odd_library::Library;
use odd_text::{NoMemory, Offence, Text, TryCopy, Who, Words, lesser};
use rng_grammar::{Grammar, linked_nodes};
use std::alloc::Global;

/// Why a library has no schema.
#[derive(Debug, Drop, PartialEq, Eq)]
pub enum CompileRefusal {
    /// A start word is no held element. The file of the offence is 0.
    Offence(Offence),
    /// The schema passes a limit.
    TooLarge,
    NoMemory,
}

impl From<NoMemory> for CompileRefusal {
    ghost use Rattle.compile_core.specs.declared.compiling.CompileRefusal.TheVariants as refusal;

    ghost from_gives = { λ _ e. e ≡ refusal.NoMemory };

    fn from(_error: NoMemory) -> CompileRefusal {
        CompileRefusal::NoMemory
    }
}

impl From<MakeRefusal> for CompileRefusal {
    ghost use Rattle.compile_core.specs.Schema.{as_refusal};

    ghost from_gives = { λ refusal made. made ≡ as_refusal refusal };

    fn from(refusal: MakeRefusal) -> CompileRefusal {
        match refusal {
            MakeRefusal::TooLarge => CompileRefusal::TooLarge,
            MakeRefusal::NoMemory => CompileRefusal::NoMemory,
        }
    }
}

// The rule that each start word is a held element.
const START_RULE: u8 = 20;

// How many elements the text of a schema may have.
const MOST_ELEMENTS: u64 = 1_000_000;

// How many nodes it may have after linking.
const MOST_NODES: u64 = 4_000_000;

/// The grammar of a library and a list of start words: a define for each condition of `anyElement` by its number, one for
/// each class of type `model`, one for each datatype, element and macro by its ident, and a start that refers to the start
/// words (docs/schema.md). An element has the attributes that it offers. The text of the grammar is that of the library's schema,
/// define by define. The grammar of a formed library, as files give it, accepts the documents that the library admits, and no other
/// (docs/admission.md; ISO/IEC 19757-2, section 9). The library must break none of the rules on a whole library.
///
/// Offence comes where a start word is no held element, and only there. It names the least of these words in the order
/// of bytes, and its file is 0. TooLarge comes where each is one and the schema's text has more than 1,000,000 elements or
/// the grammar more than 4,000,000 nodes after linking; nothing larger than that text is made.
/// NoMemory is answered for want of memory.
pub fn compile(alloc: Global, library: &Library, start: &Words) -> Result<Grammar, CompileRefusal>
    requires { (key : AKey) (rule : ℕ) → Breaks library.now key rule → ⊥ }
    ensures grammar { IfOk result (IsGrammarOf library.now start.now) }
    ensures text { IfOk result (λ grammar. IsSchemaText library.now start.now (grammar_text grammar)) }
    ensures plain { IfOk result (λ grammar. IsFormedLibrary library.now → IsPlain grammar) }
    ensures accepts { IfOk result (λ grammar. IsFormedLibrary library.now → (t : ATree) → Accepts grammar t ↔ Admits library.now start.now t) }
    ensures held { IsOk result → HoldsStart library.now start.now }
    ensures within { IfOk result (λ grammar. IsTooLarge grammar → ⊥) }
    ensures offence { (offence : AnOffence) → result ≡ Err (CompileRefusal.Offence offence) → IsStartOffence library.now start.now offence }
    ensures too_large { result ≡ Err CompileRefusal.TooLarge → HasLargeSchema library.now start.now }
{
    match check(alloc, library) {
        Ok(checked) => compile_checked(alloc, &checked, start),
        Err(LibraryRefusal::Rule { key, rule }) => Err(CompileRefusal::Offence(Offence {
            file: 0,
            who: Who::Part(key),
            rule,
        })),
        Err(LibraryRefusal::NoMemory) => Err(CompileRefusal::NoMemory),
    }
}

/// The same of a library that was checked, by what was found then.
pub fn compile_checked(
    alloc: Global,
    library: &Checked<'_>,
    start: &Words,
) -> Result<Grammar, CompileRefusal>
    ensures grammar { IfOk result (IsGrammarOf library.now start.now) }
    ensures text { IfOk result (λ grammar. IsSchemaText library.now start.now (grammar_text grammar)) }
    ensures plain { IfOk result (λ grammar. IsFormedLibrary library.now → IsPlain grammar) }
    ensures accepts { IfOk result (λ grammar. IsFormedLibrary library.now → (t : ATree) → Accepts grammar t ↔ Admits library.now start.now t) }
    ensures held { IsOk result → HoldsStart library.now start.now }
    ensures within { IfOk result (λ grammar. IsTooLarge grammar → ⊥) }
    ensures offence { (offence : AnOffence) → result ≡ Err (CompileRefusal.Offence offence) → IsStartOffence library.now start.now offence }
    ensures too_large { result ≡ Err CompileRefusal.TooLarge → HasLargeSchema library.now start.now }
{
    if let Some(word) = least_missing(library.library(), start) {
        let who = Who::Start(word.copy(alloc)?);
        return Err(CompileRefusal::Offence(Offence {
            file: 0,
            who,
            rule: START_RULE,
        }));
    }
    let grammar = grammar_within(alloc, library, start)?;
    if linked_nodes(alloc, &grammar)? > MOST_NODES {
        return Err(CompileRefusal::TooLarge);
    }
    Ok(grammar)
}

// The grammar of a library and a list of start words, made under the budget of its text: `grammar` and `start` are two elements.
fn grammar_within(
    alloc: Global,
    library: &Checked<'_>,
    start: &Words,
) -> Result<Grammar, MakeRefusal>
    ensures grammar { IfOk result (IsGrammarOf library.now start.now) }
    ensures within { IfOk result (λ grammar. text_nodes grammar ≤ 1000000) }
    ensures too_large { result ≡ Err refused.TooLarge → HoldsStart library.now start.now → HasLargeSchema library.now start.now }
{
    let held = library.library();
    let offers = library.offers();
    let mut budget = Budget {
        left: MOST_ELEMENTS,
    };
    budget.take(2)?;
    let conditions = conditions_of(alloc, held)?;
    let before = condition_defines(alloc, &conditions, &mut budget)?;
    let members = listed_members(alloc, library)?;
    let start = references_pattern(alloc, start, &mut budget)?;
    let defines = library_defines(
        alloc,
        before,
        held,
        &conditions,
        &members,
        offers,
        &mut budget,
    )?;
    Ok(Grammar { start, defines })
}

// The members of the classes of a library. Where they are more than a schema may have elements, the schema is too large.
fn listed_members(alloc: Global, library: &Checked<'_>) -> Result<MemberTable, MakeRefusal>
    ensures members { IfOk result (λ table. AreMembers library.now (listed_in table)) }
    ensures within { IfOk result (λ table. members_count (listed_in table) library.now ≤ 1000000) }
    ensures more { result ≡ Err refused.TooLarge → (members : Members) → AreMembers library.now members → 1000000 < members_count members library.now }
{
    match library.members(alloc, MOST_ELEMENTS as usize)? {
        Some(members) => Ok(members),
        None => Err(MakeRefusal::TooLarge),
    }
}

// The least of the start words that are no held element.
fn least_missing<'a>(library: &Library, start: &'a Words) -> Option<&'a Text>
    ensures { IsLeast library.now start.entry.now (option_copied result) }
{
    let mut least = None;
    for word in start.as_slice() {
        if !holds_element(library, word) {
            least = lesser(least, Some(word));
        }
    }
    least
}

ghost use Rattle.std.specs.Prelude.{◌≡◌, ◌<◌, ℕ, List, Err, IfOk, IsOk, IsTrue, length};
ghost use Rattle.std.specs.FinMap.{find, is_sorted};
ghost use Rattle.std.specs.Option.{option_copied};
ghost use Rattle.odd_text.specs.Key.{key_cmp};
ghost use Rattle.odd_text.specs.Text.{text_cmp};
ghost use Rattle.odd_text.specs.declared.key.Key.{Key as AKey};
ghost use Rattle.odd_meaning.specs.Links.{classes_of};
ghost use Rattle.odd_meaning.specs.Rules.{Breaks, BreaksWithin, IsFirstBreak};
ghost use Rattle.odd_classes.specs.Offered.{AreAtElements, AreByIdent, AreOffersIn};
ghost use Rattle.odd_classes.specs.Placing.{IsGraphOf, IsPlaceOf};

use crate::answers::{Answer, CONTRADICTS, SHARES_NAME, answers, first_breaking};
use crate::rules::LibraryRefusal;
use odd_graph::Nodes;
use odd_library::{Component, Library};
use odd_offers::Givens;
use odd_text::{Key, Map, NoMemory, Text, TryCopy};
use std::alloc::Global;
use std::marker::Model;

/// For each element of a library the attributes that it offers, by ident.
#[derive(Drop)]
pub struct OfferTable {
    givens: Map<Text, Givens>,
}

impl Model for OfferTable {
    ghost use Rattle.std.specs.Prelude.{List, ℕ};
    ghost use Rattle.odd_offers.specs.declared.given.Given.{Given};

    ghost Value = { List (List ℕ × List (List ℕ × Given)) };

    ghost view = { λ t. t.givens };
}

impl OfferTable {
    /// What an element offers; None exactly where no element with that ident is held. It takes no memory.
    pub fn of(&self, element: &Text) -> Option<&Givens>
        ensures { option_copied result ≡ find text_cmp element.now self.now }
    {
        self.givens.find(element)
    }
}

/// The attributes that each element of a library offers, of several givers the least (TEI Guidelines, the chapter Documentation
/// Elements), with the graph of the library by classes, of which none is a member of itself. Rule is answered for the first element that
/// inherits different definitions of an attribute that it does not itself set or delete (rule 15), and where there is none for the
/// first of which two attributes have one name in documents (rule 16). NoMemory is answered for want of memory.
pub fn check_offers(
    alloc: Global,
    library: &Library,
    arrows: &[Nodes],
) -> Result<OfferTable, LibraryRefusal>
    requires unlooped { (key : AKey) → Breaks library.now key 13 → ⊥ }
    requires graph { IsGraphOf classes_of library.now.parts arrows.now }
    ensures offers { IfOk result (AreOffersIn library.now) }
    ensures none { IsOk result → (key : AKey) (rule : ℕ) → BreaksWithin 15 16 library.now key rule → ⊥ }
    ensures first { (key : AKey) (rule : ℕ) → result ≡ Err (LibraryRefusal.Rule key rule) → IsFirstBreak (BreaksWithin 15 16 library.now) key rule }
{
    let entries = library.parts.entries();
    let answers = answers(alloc, library, arrows)?;
    if let Some(place) = first_breaking(answers.as_slice(), CONTRADICTS) {
        return Err(refusal_at(alloc, library, place, CONTRADICTS)?);
    }
    if let Some(place) = first_breaking(answers.as_slice(), SHARES_NAME) {
        return Err(refusal_at(alloc, library, place, SHARES_NAME)?);
    }
    let givens = by_ident(alloc, entries, answers)?;
    Ok(OfferTable { givens })
}

// The refusal of the component at a place.
fn refusal_at(
    alloc: Global,
    library: &Library,
    place: usize,
    rule: u8,
) -> Result<LibraryRefusal, NoMemory>
    requires { place < length library.now.parts }
    ensures { IfOk result (λ made. (key : AKey) → IsPlaceOf library.now.parts place key → made ≡ LibraryRefusal.Rule key rule) }
{
    let key = library.parts.entries()[place].0.copy(alloc)?;
    Ok(LibraryRefusal::Rule { key, rule })
}

// What is offered at the places of elements, by their idents.
fn by_ident(
    alloc: Global,
    entries: &[(Key, Component)],
    answers: Vec<Option<Answer>>,
) -> Result<Map<Text, Givens>, NoMemory>
    requires rising { IsTrue (is_sorted key_cmp entries.now) }
    requires elements { AreAtElements entries.now answers.items }
    ensures { IfOk result (AreByIdent entries.now answers.items) }
{
    let mut made = Map::new(alloc);
    for (place, answer) in answers.into_iter().enumerate() {
        if let Some(Answer::Offers(givens)) = answer {
            made.put(entries[place].0.ident.copy(alloc)?, givens)?;
        }
    }
    Ok(made)
}

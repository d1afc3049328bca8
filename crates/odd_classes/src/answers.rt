ghost use Rattle.std.specs.Prelude.{◌≡◌, ◌↔◌, ℕ, List, None, Some, IfOk, IsTrue, replicate};
ghost use Rattle.odd_library.specs.Odd.{element_key as the_element_key};
ghost use Rattle.odd_meaning.specs.Links.{classes_of};
ghost use Rattle.odd_classes.specs.Inheriting.{IsInheritedAt};
ghost use Rattle.odd_classes.specs.Offered.{AreAnswers, IsAnswer, IsFirstBreaking, IsRight};
ghost use Rattle.odd_classes.specs.Placing.{IsGraphOf, IsPlaceOf};

use crate::inheriting::{Inherited, Inheriting};
use odd_graph::Nodes;
use odd_library::{Component, Library};
use odd_offers::{Givens, Table, answered, clashes, shares_name};
use odd_text::NoMemory;
use std::alloc::Global;

/// What an element offers, or the rule that it breaks by it.
#[derive(Drop)]
pub enum Answer {
    Offers(Givens),
    Breaks(u8),
}

/// An element inherits different definitions of an attribute that it does not itself set or delete.
pub const CONTRADICTS: u8 = 15;

/// Two attributes of an element have one name in documents.
pub const SHARES_NAME: u8 = 16;

/// For each entry of a library that is an element and reaches no class which is a member of itself what it offers, or the rule that it
/// breaks; with the graph of the library by classes. The only error is NoMemory, for want of memory.
pub fn answers(
    alloc: Global,
    library: &Library,
    arrows: &[Nodes],
) -> Result<Vec<Option<Answer>>, NoMemory>
    requires { IsGraphOf classes_of library.now.parts arrows.now }
    ensures { IfOk result (λ answers. AreAnswers library.now answers.items) }
{
    let mut answers = no_answers(alloc, library.parts.len())?;
    let mut holders = Inheriting::new(alloc, library, arrows)?;
    for at in 0..holders.len() {
        if let Some(inherited) = holders.step(alloc, at)? {
            let place = inherited.place;
            answers[place] = Some(answer_at(alloc, library, inherited)?);
        }
    }
    Ok(answers)
}

// So many places without an answer.
fn no_answers(alloc: Global, count: usize) -> Result<Vec<Option<Answer>>, NoMemory>
    ensures { IfOk result (λ answers. answers.items ≡ replicate count None) }
{
    let mut answers = Vec::new(alloc);
    for _ in 0..count {
        answers.push(None)?;
    }
    Ok(answers)
}

// The answer of the element at a place.
fn answer_at(alloc: Global, library: &Library, inherited: Inherited) -> Result<Answer, NoMemory>
    requires { IsInheritedAt library.now inherited }
    ensures { IfOk result (λ answer. (element : List ℕ) → IsPlaceOf library.now.parts inherited.place (the_element_key element) → IsRight library.now element answer) }
{
    let part = &library.parts.entries()[inherited.place].1;
    answer_of(alloc, part, inherited.table)
}

// The answer of an element with what it inherits.
fn answer_of(alloc: Global, part: &Component, table: Table) -> Result<Answer, NoMemory>
    ensures { IfOk result (IsAnswer part.now table) }
{
    if clashes(part, &table) {
        return Ok(Answer::Breaks(CONTRADICTS));
    }
    let givens = answered(alloc, part, table)?;
    if shares_name(alloc, &givens)? {
        return Ok(Answer::Breaks(SHARES_NAME));
    }
    Ok(Answer::Offers(givens))
}

/// The first place at which an element breaks a rule.
pub fn first_breaking(answers: &[Option<Answer>], rule: u8) -> Option<usize>
    ensures { IsFirstBreaking answers.now rule result }
{
    for (place, answer) in answers.iter().enumerate() {
        if breaks(answer, rule) {
            return Some(place);
        }
    }
    None
}

// Whether it is answered that an element breaks a rule.
fn breaks(answer: &Option<Answer>, rule: u8) -> bool
    ensures { IsTrue result ↔ (answer.now ≡ Some (Answer.Breaks rule)) }
{
    match answer {
        Some(Answer::Breaks(broken)) => *broken == rule,
        Some(Answer::Offers(_)) | None => false,
    }
}

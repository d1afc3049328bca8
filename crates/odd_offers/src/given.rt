ghost use Rattle.std.specs.Prelude.{◌≡◌, IfOk};
ghost use Rattle.std.specs.Option.{option_copied};
ghost use Rattle.odd_meaning.specs.Offering.{edits_of as the_edits_of};
ghost use Rattle.odd_offers.specs.Answers.{IsAnswer, answer_at, changed_given as the_changed, given_of as the_given, least_from, least_of};

use crate::links::edits_of;
use crate::shared::Shared;
use crate::table::{Offer, Offers, Table};
use odd_attributes::{AttDef, AttEdit, AttEdits, AttFields, changed};
use odd_library::Component;
use odd_overlay::{Pairing, zipped_maps};
use odd_text::{Map, NoMemory, Text, TryCopy};
use std::alloc::Global;

/// What an element offers of one attribute: the definition, and the class that gives it; None where the element sets it itself.
#[derive(Drop)]
pub struct Given {
    pub def: Shared<AttDef>,
    pub giver: Option<Text>,
}

/// By ident what an element offers.
pub type Givens = Map<Text, Given>;

/// What an element offers by its own edits over what it inherits, where the definitions that it inherits of an attribute are the same;
/// of several givers the least. The only error is NoMemory, for want of memory.
pub fn answered(alloc: Global, part: &Component, inherited: Table) -> Result<Givens, NoMemory>
    ensures { IfOk result (IsAnswer (the_edits_of part.now) inherited) }
{
    let edits = match edits_of(part) {
        Some(edits) => edits.copy(alloc)?,
        None => AttEdits::new(alloc),
    };
    zipped_maps(alloc, &Answering, edits.into_map(), inherited)
}

// What an element makes of what it inherits, by its own edits.
#[derive(Clone, Copy)]
struct Answering;

impl Pairing for Answering {
    ghost use Rattle.std.specs.Prelude.{refl};

    type One = AttEdit;

    type Other = Shared<Offers>;

    type Made = Given;

    ghost pairs = { λ s a b. answer_at a b };

    fn pair(
        &self,
        alloc: Global,
        one: Option<AttEdit>,
        other: Option<Shared<Offers>>,
    ) -> Result<Option<Given>, NoMemory>
        ensures { IfOk result (λ made. made ≡ answer_at one other) }
    {
        match (one, other) {
            (Some(AttEdit::Set(def)), _) => Ok(Some(Given {
                def: Shared::new(alloc, def)?,
                giver: None,
            })),
            (Some(AttEdit::Delete), _) | (_, None) => Ok(None),
            (Some(AttEdit::Change(fields)), Some(offers)) => match least(offers.get()) {
                Some(offer) => Ok(Some(changed_given(alloc, offer, fields)?)),
                None => Ok(None),
            },
            (None, Some(offers)) => match least(offers.get()) {
                Some(offer) => Ok(Some(given_of(alloc, offer)?)),
                None => Ok(None),
            },
        }
    }

    ghost nothing = { λ s. refl };
}

// What is given by an offer.
fn given_of(alloc: Global, offer: &Offer) -> Result<Given, NoMemory>
    ensures { IfOk result (λ made. made ≡ the_given offer.now) }
{
    Ok(Given {
        def: offer.def.copy(alloc)?,
        giver: Some(offer.giver.copy(alloc)?),
    })
}

// The same with the definition changed by the fields.
fn changed_given(alloc: Global, offer: &Offer, fields: AttFields) -> Result<Given, NoMemory>
    ensures { IfOk result (λ made. made ≡ the_changed fields offer.now) }
{
    let def = changed(alloc, offer.def.get().copy(alloc)?, fields)?;
    Ok(Given {
        def: Shared::new(alloc, def)?,
        giver: Some(offer.giver.copy(alloc)?),
    })
}

// The offer of the least giver.
fn least(offers: &Offers) -> Option<&Offer>
    ensures { option_copied result ≡ least_of offers.now }
{
    let (first, others) = offers.as_slice().split_first()?;
    Some(least_among(first, others))
}

// The same of one and others.
fn least_among<'a>(first: &'a Offer, others: &'a [Offer]) -> &'a Offer
    ensures { result.now ≡ least_from first.entry.now others.entry.now }
{
    let mut best = first;
    for other in others {
        if other.giver.cmp(&best.giver).is_lt() {
            best = other;
        }
    }
    best
}

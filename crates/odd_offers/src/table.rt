ghost use Rattle.std.specs.Prelude.{◌≡◌, IfOk};
ghost use Rattle.odd_offers.specs.Same.{def_same};
ghost use Rattle.odd_offers.specs.Tables.{added as the_added, added_each as the_added_each, offers_joined};

use crate::same::same_def;
use crate::shared::Shared;
use crate::telling::is_told;
use odd_attributes::AttDef;
use odd_text::{Map, NoMemory, Seq, Text, TryCopy};
use std::alloc::Global;

/// A definition that is offered, and the ident of the class that gives it. Copies share the definition.
#[derive(Drop)]
pub struct Offer {
    pub def: Shared<AttDef>,
    pub giver: Text,
}

/// Offers of one attribute, which tell of all that there are: who gives it first, and what a later change leaves apart.
pub type Offers = Seq<Offer>;

/// By ident what is offered. Copies share the offers of each attribute.
pub type Table = Map<Text, Shared<Offers>>;

impl TryCopy for Offer {
    fn copy(&self, alloc: Global) -> Result<Offer, NoMemory> {
        Ok(Offer {
            def: self.def.copy(alloc)?,
            giver: self.giver.copy(alloc)?,
        })
    }
}

/// What stands for the offers of both. The only error is NoMemory, for want of memory.
pub fn joined(alloc: Global, offers: &Offers, more: &Offers) -> Result<Offers, NoMemory>
    ensures { IfOk result (λ made. made ≡ offers_joined offers.now more.now) }
{
    let Some((first, others)) = offers.as_slice().split_first() else {
        return more.copy(alloc);
    };
    let mut made = Offers::new(alloc);
    made.push(first.copy(alloc)?)?;
    let made = added_each(alloc, made, more.as_slice())?;
    added_each(alloc, made, others)
}

// The offers with more put at the end, the last first, each that tells something more.
fn added_each(alloc: Global, offers: Offers, more: &[Offer]) -> Result<Offers, NoMemory>
    ensures { IfOk result (λ made. made ≡ the_added_each offers more.now) }
{
    let mut made = offers;
    for offer in more.iter().rev() {
        made = added(alloc, made, offer)?;
    }
    Ok(made)
}

// The offers with one put at the end, where it tells something more.
fn added(alloc: Global, offers: Offers, offer: &Offer) -> Result<Offers, NoMemory>
    ensures { IfOk result (λ made. made ≡ the_added offers offer.now) }
{
    let mut made = offers;
    if !is_told(made.as_slice(), offer) {
        made.push(offer.copy(alloc)?)?;
    }
    Ok(made)
}

/// Whether two offers have the same definition.
pub fn have_same_def(one: &Offer, other: &Offer) -> bool
    ensures { result ≡ def_same one.now.def other.now.def }
{
    let def = one.def.get();
    let other_def = other.def.get();
    same_def(def, other_def)
}

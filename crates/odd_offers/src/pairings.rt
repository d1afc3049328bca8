ghost use Rattle.std.specs.Prelude.{◌≡◌, ◌∷◌, [], IfOk, map};
ghost use Rattle.odd_offers.specs.Tables.{offer_changed, own_at, united_at};

use crate::shared::Shared;
use crate::table::{Offer, Offers, joined};
use odd_attributes::{AttDef, AttEdit, AttFields, changed};
use odd_overlay::Pairing;
use odd_text::{NoMemory, Seq, Text, TryCopy};
use std::alloc::Global;

/// The offers of two tables.
#[derive(Clone, Copy)]
pub struct United;

impl Pairing for United {
    ghost use Rattle.std.specs.Prelude.{refl};

    type One = Shared<Offers>;

    type Other = Shared<Offers>;

    type Made = Shared<Offers>;

    ghost pairs = { λ s a b. united_at a b };

    fn pair(
        &self,
        alloc: Global,
        one: Option<Shared<Offers>>,
        other: Option<Shared<Offers>>,
    ) -> Result<Option<Shared<Offers>>, NoMemory>
        ensures { IfOk result (λ made. made ≡ united_at one other) }
    {
        match (one, other) {
            (None, other) => Ok(other),
            (Some(one), None) => Ok(Some(one)),
            (Some(one), Some(other)) => {
                let made = joined(alloc, one.get(), other.get())?;
                Ok(Some(Shared::new(alloc, made)?))
            }
        }
    }

    ghost nothing = { λ s. refl };
}

/// What a class makes of what it inherits, by its own edits.
#[derive(Drop)]
pub struct Own {
    pub class: Text,
}

impl Pairing for Own {
    ghost use Rattle.std.specs.Prelude.{refl};

    type One = AttEdit;

    type Other = Shared<Offers>;

    type Made = Shared<Offers>;

    ghost pairs = { λ s a b. own_at s.class a b };

    fn pair(
        &self,
        alloc: Global,
        one: Option<AttEdit>,
        other: Option<Shared<Offers>>,
    ) -> Result<Option<Shared<Offers>>, NoMemory>
        ensures { IfOk result (λ made. made ≡ own_at self.now.class one other) }
    {
        match one {
            None => Ok(other),
            Some(AttEdit::Delete) => Ok(None),
            Some(AttEdit::Set(def)) => Ok(Some(own_offer(alloc, def, &self.class)?)),
            Some(AttEdit::Change(fields)) => match other {
                None => Ok(None),
                Some(offers) => {
                    let made = all_changed(alloc, &fields, offers.get())?;
                    Ok(Some(Shared::new(alloc, made)?))
                }
            },
        }
    }

    ghost nothing = { λ s. refl };
}

// The definition as the only offer, which the class gives.
fn own_offer(alloc: Global, def: AttDef, class: &Text) -> Result<Shared<Offers>, NoMemory>
    ensures { IfOk result (λ made. made ≡ record { def = def; giver = class.now } ∷ []) }
{
    let mut made = Seq::new(alloc);
    made.push(Offer {
        def: Shared::new(alloc, def)?,
        giver: class.copy(alloc)?,
    })?;
    Shared::new(alloc, made)
}

// The offers with each definition changed by the fields.
fn all_changed(alloc: Global, fields: &AttFields, offers: &Offers) -> Result<Offers, NoMemory>
    ensures { IfOk result (λ made. made ≡ map (offer_changed fields.now) offers.now) }
{
    let mut made = Seq::new(alloc);
    for offer in offers.as_slice() {
        let def = changed(alloc, offer.def.get().copy(alloc)?, fields.copy(alloc)?)?;
        made.push(Offer {
            def: Shared::new(alloc, def)?,
            giver: offer.giver.copy(alloc)?,
        })?;
    }
    Ok(made)
}

ghost use Rattle.std.specs.Prelude.{◌≡◌, ◌↔◌, ℕ, Err, IfOk, IsOk, IsSome, IsTrue};
ghost use Rattle.std.specs.FinMap.{find};
ghost use Rattle.odd_text.specs.Key.{key_cmp};
ghost use Rattle.odd_text.specs.declared.key.Key.{Key as AKey};
ghost use Rattle.odd_text.specs.Sorted.{IsSet};
ghost use Rattle.odd_library.specs.Odd.{element_key as the_element_key};
ghost use Rattle.odd_meaning.specs.Links.{classes_of};
ghost use Rattle.odd_meaning.specs.Rules.{BreaksOffering, IsLeastOffering};
ghost use Rattle.odd_classes.specs.Offered.{IsOfferOfOne, ReachesLoop, offer_cmp, offers_of as the_offers_of};
ghost use Rattle.odd_classes.specs.Placing.{IsGraphOf, IsPlaceOf};

use crate::answers::{Answer, answers};
use crate::graph::{graph_by, place_of};
use crate::links::Link;
use odd_attributes::AttDef;
use odd_graph::{Nodes, is_marked, on_cycles, reached, unmarked};
use odd_library::Library;
use odd_offers::Givens;
use odd_text::{Key, Kind, NoMemory, Seq, Text, TryCopy};
use std::alloc::Global;

/// An attribute that an element offers: its ident, its definition, and the class that gives it; None where the element sets it
/// itself.
#[derive(Debug, Drop)]
pub struct Offer {
    pub ident: Text,
    pub def: AttDef,
    pub giver: Option<Text>,
}

/// The attributes that an element offers.
pub type Offers = Seq<Offer>;

/// Why the attributes of an element are not given.
#[derive(Debug, Drop)]
pub enum OfferRefusal {
    /// The rule that the element breaks.
    Rule(u8),
    NoMemory,
}

// A class is a member of itself.
const OWN_MEMBER: u8 = 13;

/// The attributes that a held element offers, in order of ident: those that it sets itself, and those that a class gives which it
/// is a member of, changed by each holder on the way (TEI Guidelines, the chapter Documentation Elements). Of several givers it is
/// the least. Rule is answered for the least rule that the element breaks: 13, it reaches a class that is a member of itself; 15,
/// it inherits different definitions of an attribute that it does not itself set or delete; 16, two of its attributes have one
/// name in documents. NoMemory is answered for want of memory.
pub fn offered(alloc: Global, library: &Library, element: &Text) -> Result<Offers, OfferRefusal>
    requires { IsSome (find key_cmp (the_element_key element.now) library.now.parts) }
    ensures offers { IfOk result (IsSet offer_cmp (IsOfferOfOne library.now element.now)) }
    ensures none { IsOk result → (rule : ℕ) → BreaksOffering library.now element.now rule → ⊥ }
    ensures rule { (rule : ℕ) → result ≡ Err (OfferRefusal.Rule rule) → IsLeastOffering library.now element.now rule }
{
    let entries = library.parts.entries();
    let Some(place) = place_of(entries, &element_key(alloc, element)?) else {
        unreachable!()
    };
    let arrows = graph_by(alloc, Link::Classes, entries)?;
    if reaches_loop(alloc, library, arrows.as_slice(), place)? {
        return Err(OfferRefusal::Rule(OWN_MEMBER));
    }
    let mut answers = answers(alloc, library, arrows.as_slice())?;
    match answers[place].take() {
        Some(Answer::Offers(givens)) => Ok(offers_of(alloc, &givens)?),
        Some(Answer::Breaks(rule)) => Err(OfferRefusal::Rule(rule)),
        None => unreachable!(),
    }
}

// Whether the component at a place reaches a class that is a member of itself, with the graph of the library by classes.
fn reaches_loop(
    alloc: Global,
    library: &Library,
    arrows: &[Nodes],
    place: usize,
) -> Result<bool, NoMemory>
    requires { IsGraphOf classes_of library.now.parts arrows.now }
    ensures { IfOk result (λ b. (key : AKey) → IsPlaceOf library.now.parts place key → IsTrue b ↔ ReachesLoop library.now key) }
{
    let _ = library.parts.entries();
    let loops = on_cycles(alloc, arrows)?;
    let mut marks = unmarked(alloc, arrows)?;
    let nodes = reached(alloc, arrows, place, &mut marks)?;
    for node in nodes.as_slice() {
        if is_marked(loops.as_slice(), *node) {
            return Ok(true);
        }
    }
    Ok(false)
}

/// What is offered, by ident, as a list. The only error is NoMemory, for want of memory.
pub fn offers_of(alloc: Global, givens: &Givens) -> Result<Offers, NoMemory>
    ensures { IfOk result (λ made. made ≡ the_offers_of givens.now) }
{
    let mut made = Offers::new(alloc);
    for (ident, given) in givens.entries() {
        made.push(Offer {
            ident: ident.copy(alloc)?,
            def: given.def.get().copy(alloc)?,
            giver: given.giver.copy(alloc)?,
        })?;
    }
    Ok(made)
}

/// The key of an element.
pub fn element_key(alloc: Global, element: &Text) -> Result<Key, NoMemory>
    ensures { IfOk result (λ key. key ≡ the_element_key element.now) }
{
    let ident = element.copy(alloc)?;
    Ok(Key {
        kind: Kind::Element,
        ident,
    })
}

impl From<NoMemory> for OfferRefusal {
    ghost use Rattle.odd_classes.specs.declared.offering.OfferRefusal.TheVariants as refusal;

    ghost from_gives = { λ _ error. error ≡ refusal.NoMemory };

    fn from(_error: NoMemory) -> OfferRefusal {
        OfferRefusal::NoMemory
    }
}

ghost use Rattle.std.specs.Prelude.{◌≡◌, Bool, IsTrue, not};
ghost use Rattle.std.specs.List.{list_all, list_any};
ghost use Rattle.odd_attributes.specs.declared.att_def.AttDef.{AttDef as ADef};
ghost use Rattle.odd_offers.specs.declared.table.Offer.{Offer as AnOffer};
ghost use Rattle.odd_offers.specs.declared.telling.DefPart.TheVariants as DefPart;
ghost use Rattle.odd_text.specs.Standing.{StandsIn};
ghost use Rattle.odd_offers.specs.Telling.{alike_at, alike_word, are_in_order as the_are_in_order, are_words_told as the_are_words_told, has_word as the_has_word, in_order};
ghost use Rattle.odd_offers.specs.Telling.{is_def_told as the_is_def_told, is_given as the_is_given, is_told as the_is_told, told_by, words_of as the_words_of};

use crate::same::{same_def, same_option};
use crate::table::Offer;
use odd_attributes::AttDef;
use odd_text::Text;

/// What of a definition a later change leaves as it is or gives anew, by itself.
pub enum DefPart {
    Alt,
    Ns,
    Needed,
    Datatype,
    Values,
    HasValues,
    ListKind,
}

// The parts of a definition, but for the words of its list.
const PARTS: [DefPart; 7] = [
    DefPart::Alt,
    DefPart::Ns,
    DefPart::Needed,
    DefPart::Datatype,
    DefPart::Values,
    DefPart::HasValues,
    DefPart::ListKind,
];

// Something in which two definitions are alike or not.
trait Part {
    ghost alike: { Self → ADef → ADef → Bool };

    // What has to hold of a definition before it is asked: by default nothing.
    ghost can_tell: { Self → ADef → Type 0 } = { λ _ _. Unit {0} };

    // Whether they are alike in it.
    fn are_alike(&self, one: &AttDef, other: &AttDef) -> bool
        requires one { can_tell self.now one.now }
        requires other { can_tell self.now other.now }
        ensures { result ≡ alike self.now one.now other.now };
}

impl Part for DefPart {
    ghost alike = { λ s a b. alike_at s a b };

    fn are_alike(&self, one: &AttDef, other: &AttDef) -> bool {
        match self {
            DefPart::Alt => same_option(&one.alt, &other.alt),
            DefPart::Ns => same_option(&one.ns, &other.ns),
            DefPart::Needed => one.needed == other.needed,
            DefPart::Datatype => same_option(&one.datatype, &other.datatype),
            DefPart::Values => same_option(&one.vals, &other.vals),
            DefPart::HasValues => one.vals.is_some() == other.vals.is_some(),
            DefPart::ListKind => same_kind(one, other),
        }
    }
}

// Whether both have a list of values of one kind, or neither has a list.
fn same_kind(one: &AttDef, other: &AttDef) -> bool
    ensures { result ≡ alike_at DefPart.ListKind one.now other.now }
{
    match (&one.vals, &other.vals) {
        (None, None) => true,
        (Some(one), Some(other)) => one.kind == other.kind,
        _ => false,
    }
}

// A word: whether both have it among their values, or neither has.
impl Part for Text {
    ghost alike = { λ s a b. alike_word s a b };

    ghost can_tell = { λ s a. IsTrue (in_order (the_words_of a)) };

    fn are_alike(&self, one: &AttDef, other: &AttDef) -> bool {
        has_word(self, one) == has_word(self, other)
    }
}

// Whether a word is one of the values, which are in order.
fn has_word(word: &Text, def: &AttDef) -> bool
    requires { IsTrue (in_order (the_words_of def.now)) }
    ensures { result ≡ the_has_word word.now def.now }
{
    words_of(def).binary_search(word).is_ok()
}

// The values.
fn words_of(def: &AttDef) -> &[Text]
    ensures { result.now ≡ the_words_of def.now }
{
    match &def.vals {
        Some(list) => list.values.as_slice(),
        None => &[],
    }
}

/// Whether an offer tells nothing more than these: one of them has no greater giver, and where a change makes their definitions
/// one it makes its definition that one too.
pub fn is_told(offers: &[Offer], offer: &Offer) -> bool
    ensures { result ≡ the_is_told offers.now offer.now }
{
    match offers.split_first() {
        Some((first, _)) => {
            is_given(offers, offer) && is_def_told(first.def.get(), offers, offer.def.get())
        }
        None => false,
    }
}

// Whether one of the offers has no greater giver.
fn is_given(offers: &[Offer], offer: &Offer) -> bool
    ensures { result ≡ the_is_given offers.now offer.now.giver }
{
    for other in offers {
        if !offer.giver.cmp(&other.giver).is_lt() {
            return true;
        }
    }
    false
}

// Whether it is so of a definition, where this is the first of those.
fn is_def_told(first: &AttDef, offers: &[Offer], def: &AttDef) -> bool
    requires { IsTrue (the_are_in_order offers.now) → IsTrue (in_order (the_words_of first.now)) }
    ensures { result ≡ the_is_def_told first.now offers.now def.now }
{
    same_def(first, def)
        || (are_told(&PARTS, first, offers, def) && are_words_told(first, offers, def))
}

// Whether the values are in order and each is told.
fn are_words_told(first: &AttDef, offers: &[Offer], def: &AttDef) -> bool
    requires { IsTrue (the_are_in_order offers.now) → IsTrue (in_order (the_words_of first.now)) }
    ensures { result ≡ the_are_words_told first.now offers.now def.now }
{
    if !is_in_order(words_of(def)) || !are_in_order(offers) {
        return false;
    }
    are_told(words_of(first), first, offers, def) && are_told(words_of(def), first, offers, def)
}

// Whether no word is above the next.
fn is_in_order(words: &[Text]) -> bool
    ensures { result ≡ in_order words.now }
{
    words.is_sorted()
}

// Whether the values of each offer are in order.
fn are_in_order(offers: &[Offer]) -> bool
    ensures { result ≡ the_are_in_order offers.now }
{
    for offer in offers {
        if !is_in_order(words_of(offer.def.get())) {
            return false;
        }
    }
    true
}

// Whether each part is told.
fn are_told<P: Part>(parts: &[P], first: &AttDef, offers: &[Offer], def: &AttDef) -> bool
    requires first { (part : P) → P.can_tell part first.now }
    requires def { (part : P) → P.can_tell part def.now }
    requires offers { (part : P) (offer : AnOffer) → StandsIn offers.now offer → P.can_tell part offer.def }
    ensures { result ≡ list_all (λ part. told_by (P.alike part) first.now offers.now def.now) parts.now }
{
    for part in parts {
        if !is_told_at(part, first, offers, def) {
            return false;
        }
    }
    true
}

// Whether the definition is alike the first in a part, or one of the offers is not.
fn is_told_at<P: Part>(part: &P, first: &AttDef, offers: &[Offer], def: &AttDef) -> bool
    requires first { P.can_tell part.now first.now }
    requires def { P.can_tell part.now def.now }
    requires offers { (offer : AnOffer) → StandsIn offers.now offer → P.can_tell part.now offer.def }
    ensures { result ≡ told_by (P.alike part.now) first.now offers.now def.now }
{
    part.are_alike(first, def) || one_is_unlike(part, first, offers)
}

// Whether one of the offers is not alike a definition in a part.
fn one_is_unlike<P: Part>(part: &P, first: &AttDef, offers: &[Offer]) -> bool
    requires first { P.can_tell part.now first.now }
    requires offers { (offer : AnOffer) → StandsIn offers.now offer → P.can_tell part.now offer.def }
    ensures { result ≡ list_any (λ offer. not (P.alike part.now first.now offer.def)) offers.now }
{
    for offer in offers {
        if !part.are_alike(first, offer.def.get()) {
            return true;
        }
    }
    false
}

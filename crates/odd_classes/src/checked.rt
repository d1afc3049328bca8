ghost use Rattle.std.specs.Prelude.{◌≡◌, ◌≤◌, ◌<◌, ℕ, Err, Ok, IfOk, IsOk, MatchOption, None};
ghost use Rattle.std.specs.FinMap.{find};
ghost use Rattle.std.specs.Option.{IfSome};
ghost use Rattle.odd_text.specs.Key.{key_cmp};
ghost use Rattle.odd_text.specs.Sorted.{IsSet};
ghost use Rattle.odd_text.specs.Text.{text_cmp};
ghost use Rattle.odd_text.specs.declared.key.Key.{Key as AKey};
ghost use Rattle.odd_library.specs.Odd.{element_key};
ghost use Rattle.odd_meaning.specs.Classes.{AreMembers, IsMember, Members, members_count};
ghost use Rattle.odd_meaning.specs.Rules.{Breaks, IsFirstBreak};
ghost use Rattle.odd_classes.specs.Offered.{AreOffersIn, IsOfferOfOne, offer_cmp};
ghost use Rattle.odd_classes.specs.Ranking.{IsMacroOrder};

use crate::class_members::memberships;
use crate::cycles::acyclic;
use crate::data::check_data;
use crate::macro_order::in_macro_order;
use crate::member_lists::{MemberTable, table_within};
use crate::offer_lists::{OfferTable, check_offers};
use crate::offering::{Offers, offers_of};
use crate::rules::{LibraryRefusal, WrongReference, check_names};
use odd_graph::Nodes;
use odd_library::Library;
use odd_text::{NoMemory, Text, Words};
use std::alloc::Global;
use std::marker::Model;

/// A library that breaks none of its rules, with what was found when it was asked for them.
#[derive(Drop)]
pub struct Checked<'a> {
    library: &'a Library,
    // an arrow from each component to the held classes that it is said to be a member of
    classes: Vec<Nodes>,
    offers: OfferTable,
    macros: Words,
}

impl<'a> Model for Checked<'a> {
    ghost use Rattle.odd_library.specs.declared.library.Library.{Library};
    ghost use Rattle.odd_classes.specs.Checking.{IsChecked};
    ghost use Rattle.odd_library.specs.contracts.library.Component as component;
    ghost use Rattle.std.specs.Coded.{codes};

    ghost Value = { Library };

    ghost coded = { Prim.hlevel (codes, component.the_row.coded) };

    ghost view = { λ c. c.library.now };

    ghost invariant = { λ c. IsChecked c.library.now c.classes.items c.offers c.macros };
}

/// A library that breaks none of its rules: 11, a content names a macro that is not held; 12, a component names a datatype that
/// is not held, in its content or in an attribute that it sets or changes; 13, a class is a member of itself; 14, a macro or a
/// datatype reaches itself; 15, an element inherits different definitions of an attribute that it does not itself set or delete;
/// 16, two attributes of an element have one name in documents; 17, a content names a class of type `atts`; 18, the content of an
/// element or a macro reaches data and is not data content. Rule is answered for the first offence by rule, then by kind
/// (element, class, macro, datatype) and then by ident. NoMemory is answered for want of memory.
pub fn check<'a>(alloc: Global, library: &'a Library) -> Result<Checked<'a>, LibraryRefusal>
    ensures same { IfOk result (λ checked. checked ≡ library.now) }
    ensures none { IsOk result → (key : AKey) (rule : ℕ) → Breaks library.now key rule → ⊥ }
    ensures first { (key : AKey) (rule : ℕ) → result ≡ Err (LibraryRefusal.Rule key rule) → IsFirstBreak (Breaks library.now) key rule }
{
    check_names(alloc, library, WrongReference::MacroNotHeld)?;
    check_names(alloc, library, WrongReference::DatatypeNotHeld)?;
    let graphs = acyclic(alloc, library)?;
    let offers = check_offers(alloc, library, graphs.classes.as_slice())?;
    check_names(alloc, library, WrongReference::OfAttributes)?;
    let macros = in_macro_order(alloc, library, graphs.macros.as_slice())?;
    check_data(alloc, library, &macros)?;
    Ok(Checked {
        library,
        classes: graphs.classes,
        offers,
        macros,
    })
}

impl<'a> Checked<'a> {
    /// The library.
    pub fn library(&self) -> &'a Library
        ensures same { result.now ≡ self.now }
        ensures unbroken { (key : AKey) (rule : ℕ) → Breaks self.now key rule → ⊥ }
    {
        self.library
    }

    /// What each element offers, by ident.
    pub fn offers(&self) -> &OfferTable
        ensures { AreOffersIn self.now result.now }
    {
        &self.offers
    }

    /// The attributes that an element offers, in order of ident, of several givers the least; None where the element is not held. The
    /// only error is NoMemory, for want of memory.
    pub fn offered(&self, alloc: Global, element: &Text) -> Result<Option<Offers>, NoMemory>
        ensures { IfOk result (λ given. MatchOption given (find key_cmp (element_key element.now) self.now.parts ≡ None) (IsSet offer_cmp (IsOfferOfOne self.now element.now))) }
    {
        match self.offers.of(element) {
            Some(givens) => Ok(Some(offers_of(alloc, givens)?)),
            None => Ok(None),
        }
    }

    /// The macros, each after those that its content names.
    pub fn macros(&self) -> &Words
        ensures { IsMacroOrder self.now result.now }
    {
        &self.macros
    }

    /// The members of each class of type `model`; None where they are more than `limit` in all. The only error is NoMemory, for want
    /// of memory.
    pub fn members(&self, alloc: Global, limit: usize) -> Result<Option<MemberTable>, NoMemory>
        ensures members { IfOk result (λ given. IfSome given (λ table. AreMembers self.now (λ class. find text_cmp class table))) }
        ensures within { IfOk result (λ given. IfSome given (λ table. members_count (λ class. find text_cmp class table) self.now ≤ limit)) }
        ensures more { result ≡ Ok None → (members : Members) → AreMembers self.now members → limit < members_count members self.now }
    {
        table_within(alloc, self.library, self.classes.as_slice(), limit)
    }

    /// The classes that an element is a member of, in rising order, each once; none where the element is not held. The only error is
    /// NoMemory, for want of memory.
    pub fn memberships(&self, alloc: Global, element: &Text) -> Result<Words, NoMemory>
        ensures { IfOk result (IsSet text_cmp (λ class. IsMember self.now class (element_key element.now))) }
    {
        memberships(alloc, self.library, self.classes.as_slice(), element)
    }
}

ghost use Rattle.std.specs.Prelude.{◌≡◌, not};
ghost use Rattle.std.specs.FinMap.{find};
ghost use Rattle.std.specs.List.{list_any};
ghost use Rattle.std.specs.Option.{option_copied};
ghost use Rattle.odd_text.specs.Text.{text_cmp};
ghost use Rattle.odd_meaning.specs.Offering.{edits_of as the_edits_of};
ghost use Rattle.odd_offers.specs.Same.{def_same};
ghost use Rattle.odd_offers.specs.Tables.{ClashesBy, clashes_with, differ as the_differ, passes_at};

use crate::links::edits_of;
use crate::shared::Shared;
use crate::table::{Offer, Offers, Table, have_same_def};
use odd_attributes::AttEdit;
use odd_library::Component;
use odd_text::Text;

/// Whether a component, which inherits just what the table has, inherits different definitions of an attribute that it does not
/// itself set or delete.
pub fn clashes(part: &Component, inherited: &Table) -> bool
    ensures { ClashesBy (the_edits_of part.now) inherited.now result }
{
    any_clashes(part, inherited.entries())
}

// Whether the offers differ at any ident of the entries, where the own edit does not set or delete it.
fn any_clashes(part: &Component, entries: &[(Text, Shared<Offers>)]) -> bool
    ensures { result ≡ list_any (λ entry. clashes_with (the_edits_of part.now) entry) entries.now }
{
    for (ident, offers) in entries {
        if differ(offers.get().as_slice()) && passes(part, ident) {
            return true;
        }
    }
    false
}

// Whether the own edit of the attribute lets each definition pass.
fn passes(part: &Component, ident: &Text) -> bool
    ensures { result ≡ passes_at (find text_cmp ident.now (the_edits_of part.now)) }
{
    !matches!(
        edit_of(part, ident),
        Some(AttEdit::Set(_) | AttEdit::Delete)
    )
}

// The own edit of the attribute.
fn edit_of<'a>(part: &'a Component, ident: &Text) -> Option<&'a AttEdit>
    ensures { option_copied result ≡ find text_cmp ident.now (the_edits_of part.now) }
{
    match edits_of(part) {
        Some(edits) => edits.find(ident),
        None => None,
    }
}

// Whether not all definitions are the same.
fn differ(offers: &[Offer]) -> bool
    ensures { result ≡ the_differ offers.now }
{
    match offers.split_first() {
        Some((first, others)) => any_other(first, others),
        None => false,
    }
}

// Whether one of the others has another definition than the first.
fn any_other(first: &Offer, others: &[Offer]) -> bool
    ensures { result ≡ list_any (λ other. not (def_same first.now.def other.def)) others.now }
{
    for other in others {
        if !have_same_def(first, other) {
            return true;
        }
    }
    false
}

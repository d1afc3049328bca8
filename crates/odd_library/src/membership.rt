ghost use Rattle.std.specs.Prelude.{◌≡◌, ℕ, Bool, List, Some, IfOk};
ghost use Rattle.std.specs.Option.{IfSome};
ghost use Rattle.odd_text.specs.Text.{text_cmp};
ghost use Rattle.odd_text.specs.Sorted.{IsSet};
ghost use Rattle.odd_library.specs.FormedMembers.{AreClasses, IsFormedMembership};
ghost use Rattle.odd_library.specs.Membership.{IsClassAfter, classes_over as the_classes_over, membership_joined, membership_laid, membership_one_by_one, membership_regrouped};

use odd_overlay::{Overlay, joined_edits, words_laid};
use odd_text::{Map, NoMemory, Text, TryCopy, Words};
use std::alloc::Global;

/// Classes by their idents: those that are added (true), and those that are taken away (false).
pub type ClassMarks = Map<Text, bool>;

/// The memberships of a component, held or not, as a declaration gives them.
#[derive(Drop)]
pub enum Membership {
    /// These in the place of all before them; as they are read, in rising order, each once.
    Replace(Words),
    /// Those before them with some added and some taken away. To add what is there and to take away what is not there
    /// changes nothing.
    Change(ClassMarks),
}

/// Those that replace stand alone, and a change edits those before it, where there are none the empty set.
impl Overlay for Membership {
    type Base = Words;

    ghost joins = { λ a b. Unit {0} };

    ghost suits = { λ a x. Unit {0} };

    ghost joined = { membership_joined };

    ghost laid = { membership_laid };

    fn then(self, alloc: Global, later: Membership) -> Result<Membership, NoMemory> {
        match later {
            Membership::Replace(words) => Ok(Membership::Replace(words)),
            Membership::Change(marks) => match self {
                Membership::Replace(words) => {
                    Ok(Membership::Replace(words_laid(alloc, marks, words)?))
                }
                Membership::Change(before) => {
                    Ok(Membership::Change(joined_edits(alloc, before, marks)?))
                }
            },
        }
    }

    fn over(self, alloc: Global, base: Option<Words>) -> Result<Option<Words>, NoMemory>
        ensures { IfOk result (λ made. made ≡ membership_laid self base) }
    {
        let before = match base {
            Some(before) => before,
            None => Words::new(alloc),
        };
        Ok(Some(classes_over(alloc, Some(self), before)?))
    }

    ghost one_by_one = { λ a b x h k. membership_one_by_one a b x };

    ghost regrouped = { λ a b c h k. membership_regrouped a b c };

    ghost made_suits = { λ a b x y h k e. tt };

    ghost joined_leads = { λ a b c h k l. tt };

    ghost joined_follows = { λ a b c h k l. tt };

    ghost joined_suits = { λ a b x h k l. tt };
}

impl TryCopy for Membership {
    fn copy(&self, alloc: Global) -> Result<Membership, NoMemory> {
        match self {
            Membership::Replace(words) => Ok(Membership::Replace(words.copy(alloc)?)),
            Membership::Change(marks) => Ok(Membership::Change(marks.copy(alloc)?)),
        }
    }
}

/// The classes of a component over those that it had, where a declaration may give memberships. Where both are in rising
/// order, each once, so are they. The only error is NoMemory, for want of memory.
pub fn classes_over(
    alloc: Global,
    given: Option<Membership>,
    before: Words,
) -> Result<Words, NoMemory>
    ensures value { IfOk result (λ made. made ≡ the_classes_over given before) }
    ensures changed { (marks : List (List ℕ × Bool)) → given ≡ Some (Membership.Change marks) → IfOk result (IsSet text_cmp (IsClassAfter marks before)) }
    ensures formed { IfSome given IsFormedMembership → AreClasses before → IfOk result AreClasses }
{
    match given {
        Some(Membership::Replace(words)) => Ok(words),
        Some(Membership::Change(marks)) => words_laid(alloc, marks, before),
        None => Ok(before),
    }
}

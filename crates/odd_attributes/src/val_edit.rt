ghost use Rattle.std.specs.Prelude.{◌≡◌, IfOk};
ghost use Rattle.odd_attributes.specs.Values.{val_changed, val_joined, val_laid, val_one_by_one, val_regrouped};

use odd_overlay::{Overlay, joined_edits, words_laid};
use odd_text::{Map, NoMemory, Text, TryCopy};
use rng_types::{ListKind, ValList};
use std::alloc::Global;

/// Values by their idents: those that are put in (true), and those that are taken out (false).
pub type ValueMarks = Map<Text, bool>;

/// An edit of a list of values.
#[derive(Debug, Drop)]
pub enum ValEdit {
    /// This list in the place of any before it.
    Set(ValList),
    /// The list before it with the type put where it is given, and some values put in and some taken out.
    Change {
        kind: Option<ListKind>,
        marks: ValueMarks,
    },
    /// No list.
    Delete,
}

impl TryCopy for ValEdit {
    fn copy(&self, alloc: Global) -> Result<ValEdit, NoMemory> {
        match self {
            ValEdit::Set(list) => Ok(ValEdit::Set(list.copy(alloc)?)),
            ValEdit::Change { kind, marks } => Ok(ValEdit::Change {
                kind: *kind,
                marks: marks.copy(alloc)?,
            }),
            ValEdit::Delete => Ok(ValEdit::Delete),
        }
    }
}

/// Set and Delete stand alone, and Change edits the list before it, where there is one.
impl Overlay for ValEdit {
    type Base = ValList;

    ghost joins = { λ a b. Unit {0} };

    ghost suits = { λ a x. Unit {0} };

    ghost joined = { val_joined };

    ghost laid = { val_laid };

    fn then(self, alloc: Global, later: ValEdit) -> Result<ValEdit, NoMemory> {
        match later {
            ValEdit::Set(list) => Ok(ValEdit::Set(list)),
            ValEdit::Delete => Ok(ValEdit::Delete),
            ValEdit::Change { kind, marks } => match self {
                ValEdit::Set(list) => Ok(ValEdit::Set(changed(alloc, list, kind, marks)?)),
                ValEdit::Change {
                    kind: first,
                    marks: before,
                } => Ok(ValEdit::Change {
                    kind: kind.or(first),
                    marks: joined_edits(alloc, before, marks)?,
                }),
                ValEdit::Delete => Ok(ValEdit::Delete),
            },
        }
    }

    fn over(self, alloc: Global, base: Option<ValList>) -> Result<Option<ValList>, NoMemory>
        ensures { IfOk result (λ made. made ≡ val_laid self base) }
    {
        match self {
            ValEdit::Set(list) => Ok(Some(list)),
            ValEdit::Delete => Ok(None),
            ValEdit::Change { kind, marks } => match base {
                Some(list) => Ok(Some(changed(alloc, list, kind, marks)?)),
                None => Ok(None),
            },
        }
    }

    ghost one_by_one = { λ a b x h k. val_one_by_one a b x };

    ghost regrouped = { λ a b c h k. val_regrouped a b c };

    ghost made_suits = { λ a b x y h k e. tt };

    ghost joined_leads = { λ a b c h k l. tt };

    ghost joined_follows = { λ a b c h k l. tt };

    ghost joined_suits = { λ a b x h k l. tt };
}

// The list with the type put where it is given, and some values put in and some taken out.
fn changed(
    alloc: Global,
    list: ValList,
    kind: Option<ListKind>,
    marks: ValueMarks,
) -> Result<ValList, NoMemory>
    ensures { IfOk result (λ made. made ≡ val_changed kind marks list) }
{
    Ok(ValList {
        kind: kind.unwrap_or(list.kind),
        values: words_laid(alloc, marks, list.values)?,
    })
}

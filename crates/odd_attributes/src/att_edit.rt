ghost use Rattle.std.specs.Prelude.{◌≡◌, IfOk};
ghost use Rattle.odd_attributes.specs.Attributes.{att_joined, att_laid, att_one_by_one, att_regrouped, def_changed, fields_joined};

use crate::att_def::{AttDef, Datatype};
use crate::val_edit::ValEdit;
use odd_overlay::{Overlay, joined_pair, laid_pair};
use odd_text::{NoMemory, Text, TryCopy};
use std::alloc::Global;

/// What a change of an attribute gives.
#[derive(Debug, Drop)]
pub struct AttFields {
    pub alt: Option<Text>,
    pub ns: Option<Text>,
    pub needed: Option<bool>,
    pub datatype: Option<Datatype>,
    pub vals: Option<ValEdit>,
}

/// An edit of an attribute.
#[derive(Debug, Drop)]
pub enum AttEdit {
    /// This definition in the place of any before it.
    Set(AttDef),
    /// The definition before it with some fields put, and its list of values edited.
    Change(AttFields),
    /// No definition.
    Delete,
}

impl TryCopy for AttFields {
    fn copy(&self, alloc: Global) -> Result<AttFields, NoMemory> {
        Ok(AttFields {
            alt: self.alt.copy(alloc)?,
            ns: self.ns.copy(alloc)?,
            needed: self.needed,
            datatype: self.datatype.copy(alloc)?,
            vals: self.vals.copy(alloc)?,
        })
    }
}

impl TryCopy for AttEdit {
    fn copy(&self, alloc: Global) -> Result<AttEdit, NoMemory> {
        match self {
            AttEdit::Set(def) => Ok(AttEdit::Set(def.copy(alloc)?)),
            AttEdit::Change(fields) => Ok(AttEdit::Change(fields.copy(alloc)?)),
            AttEdit::Delete => Ok(AttEdit::Delete),
        }
    }
}

/// Set and Delete stand alone, and Change edits the definition before it, where there is one.
impl Overlay for AttEdit {
    type Base = AttDef;

    ghost joins = { λ a b. Unit {0} };

    ghost suits = { λ a x. Unit {0} };

    ghost joined = { att_joined };

    ghost laid = { att_laid };

    fn then(self, alloc: Global, later: AttEdit) -> Result<AttEdit, NoMemory> {
        match later {
            AttEdit::Set(def) => Ok(AttEdit::Set(def)),
            AttEdit::Delete => Ok(AttEdit::Delete),
            AttEdit::Change(fields) => match self {
                AttEdit::Set(def) => Ok(AttEdit::Set(changed(alloc, def, fields)?)),
                AttEdit::Change(before) => {
                    Ok(AttEdit::Change(both_fields(alloc, before, fields)?))
                }
                AttEdit::Delete => Ok(AttEdit::Delete),
            },
        }
    }

    fn over(self, alloc: Global, base: Option<AttDef>) -> Result<Option<AttDef>, NoMemory>
        ensures { IfOk result (λ made. made ≡ att_laid self base) }
    {
        match self {
            AttEdit::Set(def) => Ok(Some(def)),
            AttEdit::Delete => Ok(None),
            AttEdit::Change(fields) => match base {
                Some(def) => Ok(Some(changed(alloc, def, fields)?)),
                None => Ok(None),
            },
        }
    }

    ghost one_by_one = { λ a b x h k. att_one_by_one a b x };

    ghost regrouped = { λ a b c h k. att_regrouped a b c };

    ghost made_suits = { λ a b x y h k e. tt };

    ghost joined_leads = { λ a b c h k l. tt };

    ghost joined_follows = { λ a b c h k l. tt };

    ghost joined_suits = { λ a b x h k l. tt };
}

/// The definition with the fields put where they are given, and its list of values edited. The only error is NoMemory, for want
/// of memory.
pub fn changed(alloc: Global, def: AttDef, fields: AttFields) -> Result<AttDef, NoMemory>
    ensures { IfOk result (λ made. made ≡ def_changed fields def) }
{
    Ok(AttDef {
        alt: fields.alt.or(def.alt),
        ns: fields.ns.or(def.ns),
        needed: fields.needed.unwrap_or(def.needed),
        datatype: fields.datatype.or(def.datatype),
        vals: laid_pair(alloc, fields.vals, def.vals)?,
    })
}

// Two changes as one.
fn both_fields(alloc: Global, earlier: AttFields, later: AttFields) -> Result<AttFields, NoMemory>
    ensures { IfOk result (λ made. made ≡ fields_joined earlier later) }
{
    Ok(AttFields {
        alt: later.alt.or(earlier.alt),
        ns: later.ns.or(earlier.ns),
        needed: later.needed.or(earlier.needed),
        datatype: later.datatype.or(earlier.datatype),
        vals: joined_pair(alloc, earlier.vals, later.vals)?,
    })
}

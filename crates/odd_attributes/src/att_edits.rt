ghost use Rattle.std.specs.Prelude.{◌≡◌, ◌≤◌, [], length, slice_get, IsNone, IsTrue, IfOk, OnErr, OnOk, ◌↔◌};
ghost use Rattle.std.specs.FinMap.{find, is_sorted, put};
ghost use Rattle.std.specs.Option.{option_copied, option_map};
ghost use Rattle.odd_text.specs.Map.{SetsOnly};
ghost use Rattle.odd_text.specs.Text.{text_cmp};
ghost use Rattle.odd_attributes.specs.Attributes.{atts_joined, atts_laid, atts_one_by_one, atts_regrouped};

use crate::att_def::AttDef;
use crate::att_edit::AttEdit;
use odd_overlay::{Overlay, joined_edits, laid_edits, map_of};
use odd_text::{Map, NoMemory, Text, TryCopy};
use std::alloc::Global;
use std::collections::BTreeMap;
use std::marker::Model;

/// Edits of attributes by their idents: a map, seen as its entries in rising order of ident.
#[derive(Debug, Drop)]
pub struct AttEdits {
    edits: Map<Text, AttEdit>,
}

impl Model for AttEdits {
    ghost use Rattle.std.specs.Prelude.{List, ℕ};
    ghost use Rattle.odd_attributes.specs.declared.att_edit.AttEdit.{AttEdit};

    ghost Value = { List (List ℕ × AttEdit) };

    ghost view = { λ e. e.edits };
}

impl AttEdits {
    /// No edit. It takes no memory before the first `put`.
    pub fn new(alloc: Global) -> AttEdits
        ensures { result ≡ [] }
    {
        AttEdits {
            edits: Map::new(alloc),
        }
    }

    /// The edits of a tree. The only error is NoMemory, for want of memory.
    pub fn of(alloc: Global, edits: BTreeMap<Text, AttEdit>) -> Result<AttEdits, NoMemory>
        requires { IsTrue (is_sorted text_cmp edits.entries) }
        ensures { IfOk result (λ made. made ≡ edits.entries) }
    {
        Ok(AttEdits {
            edits: map_of(alloc, edits)?,
        })
    }

    /// Puts the edit at the ident, in place of one that is there. The only error is NoMemory, for want of memory, and then
    /// the edits stay as they were.
    pub fn put(&mut self, ident: Text, edit: AttEdit) -> Result<(), NoMemory>
        ensures ok { OnOk result (self.new ≡ put text_cmp ident edit self.old) }
        ensures finds { OnOk result (SetsOnly text_cmp self.old self.new ident edit) }
        ensures rising { IsTrue (is_sorted text_cmp self.new) }
        ensures err { OnErr result (self.new ≡ self.old) }
    {
        self.edits.put(ident, edit)
    }

    /// How many edits there are.
    pub fn len(&self) -> usize
        ensures { result ≡ length self.now }
    {
        self.edits.len()
    }

    /// Whether there is no edit.
    pub fn is_empty(&self) -> bool
        ensures { IsTrue result ↔ (self.now ≡ []) }
    {
        self.edits.is_empty()
    }

    /// The edits, an ident and its edit, in strictly rising order of ident.
    pub fn entries(&self) -> &[(Text, AttEdit)]
        ensures { result.now ≡ self.now }
    {
        self.edits.entries()
    }

    /// The ident at a place in the order of the idents, counted from 0.
    pub fn key(&self, at: usize) -> Option<&Text>
        ensures value { option_copied result ≡ option_map (λ e. e.0) (slice_get self.now at) }
        ensures none { IsNone result ↔ (length self.now ≤ at) }
    {
        self.edits.key(at)
    }

    /// The edit at a place in the order of the idents, counted from 0.
    pub fn value(&self, at: usize) -> Option<&AttEdit>
        ensures value { option_copied result ≡ option_map (λ e. e.1) (slice_get self.now at) }
        ensures none { IsNone result ↔ (length self.now ≤ at) }
    {
        self.edits.value(at)
    }

    /// The edit at an ident.
    pub fn find(&self, ident: &Text) -> Option<&AttEdit>
        ensures { option_copied result ≡ find text_cmp ident.now self.now }
    {
        self.edits.find(ident)
    }

    /// The edits themselves, moved out.
    pub fn into_map(self) -> Map<Text, AttEdit>
        ensures { result ≡ self }
    {
        self.edits
    }
}

impl TryCopy for AttEdits {
    fn copy(&self, alloc: Global) -> Result<AttEdits, NoMemory> {
        Ok(AttEdits {
            edits: self.edits.copy(alloc)?,
        })
    }
}

/// Edits over definitions, ident by ident; where there are no definitions, over the empty map.
impl Overlay for AttEdits {
    type Base = Map<Text, AttDef>;

    ghost joins = { λ a b. Unit {0} };

    ghost suits = { λ a x. Unit {0} };

    ghost joined = { atts_joined };

    ghost laid = { atts_laid };

    fn then(self, alloc: Global, later: AttEdits) -> Result<AttEdits, NoMemory> {
        let edits = joined_edits(alloc, self.edits, later.edits)?;
        Ok(AttEdits { edits })
    }

    fn over(
        self,
        alloc: Global,
        base: Option<Map<Text, AttDef>>,
    ) -> Result<Option<Map<Text, AttDef>>, NoMemory>
        ensures { IfOk result (λ made. made ≡ atts_laid self base) }
    {
        let defs = match base {
            Some(defs) => defs,
            None => Map::new(alloc),
        };
        Ok(Some(laid_edits(alloc, self.edits, defs)?))
    }

    ghost one_by_one = { λ a b x h k. atts_one_by_one a b x };

    ghost regrouped = { λ a b c h k. atts_regrouped a b c };

    ghost made_suits = { λ a b x y h k e. tt };

    ghost joined_leads = { λ a b c h k l. tt };

    ghost joined_follows = { λ a b c h k l. tt };

    ghost joined_suits = { λ a b x h k l. tt };
}

ghost use Rattle.std.specs.Prelude.{◌≡◌, ℕ, [], Err, IfOk, IsOk, IsTrue, OnOk, Some, codes};
ghost use Rattle.std.specs.FinMap.{put};
ghost use Rattle.odd_text.specs.Text.{text_cmp};
ghost use Rattle.odd_tree.specs.Formed.{IsFormed};
ghost use Rattle.odd_tree.specs.declared.tree.Tree.{Tree as ATree};
ghost use Rattle.odd_forms.specs.Deep.{DeepFault};
ghost use Rattle.odd_text.specs.Least.{IsLeast};
ghost use Rattle.odd_forms.specs.declared.element.Element.TheVariants as element;
ghost use Rattle.odd_attributes.specs.Formed.{AreFormedEdits};
ghost use Rattle.odd_attributes.specs.Giving.{AreEditsGiven, AreEditsOf, AttListFault, IsListRead, SaysEachEdit, SaysEachGiven};
ghost use Rattle.odd_forms.specs.Names.{first_named};

use crate::att_edit::AttEdit;
use crate::att_edits::AttEdits;
use crate::definition::read_edit;
use odd_forms::{Element, LEVELS, child_named, deep_fault, definitions_in};
use odd_items::add_constraints;
use odd_items::without::without;
use odd_text::{NoMemory, Text, TryCopy};
use odd_tree::{Tree, attribute};
use std::alloc::Global;
use std::collections::{BTreeMap, BTreeSet};

/// Why an `attList` gives no edits.
#[derive(Clone, Copy, Debug, PartialEq, Eq)]
pub enum AttRefusal {
    /// The least rule of form that it breaks.
    Rule(u8),
    NoMemory,
}

impl From<NoMemory> for AttRefusal {
    ghost use Rattle.odd_attributes.specs.declared.reading.AttRefusal.TheVariants as refusal;

    ghost from_gives = { λ _ error. error ≡ refusal.NoMemory };

    fn from(_error: NoMemory) -> AttRefusal {
        AttRefusal::NoMemory
    }
}

/// The edits of attributes that an `attList` says (docs/odd-files.md). Rule is answered where it breaks a rule of form, with the
/// least that it breaks: 1, a needed attribute is absent or one is malformed, or a number of a facet is; 2, a form that is left
/// out; 3, a child that may not stand there or one that must and does not, an unknown `org`, `mode`, `usage` or `type`, or what
/// contradicts itself; 4, an attribute, a value, a facet or a child twice. NoMemory is answered for want of memory. With `aside`
/// the constraints that would break rule 2 are taken out first: of a formed tree, as `read_tree` gives it, what is left is judged.
/// Of a formed tree the edits are formed.
pub fn read_attlist(alloc: Global, tree: &Tree, aside: bool) -> Result<AttEdits, AttRefusal>
    ensures ok { IfOk result (AreEditsOf tree.now) }
    ensures each { IfOk result (SaysEachEdit tree.now) }
    ensures sound { IsOk result → (first end : ℕ) → (IsTrue aside → IsFormed first end tree.now) → (rule : ℕ) → AttListFault tree.now aside rule → ⊥ }
    ensures rule { (rule : ℕ) → result ≡ Err (AttRefusal.Rule rule) → (first end : ℕ) → (IsTrue aside → IsFormed first end tree.now) → IsLeast (AttListFault tree.now aside) (Some rule) }
    ensures formed { (first end : ℕ) → IsFormed first end tree.now → IfOk result AreFormedEdits }
{
    match list_fault(alloc, tree, aside)? {
        Some(rule) => Err(AttRefusal::Rule(rule)),
        None => Ok(edits_in(alloc, tree)?),
    }
}

// The least rule of form that an `attList` breaks as it is read.
fn list_fault(alloc: Global, tree: &Tree, aside: bool) -> Result<Option<u8>, NoMemory>
    ensures { (first end : ℕ) → (IsTrue aside → IsFormed first end tree.now) → IfOk result (λ fault. (read : ATree) × IsListRead tree.now aside read × IsLeast (DeepFault element.AttList 60 [] read) fault) }
{
    if !aside {
        return deep_fault(alloc, Element::AttList, tree, LEVELS, &[]);
    }
    let mut places = BTreeSet::new(alloc);
    add_constraints(Element::AttList, tree, &mut places)?;
    let mut gone = Vec::new(alloc);
    let left = without(alloc, tree, &places, &mut gone)?;
    deep_fault(alloc, Element::AttList, &left, LEVELS, &[])
}

/// The edits that the `attList` of a declaration says, and none where it has no `attList`. The only error is NoMemory, for want
/// of memory.
pub fn edits_given(alloc: Global, spec: &Tree) -> Result<AttEdits, NoMemory>
    ensures edits { IfOk result (AreEditsGiven (first_named (codes "attList") spec.now)) }
    ensures each { IfOk result (SaysEachGiven (first_named (codes "attList") spec.now)) }
{
    match child_named(spec, "attList") {
        Some(list) => edits_in(alloc, list),
        None => Ok(AttEdits::new(alloc)),
    }
}

// The edits that an `attList` says. A tree takes them in any order, and gives them in rising order.
fn edits_in(alloc: Global, list: &Tree) -> Result<AttEdits, NoMemory>
    ensures { IfOk result (AreEditsOf list.now) }
{
    let mut edits = BTreeMap::new(alloc);
    for def in definitions_in(alloc, list)? {
        if let Some(ident) = attribute(&def.attrs, "ident") {
            put_edit(&mut edits, ident.copy(alloc)?, read_edit(alloc, def)?)?;
        }
    }
    AttEdits::of(alloc, edits)
}

// Puts an edit at its ident, in place of one that is there.
fn put_edit(edits: &mut BTreeMap<Text, AttEdit>, ident: Text, edit: AttEdit) -> Result<(), NoMemory>
    ensures { OnOk result (edits.new.entries ≡ put text_cmp ident edit edits.old.entries) }
{
    drop(edits.insert(ident, edit)?);
    Ok(())
}

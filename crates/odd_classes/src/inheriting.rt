ghost use Rattle.std.specs.Prelude.{◌≡◌, ◌<◌, ◌+◌, None, IfOk, IsTrue, OnOk, get_or, if◌then◌else◌, length, replicate};
ghost use Rattle.odd_library.specs.declared.library.Library.{Library as ALibrary};
ghost use Rattle.odd_meaning.specs.Links.{classes_of};
ghost use Rattle.odd_classes.specs.Inheriting.{AreLastUses, AreLeft, AreTablesAt, IsStep, IsUsedAt, Sweeps};
ghost use Rattle.odd_classes.specs.Placing.{IsGraphOf};

use odd_graph::{Nodes, ordered};
use odd_library::{Component, Library};
use odd_offers::{Table, own_table, united};
use odd_text::{Key, Kind, NoMemory, TryCopy};
use std::alloc::Global;

/// The entries of a library, to be gone through in an order in which each stands after the classes that it is a member of, and
/// the tables of the classes that are still needed. An entry that reaches a class which is a member of itself stands not in it.
#[derive(Drop)]
pub struct Inheriting<'a> {
    entries: &'a [(Key, Component)],
    arrows: &'a [Nodes],
    order: Vec<usize>,
    // for each entry the last place in the order at which one stands that is a member of it
    last: Vec<usize>,
    tables: Vec<Option<Table>>,
}

/// An element, by its place among the entries, and what it inherits.
#[derive(Drop)]
pub struct Inherited {
    pub place: usize,
    pub table: Table,
}

impl<'a> Inheriting<'a> {
    /// The entries of a library, of which none was gone through, with its graph by classes.
    pub fn new(
        alloc: Global,
        library: &'a Library,
        arrows: &'a [Nodes],
    ) -> Result<Inheriting<'a>, NoMemory>
        requires { IsGraphOf classes_of library.now.parts arrows.now }
        ensures { IfOk result (λ s. Sweeps library.now s 0) }
    {
        let entries = library.parts.entries();
        let order = ordered(alloc, arrows)?;
        let last = last_uses(alloc, arrows, order.as_slice())?;
        let tables = no_tables(alloc, entries.len())?;
        Ok(Inheriting {
            entries,
            arrows,
            order,
            last,
            tables,
        })
    }

    /// How many entries are to be gone through.
    pub fn len(&self) -> usize
        ensures { result ≡ length self.now.order.items }
    {
        self.order.len()
    }

    /// Goes through the entry at a place in the order, where those before it were gone through, and tells what it inherits where it
    /// is an element. The table of a class is handed on to the last that needs it, and others have copies. The only error is
    /// NoMemory, for want of memory.
    pub fn step(&mut self, alloc: Global, at: usize) -> Result<Option<Inherited>, NoMemory>
        requires within { at < length self.old.order.items }
        requires sweeps { (library : ALibrary) × Sweeps library self.old at }
        ensures sweeps { (library : ALibrary) → Sweeps library self.old at → OnOk result (Sweeps library self.new (at + 1)) }
        ensures told { (library : ALibrary) → Sweeps library self.old at → IfOk result (IsStep library self.old.order.items at) }
        ensures order { OnOk result (self.new.order.items ≡ self.old.order.items) }
    {
        let place = self.order[at];
        let Some((key, part)) = self.entries.get(place) else {
            unreachable!()
        };
        let Some(nodes) = self.arrows.get(place) else {
            unreachable!()
        };
        let last = self.last.as_slice();
        let tables = taken(alloc, &mut self.tables, nodes.as_slice(), last, at)?;
        let table = united(alloc, tables)?;
        match key.kind {
            Kind::Element => Ok(Some(Inherited { place, table })),
            Kind::Class => {
                let table = own_table(alloc, &key.ident, part, table)?;
                self.tables[place] = Some(table);
                Ok(None)
            }
            Kind::Macro | Kind::Datatype => Ok(None),
        }
    }
}

// For each node the last place in the order at which one stands that has an arrow to it.
fn last_uses(alloc: Global, arrows: &[Nodes], order: &[usize]) -> Result<Vec<usize>, NoMemory>
    ensures { IfOk result (λ last. AreLastUses arrows.now order.now last.items) }
{
    let mut last = vec![in alloc; 0; arrows.len()]?;
    for (at, place) in order.iter().enumerate() {
        if let Some(nodes) = arrows.get(*place) {
            use_at(&mut last, nodes.as_slice(), at);
        }
    }
    Ok(last)
}

// Keeps the place for each of these nodes.
fn use_at(last: &mut Vec<usize>, nodes: &[usize], at: usize)
    ensures { IsUsedAt nodes.now at last.old.items last.new.items }
{
    for node in nodes {
        if let Some(place) = last.get_mut(*node) {
            *place = at;
        }
    }
}

// So many places without a table.
fn no_tables(alloc: Global, count: usize) -> Result<Vec<Option<Table>>, NoMemory>
    ensures { IfOk result (λ tables. tables.items ≡ replicate count None) }
{
    let mut tables = Vec::new(alloc);
    for _ in 0..count {
        tables.push(None)?;
    }
    Ok(tables)
}

// The tables of these nodes; those that no later node needs are taken, and the others copied.
fn taken(
    alloc: Global,
    tables: &mut Vec<Option<Table>>,
    nodes: &[usize],
    last: &[usize],
    at: usize,
) -> Result<Vec<Table>, NoMemory>
    ensures made { IfOk result (λ made. AreTablesAt tables.old.items nodes.now made.items) }
    ensures left { OnOk result (AreLeft last.now at tables.old.items tables.new.items) }
    ensures length { OnOk result (length tables.new.items ≡ length tables.old.items) }
{
    let mut made = Vec::new(alloc);
    for node in nodes {
        let is_last = is_last_use(last, *node, at);
        if let Some(slot) = tables.get_mut(*node) {
            if let Some(table) = taken_from(alloc, slot, is_last)? {
                made.push(table)?;
            }
        }
    }
    Ok(made)
}

// Whether the place is the last that is kept of a node.
fn is_last_use(last: &[usize], node: usize, at: usize) -> bool
    ensures { IsTrue result → get_or last.now node 0 ≡ at }
{
    match last.get(node) {
        Some(last) => *last == at,
        None => false,
    }
}

// The table, moved out where it is for the last time, and else a copy.
fn taken_from(
    alloc: Global,
    slot: &mut Option<Table>,
    is_last: bool,
) -> Result<Option<Table>, NoMemory>
    ensures made { IfOk result (λ made. made ≡ slot.old) }
    ensures left { OnOk result (slot.new ≡ if is_last then None else slot.old) }
{
    if is_last {
        Ok(slot.take())
    } else {
        slot.copy(alloc)
    }
}

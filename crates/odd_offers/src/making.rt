ghost use Rattle.std.specs.Prelude.{◌≡◌, [], IfOk, Some, unwrap_or};
ghost use Rattle.std.specs.Option.{option_copied};
ghost use Rattle.odd_meaning.specs.Offering.{edits_of as the_edits_of};
ghost use Rattle.odd_offers.specs.Tables.{HaveAll, IsOwnTable, own_at};

use crate::links::edits_of;
use crate::pairings::{Own, United};
use crate::shared::Shared;
use crate::table::{Offers, Table};
use odd_attributes::AttEdit;
use odd_library::Component;
use odd_overlay::{Pairing, zipped_maps};
use odd_text::{Map, NoMemory, Text, TryCopy};
use std::alloc::Global;

// So many edits are put into a table one by one; more are laid over it in one sweep.
const FEW: usize = 8;

/// What several tables have, as one. They are united in halves: with twice the tables an offer is moved once more. The only
/// error is NoMemory, for want of memory.
pub fn united(alloc: Global, tables: Vec<Table>) -> Result<Table, NoMemory>
    ensures { IfOk result (HaveAll tables.items) }
{
    let mut tables = tables;
    if tables.len() < 2 {
        return Ok(tables.pop().unwrap_or(Map::new(alloc)));
    }
    united_all(alloc, tables.as_slice())
}

// The same of tables that stay.
fn united_all(alloc: Global, tables: &[Table]) -> Result<Table, NoMemory>
    ensures { IfOk result (HaveAll tables.now) }
{
    match tables {
        [] => Ok(Map::new(alloc)),
        [table] => table.copy(alloc),
        _ => {
            let (one, other) = tables.split_at(tables.len() / 2);
            let one = united_all(alloc, one)?;
            let other = united_all(alloc, other)?;
            zipped_maps(alloc, &United, one, other)
        }
    }
}

/// What a class offers, by its own edits over what it inherits. The only error is NoMemory, for want of memory.
pub fn own_table(
    alloc: Global,
    ident: &Text,
    part: &Component,
    inherited: Table,
) -> Result<Table, NoMemory>
    ensures { IfOk result (IsOwnTable ident.now (the_edits_of part.now) inherited) }
{
    let Some(edits) = edits_of(part) else {
        return Ok(inherited);
    };
    let own = Own {
        class: ident.copy(alloc)?,
    };
    let edits = edits.copy(alloc)?.into_map();
    if edits.len() <= FEW {
        return edited(alloc, &own, edits, inherited);
    }
    zipped_maps(alloc, &own, edits, inherited)
}

// The same, one edit after the other.
fn edited(
    alloc: Global,
    own: &Own,
    edits: Map<Text, AttEdit>,
    inherited: Table,
) -> Result<Table, NoMemory>
    ensures { IfOk result (IsOwnTable own.now.class edits inherited) }
{
    let mut table = inherited;
    for (ident, edit) in edits.into_entries() {
        let offers = edited_at(alloc, own, edit, table.find(&ident))?;
        table.put(ident, offers)?;
    }
    Ok(table)
}

// What an edit makes of the offers that there are; where it makes nothing, none.
fn edited_at(
    alloc: Global,
    own: &Own,
    edit: AttEdit,
    there: Option<&Shared<Offers>>,
) -> Result<Shared<Offers>, NoMemory>
    ensures { IfOk result (λ made. made ≡ unwrap_or (own_at own.now.class (Some edit) (option_copied there.entry)) []) }
{
    let there = match there {
        Some(offers) => Some(offers.copy(alloc)?),
        None => None,
    };
    match own.pair(alloc, Some(edit), there)? {
        Some(offers) => Ok(offers),
        None => Shared::new(alloc, Offers::new(alloc)),
    }
}

ghost use Rattle.std.specs.Prelude.{◌≡◌, IfOk, map};
ghost use Rattle.rng_grammar.specs.Denoting.{read_as};
ghost use Rattle.rng_grammar.specs.declared.grammar.Expr.TheVariants as expr;
ghost use Rattle.compile_defines.specs.Budget.{IsMadeWithin, joined_elements, pattern_elements};
ghost use Rattle.compile_defines.specs.Data.{data_pattern as the_data_pattern, item_pattern as the_item_pattern, list_pattern as the_list_pattern, piece_pattern as the_piece_pattern, value_pattern as the_value_pattern, values_pattern as the_values_pattern};

use crate::budget::{Budget, MakeRefusal};
use crate::contents::{datatype_name, is_never};
use crate::repeating::{choice_pattern, repeated};
use odd_attributes::AttDef;
use odd_content::{Content, Contents};
use odd_text::{NoMemory, TryCopy, Words};
use rng_grammar::{Expr, Exprs};
use rng_types::{Bounds, DataType, Facets, Item, ListKind, ValList};
use sqlite_items::Boxed;
use std::alloc::Global;

// The bounds of what stands once.
const ONCE: Bounds = Bounds {
    min: 1,
    max: Some(1),
};

/// The pattern of the values of an attribute: any text without a datatype and a closed list; else what tests one piece, and where
/// there may be other than one piece, a list of so many. Its elements are taken of the budget.
pub fn value_pattern(alloc: Global, def: &AttDef, budget: &mut Budget) -> Result<Expr, MakeRefusal>
    ensures { IsMadeWithin pattern_elements (the_value_pattern def.now) budget.old budget.new result }
{
    let bounds = match &def.datatype {
        Some(datatype) => datatype.bounds,
        None => ONCE,
    };
    if bounds == ONCE {
        return piece_pattern(alloc, def, budget);
    }
    // No piece is made where none may stand, as it may be larger than any schema.
    if is_never(bounds) {
        budget.take_over(1)?;
        return Ok(Expr::List(Boxed::new(alloc, Expr::Empty)?));
    }
    let had = budget.left;
    let piece = piece_pattern(alloc, def, budget)?;
    let elements = had - budget.left;
    budget.left = had;
    budget.take(1)?;
    let pieces = repeated(alloc, piece, elements, bounds, budget)?;
    Ok(Expr::List(Boxed::new(alloc, pieces)?))
}

// The pattern of one piece: that of a closed list, or else of the datatype.
fn piece_pattern(alloc: Global, def: &AttDef, budget: &mut Budget) -> Result<Expr, MakeRefusal>
    ensures { IsMadeWithin pattern_elements (the_piece_pattern def.now.datatype def.now.vals) budget.old budget.new result }
{
    match (&def.vals, &def.datatype) {
        (Some(list), _) if list.kind == ListKind::Closed => {
            values_pattern(alloc, &list.values, budget)
        }
        (_, Some(datatype)) => item_pattern(alloc, &datatype.item, budget),
        (_, None) => {
            budget.take(1)?;
            Ok(Expr::Text)
        }
    }
}

/// The pattern of the content of a datatype: an item, a list of values, or an alternation of such, which stands once. No other
/// content allows a value. Its elements are taken of the budget.
///
/// TooLarge comes where it has more elements than are left, before more than these are made. NoMemory is answered for want of
/// memory. What is left of the budget after an error is not said.
#[cycle(data_pattern)]
pub fn data_pattern(
    alloc: Global,
    content: &Content,
    budget: &mut Budget,
) -> Result<Expr, MakeRefusal>
    ensures { IsMadeWithin pattern_elements (the_data_pattern content.now) budget.old budget.new result }
{
    match content {
        Content::Value(item) => item_pattern(alloc, item, budget),
        Content::Vals(list) => list_pattern(alloc, list, budget),
        Content::Alternate { parts, .. } => {
            Ok(choice_pattern(data_patterns(alloc, parts, budget)?))
        }
        _ => {
            budget.take(1)?;
            Ok(Expr::NotAllowed)
        }
    }
}

// The patterns of what a datatype's content may be. The element of a choice of them is taken too.
#[cycle(data_pattern)]
fn data_patterns(alloc: Global, parts: &Contents, budget: &mut Budget) -> Result<Exprs, MakeRefusal>
    ensures { IsMadeWithin joined_elements (map the_data_pattern parts.now) budget.old budget.new result }
{
    let mut made = Exprs::new(alloc);
    for part in parts.as_slice() {
        made.push(data_pattern(alloc, part, budget)?)?;
    }
    budget.take_joint(made.len())?;
    Ok(made)
}

/// The pattern of an item of data: a datatype with its facets, or a reference to a datatype of the library.
pub fn item_pattern(alloc: Global, item: &Item, budget: &mut Budget) -> Result<Expr, MakeRefusal>
    ensures { IsMadeWithin pattern_elements (the_item_pattern item.now) budget.old budget.new result }
{
    match item {
        Item::Typed { kind, facets } => {
            budget.take_over(facets.len() as u64)?;
            Ok(Expr::Typed {
                kind: written_as(*kind),
                facets: facets.copy(alloc)?,
            })
        }
        Item::Key(key) => {
            budget.take(1)?;
            Ok(Expr::Ref(datatype_name(alloc, key)?))
        }
    }
}

// The datatype as a schema has it, where no link between an ID and an IDREF is asked.
fn written_as(kind: DataType) -> DataType
    ensures { result ≡ read_as kind }
{
    match kind {
        DataType::Id | DataType::Idref => DataType::NcName,
        _ => kind,
    }
}

/// The pattern of a list of values: a choice of them where it is closed, and else any text.
pub fn list_pattern(alloc: Global, list: &ValList, budget: &mut Budget) -> Result<Expr, MakeRefusal>
    ensures { IsMadeWithin pattern_elements (the_list_pattern list.now) budget.old budget.new result }
{
    match list.kind {
        ListKind::Closed => values_pattern(alloc, &list.values, budget),
        ListKind::Semi | ListKind::Open => {
            budget.take(1)?;
            Ok(Expr::Typed {
                kind: DataType::String,
                facets: Facets::new(alloc),
            })
        }
    }
}

// A choice of values.
fn values_pattern(alloc: Global, values: &Words, budget: &mut Budget) -> Result<Expr, MakeRefusal>
    ensures { IsMadeWithin pattern_elements (the_values_pattern values.now) budget.old budget.new result }
{
    budget.take(values.len() as u64)?;
    budget.take_joint(values.len())?;
    Ok(choice_pattern(each_same(alloc, values)?))
}

// For each value the pattern of what equals it.
fn each_same(alloc: Global, values: &Words) -> Result<Exprs, NoMemory>
    ensures { IfOk result (λ made. made ≡ map expr.Same values.now) }
{
    let mut made = Exprs::new(alloc);
    for value in values.as_slice() {
        made.push(Expr::Same(value.copy(alloc)?))?;
    }
    Ok(made)
}

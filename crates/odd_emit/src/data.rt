ghost use Rattle.std.specs.Prelude.{◌≡◌, [], ◌∷◌, ◌++◌, map, OnOk, codes};
ghost use Rattle.odd_tree.specs.Markup.{printed};
ghost use Rattle.rng_types.specs.declared.item.Item.TheVariants as items;
ghost use Rattle.rng_emit.specs.Grammar.{facet_name as the_facet_name};
ghost use Rattle.odd_emit.specs.Contents.{facet_markup, item_markup, list_markup, type_said, value_markup};
ghost use Rattle.odd_emit.specs.Contents.{list_word as the_list_word, type_name as the_type_name};
ghost use Rattle.odd_emit.specs.Saying.{a_text, elements_printed, said_printed, says};

use crate::saying::{add_ident, add_key, add_mode};
use odd_printing::{add_attribute, add_end_tag, begin_tag, end_empty_tag, end_start_tag};
use odd_text::{NoMemory, Text, Words};
use rng_emit::facet_name;
use rng_types::{DataType, Facet, Facets, Item, ListKind, ValList};

// The name of a datatype of XML Schema.
fn type_name(kind: DataType) -> &'static str
    ensures { result.now ≡ the_type_name kind }
{
    match kind {
        DataType::String => "string",
        DataType::NormalizedString => "normalizedString",
        DataType::Token => "token",
        DataType::Nmtoken => "NMTOKEN",
        DataType::Name => "Name",
        DataType::NcName => "NCName",
        DataType::Id => "ID",
        DataType::Idref => "IDREF",
        DataType::Language => "language",
        DataType::AnyUri => "anyURI",
        DataType::Boolean => "boolean",
        DataType::Integer => "integer",
        DataType::NonNegativeInteger => "nonNegativeInteger",
        DataType::PositiveInteger => "positiveInteger",
        DataType::Decimal => "decimal",
    }
}

fn add_facet(out: &mut Text, facet: &Facet) -> Result<(), NoMemory>
    ensures { OnOk result (out.new ≡ out.old ++ printed (facet_markup facet.now)) }
{
    begin_tag(out, "dataFacet")?;
    add_facet_said(out, facet)?;
    end_empty_tag(out)
}

fn add_facet_said(out: &mut Text, facet: &Facet) -> Result<(), NoMemory>
    ensures { OnOk result (out.new ≡ out.old ++ said_printed (says (codes "name") (a_text (the_facet_name facet.now.name)) ∷ says (codes "value") (a_text facet.now.value) ∷ [])) }
{
    add_attribute(out, "name", facet_name(facet.name))?;
    add_attribute(out, "value", facet.value.as_str())
}

fn add_facets(out: &mut Text, facets: &Facets) -> Result<(), NoMemory>
    ensures { OnOk result (out.new ≡ out.old ++ elements_printed (map facet_markup facets.now)) }
{
    for facet in facets.as_slice() {
        add_facet(out, facet)?;
    }
    Ok(())
}

/// Puts a reference to a datatype.
pub fn add_item(out: &mut Text, item: &Item) -> Result<(), NoMemory>
    ensures { OnOk result (out.new ≡ out.old ++ printed (item_markup item.now)) }
{
    match item {
        Item::Key(key) => add_data_key(out, key),
        Item::Typed { kind, facets } => add_typed(out, *kind, facets),
    }
}

fn add_data_key(out: &mut Text, key: &Text) -> Result<(), NoMemory>
    ensures { OnOk result (out.new ≡ out.old ++ printed (item_markup (items.Key key.now))) }
{
    begin_tag(out, "dataRef")?;
    add_key(out, key)?;
    end_empty_tag(out)
}

fn add_typed(out: &mut Text, kind: DataType, facets: &Facets) -> Result<(), NoMemory>
    ensures { OnOk result (out.new ≡ out.old ++ printed (item_markup (items.Typed kind facets.now))) }
{
    begin_tag(out, "dataRef")?;
    add_type_name(out, kind)?;
    if facets.is_empty() {
        return end_empty_tag(out);
    }
    end_start_tag(out)?;
    add_facets(out, facets)?;
    add_end_tag(out, "dataRef")
}

fn add_type_name(out: &mut Text, kind: DataType) -> Result<(), NoMemory>
    ensures { OnOk result (out.new ≡ out.old ++ said_printed (says (codes "name") (a_text (the_type_name kind)) ∷ [])) }
{
    add_attribute(out, "name", type_name(kind))
}

// The word for the type of a list of values.
fn list_word(kind: ListKind) -> &'static str
    ensures { result.now ≡ the_list_word kind }
{
    match kind {
        ListKind::Closed => "closed",
        ListKind::Semi => "semi",
        ListKind::Open => "open",
    }
}

/// Puts the type of a list of values.
pub fn add_type(out: &mut Text, kind: ListKind) -> Result<(), NoMemory>
    ensures { OnOk result (out.new ≡ out.old ++ said_printed (type_said kind ∷ [])) }
{
    add_attribute(out, "type", list_word(kind))
}

fn add_value(out: &mut Text, value: &Text) -> Result<(), NoMemory>
    ensures { OnOk result (out.new ≡ out.old ++ printed (value_markup value.now)) }
{
    begin_tag(out, "valItem")?;
    add_ident(out, value)?;
    end_empty_tag(out)
}

fn add_values(out: &mut Text, values: &Words) -> Result<(), NoMemory>
    ensures { OnOk result (out.new ≡ out.old ++ elements_printed (map value_markup values.now)) }
{
    for value in values.as_slice() {
        add_value(out, value)?;
    }
    Ok(())
}

/// Puts a list of values.
pub fn add_list(out: &mut Text, list: &ValList) -> Result<(), NoMemory>
    ensures { OnOk result (out.new ≡ out.old ++ printed (list_markup list.now)) }
{
    begin_tag(out, "valList")?;
    add_type(out, list.kind)?;
    add_mode(out, "add")?;
    if list.values.is_empty() {
        return end_empty_tag(out);
    }
    end_start_tag(out)?;
    add_values(out, &list.values)?;
    add_end_tag(out, "valList")
}

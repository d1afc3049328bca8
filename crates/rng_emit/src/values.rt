ghost use Rattle.std.specs.Prelude.{◌≡◌, [], ◌∷◌, ◌++◌, map, OnOk, codes};
ghost use Rattle.odd_tree.specs.Markup.{all_of, all_printed, element, line, printed};
ghost use Rattle.rng_emit.specs.Grammar.{facet_name, param_markup, type_name};

use odd_printing::{
    add_end_tag, begin_tag, begin_tag_with, end_empty_tag, end_line, end_start_tag,
};
use odd_text::{NoMemory, Text};
use rng_types::{DataType, Facet, FacetName, Facets};

/// The name of a datatype of XML Schema. ID and IDREF are written as NCName.
fn type_name(kind: DataType) -> &'static str
    ensures { result.now ≡ type_name kind }
{
    match kind {
        DataType::String => "string",
        DataType::NormalizedString => "normalizedString",
        DataType::Token => "token",
        DataType::Nmtoken => "NMTOKEN",
        DataType::Name => "Name",
        DataType::NcName => "NCName",
        DataType::Id => "NCName",
        DataType::Idref => "NCName",
        DataType::Language => "language",
        DataType::AnyUri => "anyURI",
        DataType::Boolean => "boolean",
        DataType::Integer => "integer",
        DataType::NonNegativeInteger => "nonNegativeInteger",
        DataType::PositiveInteger => "positiveInteger",
        DataType::Decimal => "decimal",
    }
}

/// The name of a facet.
pub fn facet_name(name: FacetName) -> &'static str
    ensures { result.now ≡ facet_name name }
{
    match name {
        FacetName::Length => "length",
        FacetName::MaxInclusive => "maxInclusive",
        FacetName::MaxLength => "maxLength",
        FacetName::MinInclusive => "minInclusive",
        FacetName::MinLength => "minLength",
        FacetName::Pattern => "pattern",
    }
}

fn add_param(out: &mut Text, facet: &Facet) -> Result<(), NoMemory>
    ensures { OnOk result (out.new ≡ out.old ++ printed (param_markup facet.now)) }
{
    begin_tag_with(out, "param", "name", facet_name(facet.name))?;
    end_line(out, "param", facet.value.as_str())
}

fn add_params(out: &mut Text, facets: &Facets) -> Result<(), NoMemory>
    ensures { OnOk result (out.new ≡ out.old ++ all_printed (all_of (map param_markup facets.now))) }
{
    for facet in facets.as_slice() {
        add_param(out, facet)?;
    }
    Ok(())
}

/// Puts a value of a datatype with facets.
pub fn add_data(out: &mut Text, kind: DataType, facets: &Facets) -> Result<(), NoMemory>
    ensures { OnOk result (out.new ≡ out.old ++ printed (element (codes "data") ((codes "type", type_name kind) ∷ []) (all_of (map param_markup facets.now)))) }
{
    begin_tag_with(out, "data", "type", type_name(kind))?;
    if facets.is_empty() {
        return end_empty_tag(out);
    }
    end_start_tag(out)?;
    add_params(out, facets)?;
    add_end_tag(out, "data")
}

/// Puts a value that equals the text.
pub fn add_value(out: &mut Text, text: &str) -> Result<(), NoMemory>
    ensures { OnOk result (out.new ≡ out.old ++ printed (line (codes "value") [] text.now)) }
{
    begin_tag(out, "value")?;
    end_line(out, "value", text)
}

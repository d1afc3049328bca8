ghost use Rattle.std.specs.Prelude.{◌≡◌};
ghost use Rattle.rng_values.specs.Names.{facet_names, named, type_names};

use odd_text::Text;
use rng_types::{DataType, FacetName};

/// The datatype that has the name (XML Schema, Part 2, section 3), compared exactly.
pub fn type_named(name: &Text) -> Option<DataType>
    ensures { result ≡ named type_names name.now }
{
    match name.as_str() {
        "string" => Some(DataType::String),
        "normalizedString" => Some(DataType::NormalizedString),
        "token" => Some(DataType::Token),
        "NMTOKEN" => Some(DataType::Nmtoken),
        "Name" => Some(DataType::Name),
        "NCName" => Some(DataType::NcName),
        "ID" => Some(DataType::Id),
        "IDREF" => Some(DataType::Idref),
        "language" => Some(DataType::Language),
        "anyURI" => Some(DataType::AnyUri),
        "boolean" => Some(DataType::Boolean),
        "integer" => Some(DataType::Integer),
        "nonNegativeInteger" => Some(DataType::NonNegativeInteger),
        "positiveInteger" => Some(DataType::PositiveInteger),
        "decimal" => Some(DataType::Decimal),
        _ => None,
    }
}

/// The facet that has the name (XML Schema, Part 2, section 4.3), compared exactly.
pub fn facet_named(name: &Text) -> Option<FacetName>
    ensures { result ≡ named facet_names name.now }
{
    match name.as_str() {
        "length" => Some(FacetName::Length),
        "minLength" => Some(FacetName::MinLength),
        "maxLength" => Some(FacetName::MaxLength),
        "minInclusive" => Some(FacetName::MinInclusive),
        "maxInclusive" => Some(FacetName::MaxInclusive),
        "pattern" => Some(FacetName::Pattern),
        _ => None,
    }
}

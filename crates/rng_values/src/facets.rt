ghost use Rattle.std.specs.Prelude.{◌≡◌, ◌↔◌, IsTrue};
ghost use Rattle.std.specs.Str.{chars};
ghost use Rattle.rng_values.specs.Facets.{AreFewDigits, IsNumberOf, has_length as the_has_length, has_order as the_has_order, takes_facet as the_takes};

use crate::forms::are_digits;
use crate::signs::split_sign;
use odd_text::Text;
use rng_types::{DataType, FacetName};

/// How many digits the number of characters has at most.
const MAX_LENGTH_DIGITS: usize = 9;
/// How many digits a bound has at most.
const MAX_BOUND_DIGITS: usize = 18;

// Whether the characters of a value of the datatype may be counted.
fn has_length(kind: DataType) -> bool
    ensures { result ≡ the_has_length kind }
{
    !matches!(
        kind,
        DataType::Boolean
            | DataType::Integer
            | DataType::NonNegativeInteger
            | DataType::PositiveInteger
            | DataType::Decimal
    )
}

// Whether the datatype is one of whole numbers.
fn has_order(kind: DataType) -> bool
    ensures { result ≡ the_has_order kind }
{
    matches!(
        kind,
        DataType::Integer | DataType::NonNegativeInteger | DataType::PositiveInteger
    )
}

/// Whether the datatype takes the facet (XML Schema, Part 2, section 4.1.5).
pub fn takes_facet(kind: DataType, name: FacetName) -> bool
    ensures { result ≡ the_takes kind name }
{
    match name {
        FacetName::Pattern => true,
        FacetName::MinInclusive | FacetName::MaxInclusive => has_order(kind),
        FacetName::Length | FacetName::MinLength | FacetName::MaxLength => has_length(kind),
    }
}

// Whether a text is one to so many digits, of which each is one byte.
fn are_few_digits(most: usize, text: &str) -> bool
    ensures { IsTrue result ↔ AreFewDigits most (chars text.now) }
{
    are_digits(text) && text.len() <= most
}

/// Whether the value of a facet is a number of its form (XML Schema, Part 2, section 4.3): 1 to 9 digits for a number of
/// characters, 1 to 18 digits behind a sign or none for a bound. Nothing is asked of a pattern.
pub fn is_number_of(name: FacetName, value: &Text) -> bool
    ensures { IsTrue result ↔ IsNumberOf name (chars value.now) }
{
    let text = value.as_str();
    match name {
        FacetName::Pattern => true,
        FacetName::MinInclusive | FacetName::MaxInclusive => {
            are_few_digits(MAX_BOUND_DIGITS, split_sign(text).1)
        }
        FacetName::Length | FacetName::MinLength | FacetName::MaxLength => {
            are_few_digits(MAX_LENGTH_DIGITS, text)
        }
    }
}

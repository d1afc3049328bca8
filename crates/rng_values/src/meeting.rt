ghost use Rattle.std.specs.Prelude.{◌≡◌, ◌≢◌, ◌↔◌, IsTrue};
ghost use Rattle.std.specs.Str.{chars};
ghost use Rattle.std.specs.Str.Parse.{digits_value};
ghost use Rattle.rng_values.specs.Facets.{AreFewDigits, Meets};
ghost use Rattle.rng_values.specs.Formed.{IsFormedFacet};
ghost use Rattle.rng_values.specs.Lexical.{Fits};
ghost use Rattle.rng_values.specs.Treated.{treated};

use crate::ordering::is_up_to;
use crate::white_space::{treated_length, trimmed};
use odd_text::Text;
use rng_types::{DataType, Facet, FacetName};

/// Whether a text of a datatype meets a facet of it that is no pattern (XML Schema, Part 2, section 4.3): how many characters it has
/// once its white space is treated, or how large its number is, whatever the number of digits.
pub fn meets(kind: DataType, facet: &Facet, text: &Text) -> bool
    requires formed { IsFormedFacet kind facet.now }
    requires counted { facet.now.name ≢ FacetName.Pattern }
    requires fits { Fits kind (chars text.now) }
    ensures { IsTrue result ↔ Meets facet.now (treated kind (chars text.now)) }
{
    match facet.name {
        FacetName::Length => treated_length(kind, text) == number(&facet.value),
        FacetName::MinLength => treated_length(kind, text) >= number(&facet.value),
        FacetName::MaxLength => treated_length(kind, text) <= number(&facet.value),
        FacetName::MinInclusive => is_up_to(facet.value.as_str(), trimmed(text.as_str())),
        FacetName::MaxInclusive => is_up_to(trimmed(text.as_str()), facet.value.as_str()),
        FacetName::Pattern => unreachable!(),
    }
}

// The number that 1 to 9 digits tell.
fn number(digits: &Text) -> usize
    requires { AreFewDigits 9 (chars digits.now) }
    ensures { result ≡ digits_value 10 (chars digits.now) }
{
    match digits.as_str().parse::<usize>() {
        Ok(number) => number,
        Err(_) => unreachable!(),
    }
}

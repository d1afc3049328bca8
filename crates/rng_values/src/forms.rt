ghost use Rattle.std.specs.Prelude.{◌≡◌, ◌++◌, ◌&&◌, ◌||◌, ◌==◌, ◌↔◌, IsTrue, length, nat_le};
ghost use Rattle.std.specs.Char.{is_ascii_alphabetic, is_ascii_alphanumeric, is_ascii_digit};
ghost use Rattle.std.specs.List.{list_all};
ghost use Rattle.std.specs.Str.{chars};
ghost use Rattle.odd_tokens.specs.Characters.{is_name_start as a_name_start};
ghost use Rattle.rng_values.specs.Lexical.{AreDigits, HasForm, IsDecimalPart, is_nmtoken_char as an_nmtoken_char};
ghost use Rattle.rng_values.specs.Tags.{is_tag};

use crate::signs::split_sign;
use odd_tokens::{is_name_char, is_name_start};
use rng_types::DataType;

// Whether a text without white space at its ends has the form of a datatype. Every text has that of a string, a
// normalizedString, a token or an anyURI.
pub(crate) fn has_form(kind: DataType, text: &str) -> bool
    ensures { IsTrue result ↔ HasForm kind (chars text.now) }
{
    match kind {
        DataType::String | DataType::NormalizedString | DataType::Token | DataType::AnyUri => true,
        DataType::Nmtoken => is_nmtoken(text),
        DataType::Name => is_name(text),
        DataType::NcName | DataType::Id | DataType::Idref => is_ncname(text),
        DataType::Language => is_language(text),
        DataType::Boolean => is_boolean(text),
        DataType::Integer => is_integer(text),
        DataType::NonNegativeInteger => is_non_negative(text),
        DataType::PositiveInteger => is_positive(text),
        DataType::Decimal => is_decimal(text),
    }
}

// An NMTOKEN (XML Schema, Part 2, section 3.3.4).
fn is_nmtoken(text: &str) -> bool
    ensures { IsTrue result ↔ HasForm DataType.Nmtoken (chars text.now) }
{
    !text.is_empty() && text.chars().all(is_nmtoken_char)
}

// A Name (section 3.3.6).
fn is_name(text: &str) -> bool
    ensures { IsTrue result ↔ HasForm DataType.Name (chars text.now) }
{
    text.starts_with(begins_name) && is_nmtoken(text)
}

// An NCName (section 3.3.7), which an ID and an IDREF are too (sections 3.3.8 and 3.3.9).
fn is_ncname(text: &str) -> bool
    ensures { IsTrue result ↔ HasForm DataType.NcName (chars text.now) }
{
    text.starts_with(|c| is_name_start(c)) && text.chars().all(|c| is_name_char(c))
}

fn is_nmtoken_char(c: char) -> bool
    ensures { result ≡ an_nmtoken_char c }
{
    is_name_char(c) || c == ':'
}

fn begins_name(c: char) -> bool
    ensures { result ≡ (a_name_start c || c == 0x3A) }
{
    is_name_start(c) || c == ':'
}

// A language (section 3.3.3): parts with a `-` between each two.
fn is_language(text: &str) -> bool
    ensures { IsTrue result ↔ HasForm DataType.Language (chars text.now) }
{
    match text.split_once('-') {
        Some((first, rest)) => is_first_tag(first) && rest.split('-').all(is_subtag),
        None => is_first_tag(text),
    }
}

// The first part: 1 to 8 letters.
fn is_first_tag(tag: &str) -> bool
    ensures { result ≡ is_tag is_ascii_alphabetic tag.now }
{
    has_tag_length(tag) && tag.chars().all(|c| c.is_ascii_alphabetic())
}

// Any other part: 1 to 8 letters and digits.
fn is_subtag(tag: &str) -> bool
    ensures { result ≡ is_tag is_ascii_alphanumeric tag.now }
{
    has_tag_length(tag) && tag.chars().all(|c| c.is_ascii_alphanumeric())
}

fn has_tag_length(tag: &str) -> bool
    ensures { result ≡ (nat_le 1 (length tag.now) && nat_le (length tag.now) 8) }
{
    (1..=8).contains(&tag.len())
}

// A boolean (section 3.2.2).
fn is_boolean(text: &str) -> bool
    ensures { IsTrue result ↔ HasForm DataType.Boolean (chars text.now) }
{
    matches!(text, "true" | "false" | "1" | "0")
}

// An integer (section 3.3.13).
fn is_integer(text: &str) -> bool
    ensures { IsTrue result ↔ HasForm DataType.Integer (chars text.now) }
{
    let (_, digits) = split_sign(text);
    are_digits(digits)
}

// A nonNegativeInteger (section 3.3.20), which `-0` is.
fn is_non_negative(text: &str) -> bool
    ensures { IsTrue result ↔ HasForm DataType.NonNegativeInteger (chars text.now) }
{
    let (negative, digits) = split_sign(text);
    are_digits(digits) && (!negative || has_only_zeros(digits))
}

// A positiveInteger (section 3.3.25).
fn is_positive(text: &str) -> bool
    ensures { IsTrue result ↔ HasForm DataType.PositiveInteger (chars text.now) }
{
    let (negative, digits) = split_sign(text);
    !negative && are_digits(digits) && !has_only_zeros(digits)
}

// A decimal (section 3.2.3).
fn is_decimal(text: &str) -> bool
    ensures { IsTrue result ↔ HasForm DataType.Decimal (chars text.now) }
{
    let (_, digits) = split_sign(text);
    is_decimal_part(digits)
}

// Whether a text is digits, of which some may stand after a point.
fn is_decimal_part(text: &str) -> bool
    ensures { IsTrue result ↔ IsDecimalPart (chars text.now) }
{
    match text.split_once('.') {
        Some((whole, fraction)) => are_digits_around_point(whole, fraction),
        None => are_digits(text),
    }
}

// Whether what stands before a point and after it are digits, of which there is one at least.
fn are_digits_around_point(whole: &str, fraction: &str) -> bool
    ensures { IsTrue result ↔ AreDigits (chars whole.now ++ chars fraction.now) }
{
    if whole.is_empty() {
        are_digits(fraction)
    } else {
        has_only_digits(whole) && has_only_digits(fraction)
    }
}

// Whether a text is one digit or more.
pub(crate) fn are_digits(text: &str) -> bool
    ensures { IsTrue result ↔ AreDigits (chars text.now) }
{
    !text.is_empty() && has_only_digits(text)
}

fn has_only_digits(text: &str) -> bool
    ensures { result ≡ list_all is_ascii_digit (chars text.now) }
{
    text.chars().all(|c| c.is_ascii_digit())
}

fn has_only_zeros(text: &str) -> bool
    ensures { result ≡ list_all (λ c. c == 0x30) (chars text.now) }
{
    text.chars().all(|c| c == '0')
}

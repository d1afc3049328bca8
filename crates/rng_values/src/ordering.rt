ghost use Rattle.std.specs.Prelude.{◌≡◌, ◌≤◌, ◌↔◌, IsTrue};
ghost use Rattle.std.specs.Char.{is_ascii_digit};
ghost use Rattle.std.specs.List.{list_all};
ghost use Rattle.std.specs.Str.{chars};
ghost use Rattle.std.specs.Str.Parse.{digits_value, starts_with_minus, without_leading_sign};
ghost use Rattle.rng_values.specs.Facets.{AreInOrder, IsUpTo};
ghost use Rattle.rng_values.specs.Lexical.{IsInteger};
ghost use Rattle.rng_values.specs.Signs.{AreTrimmed};

use crate::signs::split_sign;

/// Whether a whole number is not above another, both as they are written, with any number of digits (XML Schema, Part 2,
/// sections 3.3.13, 4.3.7 and 4.3.10).
pub fn is_up_to(one: &str, other: &str) -> bool
    requires one { IsInteger (chars one.now) }
    requires other { IsInteger (chars other.now) }
    ensures { IsTrue result ↔ AreInOrder (chars one.now) (chars other.now) }
{
    is_whole_up_to(whole(one), whole(other))
}

// Whether a whole number is not above another, each by whether it is negative and by its digits.
fn is_whole_up_to(one: (bool, &[u8]), other: (bool, &[u8])) -> bool
    requires one { AreTrimmed one.1.now }
    requires other { AreTrimmed other.1.now }
    ensures { IsTrue result ↔ IsUpTo one.entry.0 (digits_value 10 one.entry.1.now) other.entry.0 (digits_value 10 other.entry.1.now) }
{
    match (one, other) {
        ((false, digits), (false, others)) => are_up_to(digits, others),
        ((false, digits), (true, others)) => is_zero(digits) && is_zero(others),
        ((true, _), (false, _)) => true,
        ((true, digits), (true, others)) => are_up_to(others, digits),
    }
}

// Whether a whole number is negative, and its digits without the zeros that they begin with.
fn whole(text: &str) -> (bool, &[u8])
    requires { IsInteger (chars text.now) }
    ensures negative { result.0 ≡ starts_with_minus (chars text.now) }
    ensures trimmed { AreTrimmed result.1.now }
    ensures value { digits_value 10 result.1.now ≡ digits_value 10 (without_leading_sign (chars text.now)) }
{
    let (is_negative, digits) = split_sign(text);
    (is_negative, trimmed(digits.as_bytes()))
}

// The digits without the zeros that they begin with.
fn trimmed(digits: &[u8]) -> &[u8]
    requires { IsTrue (list_all is_ascii_digit digits.now) }
    ensures trimmed { AreTrimmed result.now }
    ensures value { digits_value 10 result.now ≡ digits_value 10 digits.now }
{
    let mut rest = digits;
    while let [b'0', others @ ..] = rest {
        rest = others;
    }
    rest
}

// Whether the number that digits tell is not above that of others. Where there are as many, the first that differ decide.
fn are_up_to(digits: &[u8], others: &[u8]) -> bool
    requires digits { AreTrimmed digits.now }
    requires others { AreTrimmed others.now }
    ensures { IsTrue result ↔ (digits_value 10 digits.now ≤ digits_value 10 others.now) }
{
    if digits.len() == others.len() {
        digits.cmp(others).is_le()
    } else {
        digits.len() < others.len()
    }
}

// Whether digits tell zero.
fn is_zero(digits: &[u8]) -> bool
    requires { AreTrimmed digits.now }
    ensures { IsTrue result ↔ (digits_value 10 digits.now ≡ 0) }
{
    digits.is_empty()
}

ghost use Rattle.std.specs.Prelude.{◌≡◌, ◌≤◌, IfSome, length};
ghost use Rattle.std.specs.Str.{encode_utf8_all};
ghost use Rattle.odd_tokens.specs.Tokens.{IsReference, Reference, character_of, reference_written};
ghost use Rattle.odd_reader.specs.Tagging.{AreDigitsFirst, IsNumberOf, IsReferenceFirst};

use odd_tokens::is_char;

// How many bytes a number of a reference may have to be read at once.
const DIGITS: usize = 8;

// A character whose reference, as it is written, stands first in a text, and what follows.
fn after<'a>(text: &'a str, written: &str, c: char) -> Option<(char, &'a str)>
    ensures { (r : Reference) → IsReference r → encode_utf8_all (reference_written r) ≡ written.now → c ≡ character_of r → IfSome result (λ p. IsReferenceFirst text.now p.0 p.1.now) }
{
    match text.strip_prefix(written) {
        Some(rest) => Some((c, rest)),
        None => None,
    }
}

// The second byte of a text, or 0.
fn second_byte(text: &str) -> u8 {
    match text.as_bytes().get(1) {
        Some(b) => *b,
        None => 0,
    }
}

// An ampersand or an apostrophe whose reference stands first in a text, and what follows.
fn after_mark(text: &str) -> Option<(char, &str)>
    ensures { IfSome result (λ p. IsReferenceFirst text.now p.0 p.1.now) }
{
    match after(text, "&amp;", '&') {
        Some((c, rest)) => Some((c, rest)),
        None => after(text, "&apos;", '\''),
    }
}

// How many bytes stand before a semicolon, or as many as are read at once.
fn number_length(bytes: &[u8]) -> usize
    ensures { result ≤ length bytes.now }
{
    let mut at = 0;
    'number: while at < bytes.len() && at < DIGITS && bytes[at] != b';' {
        at += 1;
    }
    at
}

// The character that has the number, where it is one of XML.
fn numbered(base: u32, digits: &str) -> Option<char>
    requires low { 2 ≤ base }
    requires high { base ≤ 36 }
    ensures { IfSome result (λ c. IsNumberOf base digits.now c) }
{
    let bytes = digits.as_bytes();
    if bytes.len() == 0 || bytes[0] == b'+' {
        return None;
    }
    let Ok(number) = u32::from_str_radix(digits, base) else {
        return None;
    };
    let Some(c) = char::from_u32(number) else {
        return None;
    };
    if !is_char(c) {
        return None;
    }
    Some(c)
}

// The character whose number stands first in a text, with a semicolon after it, and what follows.
fn after_digits(base: u32, text: &str) -> Option<(char, &str)>
    requires low { 2 ≤ base }
    requires high { base ≤ 36 }
    ensures { IfSome result (λ p. AreDigitsFirst base text.now p.0 p.1.now) }
{
    let Some((digits, ended)) = text.split_at_checked(number_length(text.as_bytes())) else {
        return None;
    };
    let Some(rest) = ended.strip_prefix(';') else {
        return None;
    };
    match numbered(base, digits) {
        Some(c) => Some((c, rest)),
        None => None,
    }
}

// The character of a reference by its number that stands first in a text, and what follows.
fn after_number(text: &str) -> Option<(char, &str)>
    ensures { IfSome result (λ p. IsReferenceFirst text.now p.0 p.1.now) }
{
    if let Some(digits) = text.strip_prefix("&#x") {
        return after_digits(16, digits);
    }
    match text.strip_prefix("&#") {
        Some(digits) => after_digits(10, digits),
        None => None,
    }
}

/// The character of a reference that stands first in a text, and what follows.
pub fn after_reference(text: &str) -> Option<(char, &str)>
    ensures { IfSome result (λ p. IsReferenceFirst text.now p.0 p.1.now) }
{
    match second_byte(text) {
        b'#' => after_number(text),
        b'a' => after_mark(text),
        b'g' => after(text, "&gt;", '>'),
        b'l' => after(text, "&lt;", '<'),
        b'q' => after(text, "&quot;", '"'),
        _ => None,
    }
}

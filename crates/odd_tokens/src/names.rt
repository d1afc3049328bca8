ghost use Rattle.std.specs.Prelude.{◌≡◌, ◌↔◌, IsTrue};
ghost use Rattle.odd_tokens.specs.Characters.{IsNCName, is_name_char as a_name_char, is_name_start as a_name_start};

use crate::character::is_in;
use odd_text::Text;

// The characters that begin an NCName, as ranges from the first to the last of each.
const STARTS: [(char, char); 15] = [
    ('A', 'Z'),
    ('_', '_'),
    ('a', 'z'),
    ('\u{00C0}', '\u{00D6}'),
    ('\u{00D8}', '\u{00F6}'),
    ('\u{00F8}', '\u{02FF}'),
    ('\u{0370}', '\u{037D}'),
    ('\u{037F}', '\u{1FFF}'),
    ('\u{200C}', '\u{200D}'),
    ('\u{2070}', '\u{218F}'),
    ('\u{2C00}', '\u{2FEF}'),
    ('\u{3001}', '\u{D7FF}'),
    ('\u{F900}', '\u{FDCF}'),
    ('\u{FDF0}', '\u{FFFD}'),
    ('\u{10000}', '\u{EFFFF}'),
];

// The further characters that an NCName goes on with.
const OTHERS: [(char, char); 6] = [
    ('-', '-'),
    ('.', '.'),
    ('0', '9'),
    ('\u{00B7}', '\u{00B7}'),
    ('\u{0300}', '\u{036F}'),
    ('\u{203F}', '\u{2040}'),
];

/// Whether a character may begin an NCName (Namespaces in XML 1.0, section 3; XML 1.0, section 2.3).
pub fn is_name_start(c: char) -> bool
    ensures { result ≡ a_name_start c }
{
    is_in(&STARTS, c)
}

/// Whether an NCName may go on with a character.
pub fn is_name_char(c: char) -> bool
    ensures { result ≡ a_name_char c }
{
    is_name_start(c) || is_in(&OTHERS, c)
}

/// Whether a text is an NCName: a name without a colon.
pub fn is_ncname(text: &Text) -> bool
    ensures { IsTrue result ↔ IsNCName text.now }
{
    let mut chars = text.as_str().chars();
    match chars.next() {
        Some(first) => is_name_start(first) && chars.all(is_name_char),
        None => false,
    }
}

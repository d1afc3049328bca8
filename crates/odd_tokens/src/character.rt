ghost use Rattle.std.specs.Prelude.{◌≡◌};
ghost use Rattle.std.specs.List.{list_any};
ghost use Rattle.odd_tokens.specs.Characters.{is_char as a_char, is_space as a_space, is_within as a_within};

// The characters of XML, as ranges from the first to the last of each.
const CHARS: [(char, char); 6] = [
    ('\t', '\t'),
    ('\n', '\n'),
    ('\r', '\r'),
    (' ', '\u{D7FF}'),
    ('\u{E000}', '\u{FFFD}'),
    ('\u{10000}', '\u{10FFFF}'),
];

/// Whether one of the ranges has the character.
pub fn is_in(ranges: &[(char, char)], c: char) -> bool
    ensures { result ≡ list_any (λ r. a_within r.0 r.1 c) ranges.now }
{
    ranges.iter().any(|range| range.0 <= c && c <= range.1)
}

/// Whether a character is one of XML (XML 1.0, section 2.2).
pub fn is_char(c: char) -> bool
    ensures { result ≡ a_char c }
{
    is_in(&CHARS, c)
}

/// Whether a character is white space (XML 1.0, section 2.3).
pub fn is_space(c: char) -> bool
    ensures { result ≡ a_space c }
{
    matches!(c, ' ' | '\t' | '\r' | '\n')
}

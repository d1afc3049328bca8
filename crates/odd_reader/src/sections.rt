ghost use Rattle.std.specs.Prelude.{◌≡◌, ◌≤◌, IfSome, length, take, true};
ghost use Rattle.std.specs.List.{list_all};
ghost use Rattle.odd_reader.specs.Tagging.{IsSectionFirst, is_section_byte as a_section_byte};

// Whether a byte belongs to a character of a CDATA section that is read as itself. Two characters that are none of XML begin with 0xEF.
fn is_section_byte(b: u8) -> bool
    ensures { result ≡ a_section_byte b }
{
    match b {
        b'\t' | b'\n' => true,
        b']' | 0xEF => false,
        _ => b >= b' ',
    }
}

// How many such bytes stand first.
fn section_length(bytes: &[u8]) -> usize
    ensures within { result ≤ length bytes.now }
    ensures plain { list_all a_section_byte (take result bytes.now) ≡ true }
{
    let mut at = 0;
    'section: while at < bytes.len() && is_section_byte(bytes[at]) {
        at += 1;
    }
    at
}

/// The text of a CDATA section that stands first and has no bracket in it, and what follows.
pub fn after_section(text: &str) -> Option<(&str, &str)>
    ensures { IfSome result (λ p. IsSectionFirst text.now p.0.now p.1.now) }
{
    let Some(begun) = text.strip_prefix("<![CDATA[") else {
        return None;
    };
    let Some((inside, ended)) = begun.split_at_checked(section_length(begun.as_bytes())) else {
        return None;
    };
    match ended.strip_prefix("]]>") {
        Some(rest) => Some((inside, rest)),
        None => None,
    }
}

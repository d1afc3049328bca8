ghost use Rattle.std.specs.Prelude.{◌≡◌, ◌<◌, ◌≤◌, IfSome, length, take, true};
ghost use Rattle.std.specs.List.{list_all};
ghost use Rattle.odd_reader.specs.Tagging.{IsUntil, is_byte_but as a_byte_but};

use crate::simple_tags::is_space_byte;

// Whether a byte belongs to a character of XML other than the mark. Two characters that are none of XML begin with 0xEF.
fn is_byte_but(mark: u8, b: u8) -> bool
    ensures { result ≡ a_byte_but mark b }
{
    b != mark && b != 0xEF && (b >= b' ' || is_space_byte(b))
}

// How many such bytes stand first.
fn length_until(mark: u8, bytes: &[u8]) -> usize
    ensures within { result ≤ length bytes.now }
    ensures plain { list_all (a_byte_but mark) (take result bytes.now) ≡ true }
{
    let mut at = 0;
    'until: while at < bytes.len() && is_byte_but(mark, bytes[at]) {
        at += 1;
    }
    at
}

/// The characters of XML that stand first, up to a mark, and what follows.
pub fn until(mark: u8, text: &str) -> Option<(&str, &str)>
    requires { mark < 128 }
    ensures { IfSome result (λ p. IsUntil mark text.now p.0.now p.1.now) }
{
    let Some((front, rest)) = text.split_at_checked(length_until(mark, text.as_bytes())) else {
        return None;
    };
    Some((front, rest))
}

ghost use Rattle.std.specs.Prelude.{◌≡◌, ◌++◌, ◌<◌, ◌≤◌, IfSome, length, take, true};
ghost use Rattle.std.specs.List.{list_all};
ghost use Rattle.odd_reader.specs.Stepping.{IsPlain, is_plain_byte as a_plain_byte};

// Whether a byte belongs to a character that is text by itself. Two characters that are none of XML begin with 0xEF.
fn is_plain_byte(b: u8) -> bool
    ensures { result ≡ a_plain_byte b }
{
    match b {
        b'\t' | b'\n' => true,
        b'&' | b'<' | b']' | 0xEF => false,
        _ => b >= b' ',
    }
}

// How many such bytes stand first.
fn plain_length(bytes: &[u8]) -> usize
    ensures within { result ≤ length bytes.now }
    ensures plain { list_all a_plain_byte (take result bytes.now) ≡ true }
{
    let mut at = 0;
    'plain: while at < bytes.len() && is_plain_byte(bytes[at]) {
        at += 1;
    }
    at
}

/// The characters first in a text that are text by themselves, where there are some, and what follows.
pub fn plain_run(text: &str) -> Option<(&str, &str)>
    ensures parts { IfSome result (λ p. text.now ≡ p.0.now ++ p.1.now) }
    ensures some { IfSome result (λ p. 0 < length p.0.now) }
    ensures plain { IfSome result (λ p. IsPlain p.0.now) }
{
    let length = plain_length(text.as_bytes());
    if length == 0 {
        return None;
    }
    let Some((front, rest)) = text.split_at_checked(length) else {
        return None;
    };
    Some((front, rest))
}

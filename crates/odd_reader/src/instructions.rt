ghost use Rattle.std.specs.Prelude.{◌≡◌, ◌++◌, IfSome, IsTrue, not};
ghost use Rattle.std.specs.Str.{chars};
ghost use Rattle.odd_tokens.specs.Tokens.{is_set_off as a_set_off, is_xml};
ghost use Rattle.odd_reader.specs.Tagging.{IsInstructionFirst, IsPlainName};

use crate::simple_tags::part;
use crate::until::until;
use odd_tokens::is_space;

// A target of ASCII that stands first and is not `xml` in any case of its letters, and what follows.
fn target(text: &str) -> Option<(&str, &str)>
    ensures parts { IfSome result (λ p. text.now ≡ p.0.now ++ p.1.now) }
    ensures name { IfSome result (λ p. IsPlainName p.0.now) }
    ensures other { IfSome result (λ p. IsTrue (not (is_xml p.0.now))) }
{
    let Some((name, rest)) = part(text) else {
        return None;
    };
    if name.eq_ignore_ascii_case("xml") {
        return None;
    }
    Some((name, rest))
}

// Whether what stands after a target is empty or begins with white space.
fn is_set_off(inside: &str) -> bool
    ensures { result ≡ a_set_off (chars inside.now) }
{
    match inside.chars().next() {
        Some(c) => is_space(c),
        None => true,
    }
}

/// What follows a processing instruction that stands first, has a target of ASCII and has no question mark after that.
pub fn after_instruction(text: &str) -> Option<&str>
    ensures { IfSome result (λ rest. IsInstructionFirst text.now rest.now) }
{
    let Some(begun) = text.strip_prefix("<?") else {
        return None;
    };
    let Some((_, named)) = target(begun) else {
        return None;
    };
    let Some((inside, ended)) = until(b'?', named) else {
        return None;
    };
    if !is_set_off(inside) {
        return None;
    }
    match ended.strip_prefix("?>") {
        Some(rest) => Some(rest),
        None => None,
    }
}

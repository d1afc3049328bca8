ghost use Rattle.std.specs.Prelude.{◌≡◌, ◌++◌, IfSome};
ghost use Rattle.odd_reader.specs.Stepping.{end_bytes, prefix_bytes};

use odd_text::Text;
use odd_tokens::WrittenName;

// What follows a text that stands first.
fn after<'a>(text: &'a str, first: &str) -> Option<&'a str>
    ensures { IfSome result (λ rest. text.now ≡ first.now ++ rest.now) }
{
    text.strip_prefix(first)
}

// What follows a prefix and its colon, or nothing where the prefix is empty.
fn after_prefix<'a>(text: &'a str, prefix: &Text) -> Option<&'a str>
    ensures { IfSome result (λ rest. text.now ≡ prefix_bytes prefix.now ++ rest.now) }
{
    if prefix.as_str().is_empty() {
        return Some(text);
    }
    match after(text, prefix.as_str()) {
        Some(rest) => after(rest, ":"),
        None => None,
    }
}

/// What follows an end tag of the name that stands first in a text.
pub fn after_end<'a>(text: &'a str, name: &WrittenName) -> Option<&'a str>
    ensures { IfSome result (λ rest. text.now ≡ end_bytes name.now ++ rest.now) }
{
    let Some(named) = after(text, "</") else {
        return None;
    };
    let Some(local) = after_prefix(named, &name.prefix) else {
        return None;
    };
    let Some(closed) = after(local, name.local.as_str()) else {
        return None;
    };
    after(closed, ">")
}

ghost use Rattle.std.specs.Prelude.{IfSome};
ghost use Rattle.odd_reader.specs.Tagging.{IsCommentFirst};

use crate::until::until;

/// What follows a comment that stands first and has no dash in it.
pub fn after_comment(text: &str) -> Option<&str>
    ensures { IfSome result (λ rest. IsCommentFirst text.now rest.now) }
{
    let Some(begun) = text.strip_prefix("<!--") else {
        return None;
    };
    let Some((_, ended)) = until(b'-', begun) else {
        return None;
    };
    match ended.strip_prefix("-->") {
        Some(rest) => Some(rest),
        None => None,
    }
}

ghost use Rattle.std.specs.Prelude.{◌≡◌};
ghost use Rattle.std.specs.Str.{chars};
ghost use Rattle.std.specs.Str.Parse.{starts_with_minus, without_leading_sign};

/// Whether a minus stands first, and the text after a sign, which may be missing.
pub fn split_sign(text: &str) -> (bool, &str)
    ensures negative { result.0 ≡ starts_with_minus (chars text.now) }
    ensures rest { chars result.1.now ≡ without_leading_sign (chars text.now) }
{
    match text.strip_prefix('-') {
        Some(rest) => (true, rest),
        None => (false, text.strip_prefix('+').unwrap_or(text)),
    }
}

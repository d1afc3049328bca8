ghost use Rattle.std.specs.Prelude.{◌≡◌, map};
ghost use Rattle.odd_text.specs.Same.{is_among as the_is_among};

use crate::text::Text;

/// Whether a text is one of the words.
pub fn is_among(words: &[&str], text: &Text) -> bool
    ensures { result ≡ the_is_among (map (λ w. w.now) words.now) text.now }
{
    words.iter().any(|word| text.as_str() == *word)
}

ghost use Rattle.std.specs.Prelude.{◌↔◌, IsTrue};
ghost use Rattle.std.specs.Str.{chars};
ghost use Rattle.rng_values.specs.Lexical.{Fits};

use crate::forms::has_form;
use crate::white_space::trimmed;
use odd_text::Text;
use rng_types::DataType;

/// Whether a text is of a datatype, once its white space is treated (XML Schema, Part 2, sections 3 and 4.3.6).
pub fn fits(kind: DataType, text: &Text) -> bool
    ensures { IsTrue result ↔ Fits kind (chars text.now) }
{
    has_form(kind, trimmed(text.as_str()))
}

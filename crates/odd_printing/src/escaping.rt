ghost use Rattle.std.specs.Prelude.{◌≡◌, IfOk};
ghost use Rattle.odd_tokens.specs.Characters.{IsLegal};
ghost use Rattle.odd_printing.specs.Escaping.{IsTextOf, IsValueOf};
ghost use Rattle.odd_tree.specs.Markup.{escaped_text, escaped_value};

use crate::printing::{add_escaped_text, add_escaped_value};
use odd_text::{NoMemory, Text};
use std::alloc::Global;

/// The text with a reference in place of each `&`, `<`, `>` and CR (`&amp;`, `&lt;`, `&gt;`, `&#13;`), so that it may
/// stand between tags (XML 1.0, sections 2.4 and 4.6). NoMemory is answered for want of memory.
#[tactic(auto, using(crate::proofs::Escaped::text_read_back))]
pub fn escape_text(alloc: Global, text: &Text) -> Result<Text, NoMemory>
    ensures escaped { IfOk result (λ written. written ≡ escaped_text text.now) }
    ensures read_back { IfOk result (λ written. IsLegal text.now → IsTextOf written text.now) }
{
    let mut out = Text::new(alloc);
    add_escaped_text(&mut out, text.as_str())?;
    Ok(out)
}

/// The text with a reference in place of each `&`, `<`, `>` and CR, as before, and of each `"`, tab and LF (`&quot;`,
/// `&#9;`, `&#10;`), so that it may be an attribute's value in double quotes (XML 1.0, section 3.3.3). NoMemory is
/// answered for want of memory.
#[tactic(auto, using(crate::proofs::Escaped::value_read_back))]
pub fn escape_value(alloc: Global, text: &Text) -> Result<Text, NoMemory>
    ensures escaped { IfOk result (λ written. written ≡ escaped_value text.now) }
    ensures read_back { IfOk result (λ written. IsLegal text.now → IsValueOf written text.now) }
{
    let mut out = Text::new(alloc);
    add_escaped_value(&mut out, text.as_str())?;
    Ok(out)
}

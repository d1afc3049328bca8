ghost use Rattle.std.specs.Prelude.{◌≡◌, IfOk};
ghost use Rattle.std.specs.Str.{chars};
ghost use Rattle.rng_values.specs.Treated.{replaced as the_replaced, treated as the_treated};

use odd_text::{NoMemory, Text, TryCopy};
use odd_tokens::is_space;
use rng_types::DataType;
use rng_values::collapse;
use std::alloc::Global;

/// What a datatype tests of a text (XML Schema, Part 2, section 4.3.6): the text of a string, for a normalizedString with each
/// character of white space as a space, and for any other datatype collapsed. The only error is NoMemory, for want of memory.
pub fn treated(alloc: Global, kind: DataType, text: &Text) -> Result<Text, NoMemory>
    ensures { IfOk result (λ made. chars made ≡ the_treated kind (chars text.now)) }
{
    let read = text.as_str();
    match kind {
        DataType::String => text.copy(alloc),
        DataType::NormalizedString => replaced(alloc, read),
        _ => collapse(alloc, text),
    }
}

// The text with each character of white space as a space.
fn replaced(alloc: Global, text: &str) -> Result<Text, NoMemory>
    ensures { IfOk result (λ made. chars made ≡ the_replaced (chars text.now)) }
{
    let mut made = Text::new(alloc);
    for c in text.chars() {
        made.push(if is_space(c) { ' ' } else { c })?;
    }
    Ok(made)
}

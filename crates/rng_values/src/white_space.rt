ghost use Rattle.std.specs.Prelude.{◌≡◌, IfOk, length};
ghost use Rattle.std.specs.Str.{chars};
ghost use Rattle.rng_values.specs.Treated.{collapsed as the_collapsed, collapsed_text, treated};
ghost use Rattle.rng_values.specs.Trimmed.{IsTrimmed};

use odd_text::{NoMemory, Text};
use odd_tokens::is_space;
use rng_types::DataType;
use std::alloc::Global;

/// The text with each run of white space as one space, and with none at its ends (XML Schema, Part 2, section 4.3.6).
/// The only error is NoMemory, for want of memory.
pub fn collapse(alloc: Global, text: &Text) -> Result<Text, NoMemory>
    ensures { IfOk result (λ made. made ≡ collapsed_text text.now) }
{
    let mut collapsed = String::new(alloc);
    let mut gap = false;
    for c in text.as_str().chars() {
        if is_space(c) {
            gap = !collapsed.is_empty();
        } else {
            if gap {
                collapsed.push(' ')?;
            }
            collapsed.push(c)?;
            gap = false;
        }
    }
    Text::from_string(alloc, collapsed)
}

/// How many characters of a text a datatype tests: all of them for a string and a normalizedString, and those of the
/// collapsed text for every other (XML Schema, Part 2, section 4.3.6).
pub fn treated_length(kind: DataType, text: &Text) -> usize
    ensures { result ≡ length (treated kind (chars text.now)) }
{
    match kind {
        DataType::String | DataType::NormalizedString => text.as_str().chars().count(),
        _ => collapsed_length(text.as_str()),
    }
}

// How many characters `collapse` keeps.
fn collapsed_length(text: &str) -> usize
    ensures { result ≡ length (the_collapsed (chars text.now)) }
{
    let mut length = 0;
    let mut gap = false;
    for c in text.chars() {
        if is_space(c) {
            gap = length > 0;
        } else {
            length += if gap { 2 } else { 1 };
            gap = false;
        }
    }
    length
}

// The text without the white space at its ends.
pub(crate) fn trimmed(text: &str) -> &str
    ensures { IsTrimmed (chars text.now) (chars result.now) }
{
    text.trim_start_matches(|c| is_space(c))
        .trim_end_matches(|c| is_space(c))
}

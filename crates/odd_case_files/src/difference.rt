ghost use Rattle.std.specs.Prelude.{◌≡◌, ◌↔◌, IsNone, IfOk};

use crate::fault::CaseFault;
use odd_text::{Bytes, Text};
use std::alloc::Global;

// How many bytes of an answer are told.
const TOLD: usize = 80;

/// What a text has otherwise than the wanted one, where something is.
pub fn text_difference(
    alloc: Global,
    name: &str,
    wanted: &Bytes,
    text: &Text,
) -> Result<Option<String>, CaseFault>
    ensures { IfOk result (λ told. IsNone told ↔ (wanted.now ≡ text.now)) }
{
    let bytes = text.as_str().as_bytes();
    if wanted.as_slice() == bytes {
        return Ok(None);
    }
    let mut told = String::new(alloc);
    add_place(&mut told, name, wanted.as_slice(), bytes)?;
    Ok(Some(told))
}

/// Puts the first place where two texts differ, and what stands there in each.
pub fn add_place(
    told: &mut String,
    name: &str,
    wanted: &[u8],
    bytes: &[u8],
) -> Result<(), CaseFault> {
    let at = common_front(wanted, bytes);
    write!(told, " {name} at {at} ")?;
    add_quoted(told, bytes, at)?;
    told.push_str(" for ")?;
    add_quoted(told, wanted, at)
}

// How many bytes two texts have in common at their beginning.
fn common_front(one: &[u8], other: &[u8]) -> usize {
    one.iter()
        .zip(other)
        .take_while(|(byte, expected)| byte == expected)
        .count()
}

// Puts some of the bytes from a place on, in apostrophes.
fn add_quoted(told: &mut String, bytes: &[u8], at: usize) -> Result<(), CaseFault> {
    let rest = bytes.get(at..).unwrap_or(&[]);
    let some = rest.get(..TOLD).unwrap_or(rest).escape_ascii();
    write!(told, "'{some}'")?;
    Ok(())
}

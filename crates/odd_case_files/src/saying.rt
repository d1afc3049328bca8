use crate::fault::CaseFault;
use odd_text::{Bytes, NoMemory, Text, Words};
use std::alloc::Global;

/// What a part's text says.
pub fn said_text(text: &[u8]) -> Result<&str, CaseFault> {
    str::from_utf8(text).or(Err(CaseFault::NotText))
}

/// The words that a part's text says, apart at blanks and line breaks.
pub fn said_words(alloc: Global, text: &[u8]) -> Result<Words, CaseFault> {
    let mut words = Words::new(alloc);
    for word in said_text(text)?.split_ascii_whitespace() {
        words.push(Text::from_str(alloc, word)?)?;
    }
    Ok(words)
}

/// The answer that a part's text says, to which its last line break does not belong.
pub fn said_answer(alloc: Global, text: &[u8]) -> Result<Bytes, NoMemory> {
    Bytes::from_slice(alloc, text.strip_suffix(b"\n").unwrap_or(text))
}

/// Sets what a case may say once.
pub fn set_once<T: Drop>(place: &mut Option<T>, value: T) -> Result<(), CaseFault> {
    if place.is_some() {
        return Err(CaseFault::Twice);
    }
    *place = Some(value);
    Ok(())
}

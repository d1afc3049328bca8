use odd_text::{NoMemory, Text, Words};
use std::alloc::Global;

/// All words of up to so many of the symbols, by their length and then in the order of the symbols.
pub fn all_words(alloc: Global, length: u32, symbols: &str) -> Result<Words, NoMemory> {
    let mut words = Words::new(alloc);
    for _ in 0..=length {
        words = longer_words(alloc, &words, symbols)?;
    }
    Ok(words)
}

// The empty word, and each of the words with each of the symbols after it.
fn longer_words(alloc: Global, words: &Words, symbols: &str) -> Result<Words, NoMemory> {
    let mut longer = Words::new(alloc);
    longer.push(Text::from_str(alloc, "-")?)?;
    for word in words.as_slice() {
        let front = word.as_str().trim_start_matches('-');
        for symbol in symbols.split_ascii_whitespace() {
            let word = format!(in alloc; "{front}{symbol}")?;
            longer.push(Text::from_string(alloc, word)?)?;
        }
    }
    Ok(longer)
}

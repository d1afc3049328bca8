ghost use Rattle.std.specs.Prelude.{◌≡◌, [], ◌++◌, IfOk, OnOk};
ghost use Rattle.rng_types.specs.Words.{ended, words_of as the_words_of};

use odd_text::{NoMemory, Text, Words};
use odd_tokens::is_space;
use std::alloc::Global;

/// The words of a value: what stands between white space (XML 1.0, section 2.3). The only error is NoMemory,
/// for want of memory.
pub fn words_of(alloc: Global, value: &str) -> Result<Words, NoMemory>
    ensures { IfOk result (λ words. words ≡ the_words_of value.now) }
{
    let mut words = Words::new(alloc);
    let mut word = Text::new(alloc);
    for c in value.chars() {
        if is_space(c) {
            end_word(&mut words, word)?;
            word = Text::new(alloc);
        } else {
            word.push(c)?;
        }
    }
    end_word(&mut words, word)?;
    Ok(words)
}

// Puts a word that ends, where one has begun.
fn end_word(words: &mut Words, word: Text) -> Result<(), NoMemory>
    ensures { OnOk result (words.new ≡ words.old ++ ended word []) }
{
    if word.as_str().is_empty() {
        return Ok(());
    }
    words.push(word)
}

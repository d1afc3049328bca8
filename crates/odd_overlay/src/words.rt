ghost use Rattle.std.specs.Prelude.{◌≡◌, ℕ, List, IfOk};
ghost use Rattle.std.specs.FinMap.{find};
ghost use Rattle.odd_text.specs.Text.{text_cmp};
ghost use Rattle.odd_text.specs.Sorted.{IsSet};
ghost use Rattle.odd_overlay.specs.Marks.{IsWordAfter, word_entries, words_laid as the_words_laid};
ghost use Rattle.odd_overlay.specs.Tabled.{keys_of};

use crate::edits::laid_edits;
use odd_text::{Map, NoMemory, Text, Words};
use std::alloc::Global;

/// The words with some put in (true) and some taken out (false), in rising order, each once. Where they stand in rising
/// order it takes one step for each of them and each mark. The only error is NoMemory, for want of memory.
pub fn words_laid(alloc: Global, marks: Map<Text, bool>, words: Words) -> Result<Words, NoMemory>
    ensures value { IfOk result (λ made. made ≡ the_words_laid marks words) }
    ensures set { IfOk result (IsSet text_cmp (IsWordAfter marks words)) }
{
    let set = set_of(alloc, words)?;
    let made = laid_edits(alloc, marks, set)?;
    words_of(alloc, made)
}

// The words as the keys of a map.
fn set_of(alloc: Global, words: Words) -> Result<Map<Text, ()>, NoMemory>
    ensures { IfOk result (λ set. (q : List ℕ) → find text_cmp q set ≡ find text_cmp q (word_entries words)) }
{
    let mut set = Map::new(alloc);
    for word in words.into_items() {
        set.put(word, ())?;
    }
    Ok(set)
}

// The keys of a map as words.
fn words_of(alloc: Global, set: Map<Text, ()>) -> Result<Words, NoMemory>
    ensures { IfOk result (λ words. words ≡ keys_of set) }
{
    let mut words = Words::new(alloc);
    for (word, _) in set.into_entries() {
        words.push(word)?;
    }
    Ok(words)
}

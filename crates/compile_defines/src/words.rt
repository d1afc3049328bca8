ghost use Rattle.std.specs.Prelude.{◌≡◌, IfOk, List, ℕ, filter};
ghost use Rattle.std.specs.List.{list_any};
ghost use Rattle.std.specs.List.Sorted.{IsSorted};
ghost use Rattle.odd_text.specs.Text.{text_cmp};
ghost use Rattle.odd_content.specs.Picking.{is_picked};
ghost use Rattle.odd_text.specs.Same.{is_same};
ghost use Rattle.compile_defines.specs.Wanted.{is_wanted};

use odd_content::Pick;
use odd_text::{NoMemory, Text, TryCopy, Words};
use std::alloc::Global;

/// Those of some idents that are picked, in their order. The only error is NoMemory, for want of memory.
pub fn picked(alloc: Global, idents: &Words, pick: &Pick) -> Result<Words, NoMemory>
    ensures { IfOk result (λ left. left ≡ filter (is_picked pick.now) idents.now) }
{
    match pick {
        Pick::All => idents.copy(alloc),
        Pick::Include(words) => those_among(alloc, idents, words, true),
        Pick::Except(words) => those_among(alloc, idents, words, false),
    }
}

/// Those of some words that are among others, or those that are not, in their order. The only error is NoMemory, for want of
/// memory.
pub fn those_among(
    alloc: Global,
    words: &Words,
    others: &Words,
    wanted: bool,
) -> Result<Words, NoMemory>
    ensures { IfOk result (λ left. left ≡ filter (λ word. is_wanted wanted (list_any (is_same word) others.now)) words.now) }
{
    let sorted = sorted_words(alloc, others)?;
    let mut left = Words::new(alloc);
    for word in words.as_slice() {
        if is_among(&sorted, word) == wanted {
            left.push(word.copy(alloc)?)?;
        }
    }
    Ok(left)
}

// The words in their order.
fn sorted_words(alloc: Global, words: &Words) -> Result<Vec<Text>, NoMemory>
    ensures rising { IfOk result (λ sorted. IsSorted text_cmp sorted.items) }
    ensures same { IfOk result (λ sorted. (word : List ℕ) → list_any (is_same word) sorted.items ≡ list_any (is_same word) words.now) }
{
    let mut sorted = words.copy(alloc)?.into_items();
    sorted.sort_unstable();
    Ok(sorted)
}

// Whether a word is one of some sorted words.
fn is_among(sorted: &[Text], word: &Text) -> bool
    requires { IsSorted text_cmp sorted.now }
    ensures { result ≡ list_any (is_same word.now) sorted.now }
{
    sorted.binary_search(word).is_ok()
}

ghost use Rattle.std.specs.Prelude.{◌≡◌, ◌&&◌, ◌||◌, not, ℕ, List, IfOk, if◌then◌else◌};
ghost use Rattle.odd_text.specs.Same.{is_among};
ghost use Rattle.odd_content.specs.Picking.{is_picked};
ghost use Rattle.odd_modes.specs.Index.{has_text, names};

use odd_content::Pick;
use odd_text::{NoMemory, Words};
use std::alloc::Global;
use std::collections::BTreeSet;

/// Which elements of one module the references to it name, by their idents.
#[derive(Drop)]
pub enum Named<'a> {
    /// Those of the set alone.
    Only(BTreeSet<&'a str>),
    /// All but those of the set.
    AllBut(BTreeSet<&'a str>),
}

impl<'a> Named<'a> {
    /// Whether an element is named.
    pub fn names(&self, ident: &str) -> bool
        ensures { result ≡ names self.now ident.now }
    {
        match self {
            Named::Only(idents) => idents.contains(ident),
            Named::AllBut(idents) => !idents.contains(ident),
        }
    }

    /// Those that are named, and those that one more reference names.
    pub fn and(self, alloc: Global, pick: &'a Pick) -> Result<Named<'a>, NoMemory>
        ensures { IfOk result (λ made. (ident : List ℕ) → names made ident ≡ (names self.entry ident || is_picked pick.entry.now ident)) }
    {
        match (self, pick) {
            (_, Pick::All) => Ok(Named::AllBut(BTreeSet::new(alloc))),
            (Named::Only(idents), Pick::Include(words)) => Ok(Named::Only(with(idents, words)?)),
            (Named::Only(idents), Pick::Except(words)) => {
                let others = words_where(alloc, words, &idents, false)?;
                Ok(Named::AllBut(others))
            }
            (Named::AllBut(idents), Pick::Include(words)) => {
                Ok(Named::AllBut(without(idents, words)))
            }
            (Named::AllBut(idents), Pick::Except(words)) => {
                let both = words_where(alloc, words, &idents, true)?;
                Ok(Named::AllBut(both))
            }
        }
    }
}

// The idents, and the words.
fn with<'a>(mut idents: BTreeSet<&'a str>, words: &'a Words) -> Result<BTreeSet<&'a str>, NoMemory>
    ensures { IfOk result (λ made. (ident : List ℕ) → has_text made ident ≡ (has_text idents.entry ident || is_among words.entry.now ident)) }
{
    for word in words.as_slice() {
        idents.insert(word.as_str())?;
    }
    Ok(idents)
}

// The idents but the words.
fn without<'a>(mut idents: BTreeSet<&'a str>, words: &Words) -> BTreeSet<&'a str>
    ensures { (ident : List ℕ) → has_text result ident ≡ (has_text idents.entry ident && not (is_among words.now ident)) }
{
    for word in words.as_slice() {
        idents.remove(word.as_str());
    }
    idents
}

// Those of the words that are idents, or else those that are none.
fn words_where<'a>(
    alloc: Global,
    words: &'a Words,
    idents: &BTreeSet<&'a str>,
    are_idents: bool,
) -> Result<BTreeSet<&'a str>, NoMemory>
    ensures { IfOk result (λ made. (ident : List ℕ) → has_text made ident ≡ (is_among words.entry.now ident && (if are_idents then has_text idents.now ident else not (has_text idents.now ident)))) }
{
    let mut chosen = BTreeSet::new(alloc);
    for word in words.as_slice() {
        if idents.contains(word.as_str()) == are_idents {
            chosen.insert(word.as_str())?;
        }
    }
    Ok(chosen)
}

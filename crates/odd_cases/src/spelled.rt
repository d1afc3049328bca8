use crate::letters::Letters;
use odd_case_files::CaseFault;
use odd_patterns::{Alphabet, ChildLeaf, ChildSymbol, Children, Marks};
use rng_allows::Items;
use std::alloc::Global;
use std::char;

/// An alphabet whose leaves are written as characters.
pub trait Leaves: Alphabet {
    /// The leaf that a character stands for.
    fn leaf_of(&self, character: char) -> Option<Self::Leaf>;
}

/// An alphabet whose words too are written in characters.
pub trait Spelled: Leaves + Alphabet<Symbol: Drop> {
    /// The character that stands for a leaf.
    fn character_of(&self, leaf: Self::Leaf) -> char;

    /// The word of a text.
    fn word_of(&self, alloc: Global, text: &str) -> Result<Vec<Self::Symbol>, CaseFault>;
}

impl Leaves for Letters {
    fn leaf_of(&self, character: char) -> Option<char> {
        Some(character)
    }
}

impl Spelled for Letters {
    fn character_of(&self, leaf: char) -> char {
        leaf
    }

    fn word_of(&self, alloc: Global, text: &str) -> Result<Vec<char>, CaseFault> {
        Ok(text.chars().collect(alloc)?)
    }
}

/// A leaf is `t` for text, or the digit of a label.
impl Leaves for Children {
    fn leaf_of(&self, character: char) -> Option<ChildLeaf> {
        if character == 't' {
            return Some(ChildLeaf::Text);
        }
        Some(ChildLeaf::Label(character.to_digit(10)?))
    }
}

/// In a word `t` is a text and `e` an element, with its marks after it.
impl Spelled for Children {
    fn character_of(&self, leaf: ChildLeaf) -> char {
        match leaf {
            ChildLeaf::Text => 't',
            ChildLeaf::Label(number) => char::from_digit(number, 10).unwrap_or('#'),
        }
    }

    fn word_of(&self, alloc: Global, text: &str) -> Result<Vec<ChildSymbol>, CaseFault> {
        let mut word = Vec::new(alloc);
        for character in text.chars() {
            match (character, word.last_mut()) {
                ('t', _) => word.push(ChildSymbol::Text)?,
                ('e', _) => word.push(ChildSymbol::Element(Marks::new(alloc)))?,
                ('0', Some(ChildSymbol::Element(marks))) => marks.push(false)?,
                ('1', Some(ChildSymbol::Element(marks))) => marks.push(true)?,
                _ => return Err(CaseFault::NoWord),
            }
        }
        Ok(word)
    }
}

/// A leaf is the digit of its number.
impl Leaves for Items {
    fn leaf_of(&self, character: char) -> Option<u32> {
        character.to_digit(10)
    }
}

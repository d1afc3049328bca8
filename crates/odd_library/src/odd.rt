use crate::spec::Spec;
use odd_content::Pick;
use odd_text::{Key, Seq, Text, Words};

/// An item of an ODD file. `at` is the byte where its start tag begins.
#[derive(Drop)]
pub enum Entry {
    /// A reference to the components of a module.
    Module { at: u64, key: Text, pick: Pick },
    /// A reference to one component.
    Take { at: u64, key: Key },
    /// A declaration.
    Spec { at: u64, spec: Spec },
}

/// The items of an ODD file by place.
pub type Entries = Seq<Entry>;

/// What one ODD file declares. The start words are sorted, each once.
#[derive(Drop)]
pub struct OddDoc {
    pub ident: Text,
    pub start: Words,
    pub entries: Entries,
    /// How many constraints were taken out.
    pub asides: u64,
}

use crate::items::Items;
use odd_patterns::Pat;
use odd_text::{Seq, Text};
use rng_types::{DataType, Facets};
use sqlite_items::Boxed;

/// A pattern of values.
#[derive(Drop)]
pub enum ValuePattern {
    /// No value.
    Never,
    /// Any value.
    Any,
    /// A value of one of the two.
    Choice(Boxed<ValuePattern>, Boxed<ValuePattern>),
    /// A value of a datatype with facets.
    Typed {
        kind: DataType,
        facets: Facets,
    },
    /// A value that equals the text, but for white space.
    Same(Text),
    /// A value whose words are what the pattern matches, where a leaf takes a word that the pattern of values of its number allows.
    List {
        leaves: ValuePatterns,
        pat: Pat<Items>,
    },
}

/// A list of patterns of values.
pub type ValuePatterns = Seq<ValuePattern>;

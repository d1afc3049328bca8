//! The values of attributes and of data: XML Schema's datatypes with their facets, lists of values, and how often something
//! may stand.
#![tactic(auto)]

mod facets;
mod fitting;
mod forms;
mod making;
mod meeting;
mod names;
mod ordering;
mod refusal;
mod signs;
mod white_space;

pub use fitting::fits;
pub use making::{item_fault, item_of, make_item};
pub use meeting::meets;
pub use refusal::ItemRefusal;
pub use rng_dialect::{
    Atom, Member, Members, PatternRefusal, Piece, Regex, RegexBranches, RegexPieces, read_pattern,
};
pub use rng_types::{
    Bounds, DataType, Facet, FacetName, FacetText, FacetTexts, Facets, Item, ListKind, ValList,
    words_of,
};
pub use white_space::collapse;

//! Each public name that users are promised, under the crate where they find it. What neither the program `odd` nor a case of `odd_cases`
//! calls is called here by tests, with ample memory.
#![tactic(auto)]

#[cfg(test)]
mod tests;

/// What users find in `odd_base`.
pub mod base {
    pub use odd_base::{
        Bind, Bytes, Calls, File, Files, Key, Keys, Kind, Map, MemShelf, MemSink, Name, Names,
        NoMemory, Offence, Ranked, Scope, Seq, Shelf, ShelfFault, Sink, SinkFault, SlurpRefusal,
        Steps, Table, Text, TryCopy, Who, Words, slurp,
    };
}

/// What users find in `odd_reader`.
pub mod reader {
    pub use odd_reader::{
        Attr, Attrs, Node, Nodes, ReadRefusal, Tree, escape_text, escape_value, read_tree,
    };
}

/// What users find in `rng_values`.
pub mod values {
    pub use rng_values::{
        Atom, Bounds, DataType, Facet, FacetName, FacetText, FacetTexts, Facets, Item, ItemRefusal,
        ListKind, Member, Members, PatternRefusal, Piece, Regex, RegexBranches, RegexPieces,
        ValList, collapse, fits, make_item, read_pattern,
    };
}

/// What users find in `rng_patterns`.
pub mod patterns {
    pub use rng_patterns::{
        Alphabet, AttrPart, AttrRule, Body, Chars, ChildLeaf, ChildSymbol, Children, Define,
        Defines, Expr, Exprs, Grammar, Items, Marks, NameClass, NsPart, NsParts, Pat, Pool, Rules,
        ValuePattern, allows, choice, derive, group, more, nullable,
    };
}

/// What users find in `odd_content`.
pub mod content {
    pub use odd_content::{Condition, Content, ContentRefusal, Contents, Pick, read_content};
}

/// What users find in `odd_attributes`.
pub mod attributes {
    pub use odd_attributes::{
        AttDef, AttEdit, AttEdits, AttFields, AttRefusal, Datatype, Overlay, ValEdit, ValueMarks,
        read_attlist,
    };
}

/// What users find in `odd_decls`.
pub mod decls {
    pub use odd_decls::{
        ClassMarks, ClassPart, Component, ElementPart, Entries, Entry, Library, Membership, Mode,
        OddDoc, OddRefusal, OtherPart, Parts, Spec, read_odd,
    };
}

/// What users find in `odd_modes`.
pub mod modes {
    pub use odd_modes::{Act, edit, select, step, step_into, sweep};
}

/// What users find in `odd_classes`.
pub mod classes {
    pub use odd_classes::{
        Checked, CycleRefusal, LibraryRefusal, MemberTable, Offer, OfferRefusal, Offers,
        TableRefusal, check, check_cycles, member_table, members, offered,
    };
}

/// What users find in `odd_chain`.
pub mod chain {
    pub use odd_chain::{Chain, Merged, OddDocs, merge, print_odd};
}

/// What users find in `rng_emit`.
pub mod emit {
    pub use rng_emit::print_rng;
}

/// What users find in `compile_core`.
pub mod compiling {
    pub use compile_core::{CompileRefusal, compile, compile_checked, explain, explain_checked};
}

/// What users find in `odd_cli`.
pub mod cli {
    pub use odd_cli::{Command, Job, LimitKind, Status, read_words, run};
}

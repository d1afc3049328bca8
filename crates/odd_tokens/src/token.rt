use odd_text::{Seq, Text};

/// A name as it is written: its prefix, which is empty where there is none, and its local part.
#[derive(Debug, Drop, PartialEq, Eq, PartialOrd, Ord)]
pub struct WrittenName {
    pub prefix: Text,
    pub local: Text,
}

/// An attribute or a namespace declaration, with its value after references and white space were treated.
#[derive(Debug, Drop)]
pub struct WrittenAttr {
    pub name: WrittenName,
    pub value: Text,
}

/// A list of them in the order of the tag.
pub type WrittenAttrs = Seq<WrittenAttr>;

/// The inside of a start tag or an empty tag that begins at a byte.
#[derive(Debug, Drop)]
pub struct WrittenTag {
    pub at: u64,
    pub name: WrittenName,
    pub attrs: WrittenAttrs,
}

/// What a token gives to the tree.
#[derive(Debug, Drop)]
pub enum Token {
    /// A comment or a processing instruction.
    Passed,
    /// A character that stands as itself.
    Character(char),
    /// The character of a reference.
    Referred(char),
    /// The text of a CDATA section, with its line ends treated.
    Cdata(Text),
    Start(WrittenTag),
    Empty(WrittenTag),
    End(WrittenName),
}

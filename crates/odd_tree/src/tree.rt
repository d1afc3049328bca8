use odd_text::{Name, Scope, Seq, Text};

/// An attribute: its name, and its value after references and white space were treated.
#[derive(Debug, Drop)]
pub struct Attr {
    pub name: Name,
    pub value: Text,
}

/// The attributes of an element in the order of its tag. Namespace declarations are not among them.
pub type Attrs = Seq<Attr>;

/// An element. `binds` are the namespace declarations on its tag, and `at` is the byte where that tag begins.
#[cycle(tree)]
#[derive(Drop)]
pub struct Tree {
    pub name: Name,
    pub attrs: Attrs,
    pub binds: Scope,
    pub children: Nodes,
    pub at: u64,
}

/// A child of an element. No two texts stand side by side, and no text is empty.
#[cycle(tree)]
#[derive(Drop)]
pub enum Node {
    Element(Tree),
    Text(Text),
}

/// The children of an element.
pub type Nodes = Seq<Node>;

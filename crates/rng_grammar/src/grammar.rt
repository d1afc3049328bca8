ghost use Rattle.std.specs.Prelude.{◌≡◌, IfOk};

use odd_text::{Name, Names, NoMemory, Seq, Text, TryCopy, Words};
use rng_types::{DataType, Facets};
use sqlite_items::Boxed;
use std::alloc::Global;

/// A pattern of RELAX NG.
#[derive(Drop)]
pub enum Expr {
    Empty,
    NotAllowed,
    Text,
    /// A value of a datatype with facets.
    Typed { kind: DataType, facets: Facets },
    /// A value that equals the text.
    Same(Text),
    /// A value whose pieces between white space are what the pattern takes.
    List(Boxed<Expr>),
    /// A reference to the define of a name.
    Ref(Text),
    Group(Exprs),
    Choice(Exprs),
    Optional(Boxed<Expr>),
    ZeroOrMore(Boxed<Expr>),
    OneOrMore(Boxed<Expr>),
}

/// A list of patterns.
pub type Exprs = Seq<Expr>;

/// The names in a namespace but for some.
#[derive(Drop)]
pub struct NsPart {
    pub ns: Text,
    pub but: Names,
}

/// A list of namespaces.
pub type NsParts = Seq<NsPart>;

/// The names of an element.
#[derive(Drop)]
pub enum NameClass {
    One(Name),
    /// All names but those of some namespaces, and some others.
    AnyBut { spaces: Words, names: Names },
    /// The names in some namespaces, but for some of each.
    Within { parts: NsParts },
}

/// An attribute of an element, whether it is needed, and the pattern of its value.
#[derive(Drop)]
pub struct AttrRule {
    pub name: Name,
    pub needed: bool,
    pub value: Expr,
}

/// A list of attributes.
pub type Rules = Seq<AttrRule>;

/// The attributes of an element.
#[derive(Drop)]
pub enum AttrPart {
    /// Any attributes with any values.
    AnyAttributes,
    Listed(Rules),
}

/// What a define stands for.
#[derive(Drop)]
pub enum Body {
    Element {
        names: NameClass,
        attrs: AttrPart,
        content: Expr,
    },
    /// A pattern that is no element.
    Part(Expr),
}

/// A define of a grammar.
#[derive(Drop)]
pub struct Define {
    pub name: Text,
    pub body: Body,
}

/// A list of defines.
pub type Defines = Seq<Define>;

/// A grammar of RELAX NG. The defines stand in order of name, each once.
#[derive(Drop)]
pub struct Grammar {
    pub start: Expr,
    pub defines: Defines,
}

impl TryCopy for Expr {
    fn copy(&self, alloc: Global) -> Result<Expr, NoMemory> {
        copied(self, alloc)
    }
}

#[cycle(copied)]
fn copied(pattern: &Expr, alloc: Global) -> Result<Expr, NoMemory>
    ensures { IfOk result (λ made. made ≡ pattern.now) }
{
    match pattern {
        Expr::Empty => Ok(Expr::Empty),
        Expr::NotAllowed => Ok(Expr::NotAllowed),
        Expr::Text => Ok(Expr::Text),
        Expr::Typed { kind, facets } => Ok(Expr::Typed {
            kind: *kind,
            facets: facets.copy(alloc)?,
        }),
        Expr::Same(text) => Ok(Expr::Same(text.copy(alloc)?)),
        Expr::List(part) => Ok(Expr::List(copied_part(part, alloc)?)),
        Expr::Ref(name) => Ok(Expr::Ref(name.copy(alloc)?)),
        Expr::Group(parts) => Ok(Expr::Group(copied_parts(parts, alloc)?)),
        Expr::Choice(parts) => Ok(Expr::Choice(copied_parts(parts, alloc)?)),
        Expr::Optional(part) => Ok(Expr::Optional(copied_part(part, alloc)?)),
        Expr::ZeroOrMore(part) => Ok(Expr::ZeroOrMore(copied_part(part, alloc)?)),
        Expr::OneOrMore(part) => Ok(Expr::OneOrMore(copied_part(part, alloc)?)),
    }
}

#[cycle(copied)]
fn copied_part(part: &Boxed<Expr>, alloc: Global) -> Result<Boxed<Expr>, NoMemory>
    ensures { IfOk result (λ made. made ≡ part.now) }
{
    Ok(Boxed::new(alloc, copied(part.get(), alloc)?)?)
}

#[cycle(copied)]
fn copied_parts(parts: &Exprs, alloc: Global) -> Result<Exprs, NoMemory>
    ensures { IfOk result (λ made. made ≡ parts.now) }
{
    let mut made = Exprs::new(alloc);
    for part in parts.as_slice() {
        made.push(copied(part, alloc)?)?;
    }
    Ok(made)
}

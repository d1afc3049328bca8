ghost use Rattle.std.specs.Prelude.{◌≡◌, ◌↔◌, IsTrue};

use odd_attributes::{AttDef, Datatype};
use odd_text::{Text, Words};
use rng_types::{Facets, Item, ValList};

/// Whether two definitions of an attribute are the same: as they are read, so that an empty namespace differs from none.
pub fn same_def(one: &AttDef, other: &AttDef) -> bool
    ensures { IsTrue result ↔ (one.now ≡ other.now) }
{
    same_option(&one.alt, &other.alt)
        && same_option(&one.ns, &other.ns)
        && one.needed == other.needed
        && same_option(&one.datatype, &other.datatype)
        && same_option(&one.vals, &other.vals)
}

/// A type with a test of whether two values of it are equal.
pub trait Told {
    /// Whether two values are equal.
    fn is_same(&self, other: &Self) -> bool
        ensures { IsTrue result ↔ (self.now ≡ other.now) };
}

impl Told for Text {
    fn is_same(&self, other: &Text) -> bool {
        self == other
    }
}

impl Told for Datatype {
    fn is_same(&self, other: &Datatype) -> bool {
        same_item(&self.item, &other.item) && self.bounds == other.bounds
    }
}

impl Told for ValList {
    fn is_same(&self, other: &ValList) -> bool {
        self.kind == other.kind && same_words(&self.values, &other.values)
    }
}

/// Whether two values are equal, or there is neither.
pub fn same_option<T: Told>(one: &Option<T>, other: &Option<T>) -> bool
    ensures { IsTrue result ↔ (one.now ≡ other.now) }
{
    match (one, other) {
        (None, None) => true,
        (Some(one), Some(other)) => one.is_same(other),
        _ => false,
    }
}

// Whether two tests of a value are equal.
fn same_item(one: &Item, other: &Item) -> bool
    ensures { IsTrue result ↔ (one.now ≡ other.now) }
{
    match (one, other) {
        (Item::Key(one), Item::Key(other)) => one == other,
        (
            Item::Typed { kind, facets },
            Item::Typed {
                kind: other_kind,
                facets: other_facets,
            },
        ) => kind == other_kind && same_facets(facets, other_facets),
        _ => false,
    }
}

// Whether two lists of facets are equal.
fn same_facets(one: &Facets, other: &Facets) -> bool
    ensures { IsTrue result ↔ (one.now ≡ other.now) }
{
    one == other
}

// Whether two lists of texts are equal.
fn same_words(one: &Words, other: &Words) -> bool
    ensures { IsTrue result ↔ (one.now ≡ other.now) }
{
    one == other
}

ghost use Rattle.std.specs.Prelude.{◌≡◌, refl};
ghost use Rattle.odd_patterns.specs.Children.{admits_child, label_exact, unequal};

use crate::alphabet::Alphabet;
use odd_text::Seq;

/// For each label, by its number from 0, whether it is on.
pub type Marks = Seq<bool>;

/// What a pattern asks of one child.
#[derive(Clone, Copy, Debug, PartialEq, Eq, Hash)]
pub enum ChildLeaf {
    /// The child is text.
    Text,
    /// The child is an element that has the label of this number, counted from 0.
    Label(u32),
}

/// A child, as far as patterns see it.
#[derive(Debug, Drop)]
pub enum ChildSymbol {
    Text,
    /// An element, with the labels that it has.
    Element(Marks),
}

/// The alphabet of a list of children.
#[derive(Clone, Copy, Debug)]
pub struct Children;

impl Alphabet for Children {
    ghost use Rattle.odd_patterns.specs.declared.children.ChildLeaf.TheVariants.{Text, Label};

    type Leaf = ChildLeaf;

    type Symbol = ChildSymbol;

    ghost admits = { λ alphabet leaf symbol. admits_child leaf symbol };

    fn takes(&self, leaf: ChildLeaf, symbol: &ChildSymbol) -> bool {
        match leaf {
            ChildLeaf::Text => match symbol {
                ChildSymbol::Text => true,
                ChildSymbol::Element(_) => false,
            },
            ChildLeaf::Label(number) => match symbol {
                ChildSymbol::Text => false,
                ChildSymbol::Element(marks) => is_marked(marks, number),
            },
        }
    }

    ghost exact = { elim [ Text ↦ elim [ Text ↦ λ e. refl | Label n ↦ λ e. unequal e ] | Label m ↦ elim [ Text ↦ λ e. unequal e | Label n ↦ λ e. label_exact m n e ] ] };
}

// Whether the label of the number is on.
fn is_marked(marks: &Marks, number: u32) -> bool
    ensures { result ≡ admits_child (ChildLeaf.Label number) (ChildSymbol.Element marks.now) }
{
    match marks.get(number as usize) {
        Some(marked) => *marked,
        None => false,
    }
}

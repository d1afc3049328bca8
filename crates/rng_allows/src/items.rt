ghost use Rattle.std.proofs.lemmas.Bool.{eqb-true};
ghost use Rattle.odd_patterns.specs.Children.{is_marked};

use odd_patterns::{Alphabet, Marks};

/// The alphabet of the words of a value. A leaf is the number of a pattern of values, from 0, and takes a word that has a mark of
/// that number, which is on: none where the marks are fewer.
#[derive(Clone, Copy, Debug)]
pub struct Items;

impl Alphabet for Items {
    type Leaf = u32;

    type Symbol = Marks;

    ghost admits = { λ alphabet leaf symbol. is_marked symbol leaf };

    fn takes(&self, leaf: u32, symbol: &Marks) -> bool {
        match symbol.get(leaf as usize) {
            Some(marked) => *marked,
            None => false,
        }
    }

    ghost exact = { eqb-true };
}

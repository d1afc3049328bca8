ghost use Rattle.std.specs.Prelude.{◌==◌};
ghost use Rattle.std.proofs.lemmas.Bool.{eqb-true};

use odd_patterns::Alphabet;

/// The alphabet of the characters, where a leaf takes its own alone.
#[derive(Clone, Copy)]
pub struct Letters;

impl Alphabet for Letters {
    type Leaf = char;

    type Symbol = char;

    ghost admits = { λ alphabet leaf symbol. leaf == symbol };

    fn takes(&self, leaf: char, symbol: &char) -> bool {
        leaf == *symbol
    }

    ghost exact = { eqb-true };
}

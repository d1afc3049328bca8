ghost use Rattle.std.specs.Prelude.{◌≡◌, Bool, true};

use std::hash::Hash;

/// Which leaves take which symbols.
pub trait Alphabet: Drop {
    /// What a pattern asks of one symbol.
    type Leaf: Copy + Eq + Hash;

    /// What a word is made of.
    type Symbol;

    /// Whether a leaf takes a symbol.
    ghost admits: { Self → Self.Leaf → Self.Symbol → Bool };

    /// Whether the leaf takes the symbol.
    fn takes(&self, leaf: Self::Leaf, symbol: &Self::Symbol) -> bool
        ensures { result ≡ admits self.now leaf symbol.now };

    /// Equal leaves are one leaf.
    ghost exact: { (a b : Self.Leaf) → Self.Leaf.eq a b ≡ true → a ≡ b };
}

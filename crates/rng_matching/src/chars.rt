ghost use Rattle.std.specs.Prelude.{◌≡◌};
ghost use Rattle.std.proofs.lemmas.Bool.{eqb-true};
ghost use Rattle.rng_matching.specs.Chars.{admits as char_admits, takes_char as the_takes_char};

use crate::members::is_of_class;
use odd_patterns::Alphabet;
use odd_text::Seq;
use rng_dialect::Atom;

/// A list of atoms.
pub type Atoms = Seq<Atom>;

/// The alphabet of the characters. A leaf is the number of an atom, from 0, and takes the characters that the atom takes: none
/// where there is no such atom, and none of one in parentheses.
#[derive(Drop)]
pub struct Chars {
    pub classes: Atoms,
}

impl Alphabet for Chars {
    type Leaf = u32;

    type Symbol = char;

    ghost admits = { λ alphabet leaf symbol. char_admits alphabet.classes leaf symbol };

    fn takes(&self, leaf: u32, symbol: &char) -> bool {
        match self.classes.get(leaf as usize) {
            Some(atom) => takes_char(atom, *symbol),
            None => false,
        }
    }

    ghost exact = { eqb-true };
}

// Whether an atom takes a character. One in parentheses takes none by itself.
fn takes_char(atom: &Atom, c: char) -> bool
    ensures { result ≡ the_takes_char atom.now c }
{
    match atom {
        Atom::Char(own) => c == *own,
        Atom::Any => c != '\n' && c != '\r',
        Atom::Class { negated, members } => is_of_class(*negated, members, c),
        Atom::Nested(_) => false,
    }
}

ghost use Rattle.std.specs.Prelude.{◌≡◌, ◌↔◌, IsTrue};
ghost use Rattle.odd_text.specs.Key.{key_cmp, kind_rank};

use crate::copy::TryCopy;
use crate::memory::NoMemory;
use crate::order::ExactOrd;
use crate::seq::Seq;
use crate::text::Text;
use std::alloc::Global;
use std::cmp::Ordering;

/// What a component of a library is.
#[derive(Clone, Copy, Debug, PartialEq, Eq, PartialOrd, Ord)]
pub enum Kind {
    Element,
    Class,
    Macro,
    Datatype,
}

/// The key of a component: its kind and its ident. The order is by kind, and then by ident in the order of bytes.
#[derive(Debug, Drop)]
pub struct Key {
    pub kind: Kind,
    pub ident: Text,
}

/// A list of keys.
pub type Keys = Seq<Key>;

impl Kind {
    /// The place of the kind in the order of keys, counted from 0: elements, classes, macros, datatypes.
    pub fn rank(self) -> u8
        ensures { result ≡ kind_rank self }
    {
        match self {
            Kind::Element => 0,
            Kind::Class => 1,
            Kind::Macro => 2,
            Kind::Datatype => 3,
        }
    }
}

impl Key {
    /// How the key compares with the key of this kind and ident, in the order of keys.
    pub fn compared(&self, kind: Kind, ident: &Text) -> Ordering
        ensures { result ≡ key_cmp self.now (record { kind = kind; ident = ident.now }) }
    {
        let kinds = self.kind.rank().cmp(&kind.rank());
        kinds.then(self.ident.cmp(ident))
    }
}

impl PartialEq for Key {
    ghost use Rattle.odd_text.specs.Key.{key_cmp};
    ghost use Rattle.odd_text.specs.KeyOrder.{key_total};
    ghost use Rattle.std.specs.Ordering.{eq_by_cmp};
    ghost use Rattle.std.specs.Cmp.{eq_by_cmp_equiv, partial_equiv_from_equiv};

    ghost eq = { eq_by_cmp key_cmp };

    ghost laws = { partial_equiv_from_equiv (eq_by_cmp_equiv key_total) };

    fn eq(&self, other: &Key) -> bool
        ensures value { result ≡ eq_by_cmp key_cmp self.now other.now }
        ensures same { IsTrue result ↔ (self.now ≡ other.now) }
    {
        self.cmp(other).is_eq()
    }
}

impl Eq for Key {
    ghost use Rattle.odd_text.specs.KeyOrder.{key_total};
    ghost use Rattle.std.specs.Cmp.{eq_by_cmp_equiv};

    ghost laws = { eq_by_cmp_equiv key_total };
}

impl Ord for Key {
    ghost use Rattle.odd_text.specs.Key.{key_cmp};
    ghost use Rattle.odd_text.specs.KeyOrder.{key_total};
    ghost use Rattle.std.specs.Prelude.{refl};

    ghost cmp = { key_cmp };

    ghost total = { key_total };

    ghost matches_partial_cmp = { λ x y. refl };

    ghost matches_eq = { λ x y. refl };

    fn cmp(&self, other: &Key) -> Ordering {
        self.compared(other.kind, &other.ident)
    }
}

impl PartialOrd for Key {
    ghost use Rattle.odd_text.specs.Key.{key_cmp};
    ghost use Rattle.odd_text.specs.KeyOrder.{key_total};
    ghost use Rattle.std.specs.Ordering.{as_partial_cmp};
    ghost use Rattle.std.specs.Prelude.{refl};
    ghost use Rattle.std.specs.Cmp.{partial_order_from_agreeing_total};

    ghost partial_cmp = { as_partial_cmp key_cmp };

    ghost laws = { partial_order_from_agreeing_total key_cmp key_total (λ x y. refl) (λ x y. refl) };

    fn partial_cmp(&self, other: &Key) -> Option<Ordering> {
        Some(self.cmp(other))
    }
}

impl ExactOrd for Key {
    ghost use Rattle.odd_text.specs.KeyOrder.{key_exact};

    ghost exact = { key_exact };
}

impl TryCopy for Key {
    fn copy(&self, alloc: Global) -> Result<Key, NoMemory> {
        let ident = self.ident.copy(alloc)?;
        Ok(Key {
            kind: self.kind,
            ident,
        })
    }
}

use crate::Kind;
use std::cmp::Ordering;

/// A value by the key of a component, whose ident is borrowed. It is compared by its key alone: by kind, and then by ident in
/// the order of bytes. A stable sort leaves those of one key as they stood.
#[derive(Debug, Drop)]
pub struct Keyed<'a, V> {
    pub kind: Kind,
    pub ident: &'a str,
    pub value: V,
}

impl<'a, V> PartialEq for Keyed<'a, V> {
    ghost use Rattle.odd_text.specs.Keyed.{keyed_cmp, keyed_total};
    ghost use Rattle.std.specs.Ordering.{eq_by_cmp};
    ghost use Rattle.std.specs.Cmp.{eq_by_cmp_equiv, partial_equiv_from_equiv};

    ghost eq = { eq_by_cmp keyed_cmp };

    ghost laws = { partial_equiv_from_equiv (eq_by_cmp_equiv keyed_total) };

    fn eq(&self, other: &Keyed<'a, V>) -> bool {
        self.cmp(other).is_eq()
    }
}

impl<'a, V> Eq for Keyed<'a, V> {
    ghost use Rattle.odd_text.specs.Keyed.{keyed_total};
    ghost use Rattle.std.specs.Cmp.{eq_by_cmp_equiv};

    ghost laws = { eq_by_cmp_equiv keyed_total };
}

impl<'a, V> Ord for Keyed<'a, V> {
    ghost use Rattle.odd_text.specs.Keyed.{keyed_cmp, keyed_total};
    ghost use Rattle.std.specs.Prelude.{refl};

    ghost cmp = { keyed_cmp };

    ghost total = { keyed_total };

    ghost matches_partial_cmp = { λ x y. refl };

    ghost matches_eq = { λ x y. refl };

    fn cmp(&self, other: &Keyed<'a, V>) -> Ordering {
        let kinds = self.kind.rank().cmp(&other.kind.rank());
        kinds.then(self.ident.cmp(other.ident))
    }
}

impl<'a, V> PartialOrd for Keyed<'a, V> {
    ghost use Rattle.odd_text.specs.Keyed.{keyed_cmp, keyed_total};
    ghost use Rattle.std.specs.Ordering.{as_partial_cmp};
    ghost use Rattle.std.specs.Prelude.{refl};
    ghost use Rattle.std.specs.Cmp.{partial_order_from_agreeing_total};

    ghost partial_cmp = { as_partial_cmp keyed_cmp };

    ghost laws = { partial_order_from_agreeing_total keyed_cmp keyed_total (λ x y. refl) (λ x y. refl) };

    fn partial_cmp(&self, other: &Keyed<'a, V>) -> Option<Ordering> {
        Some(self.cmp(other))
    }
}

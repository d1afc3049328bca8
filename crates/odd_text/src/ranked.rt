ghost use Rattle.std.specs.Prelude.{◌≡◌, ◌+◌};
ghost use Rattle.std.specs.Cmp.{IsTotalOrder};
ghost use Rattle.std.specs.declared.cmp.Ordering.{Ordering};
ghost use Rattle.std.specs.declared.cmp.Ordering.TheVariants.{Equal};

use crate::Key;
use crate::steps::Steps;
use std::cmp::Ordering;
use std::sync::ledger::Ledger;

/// Keys whose only comparison counts.
pub trait Ranked: Drop {
    ghost order: { Self → Self → Ordering };

    /// How the key compares with another in a total order, in which only a key itself ties with it. One step is counted.
    fn rank<L: Ledger>(&self, other: &Self, steps: &mut Steps<L>) -> Ordering
        ensures answer { result ≡ order self.now other.now }
        ensures cost { steps.new ≡ steps.old + 1 };

    ghost total: { IsTotalOrder order };

    ghost exact: { (x y : Self) → order x y ≡ Equal → x ≡ y };
}

/// By kind, and then by ident in the order of bytes.
impl Ranked for Key {
    ghost use Rattle.odd_text.specs.Key.{key_cmp};
    ghost use Rattle.odd_text.specs.KeyOrder.{key_exact, key_total};

    ghost order = { key_cmp };

    fn rank<L: Ledger>(&self, other: &Key, steps: &mut Steps<L>) -> Ordering {
        steps.tick();
        self.cmp(other)
    }

    ghost total = { key_total };

    ghost exact = { key_exact };
}

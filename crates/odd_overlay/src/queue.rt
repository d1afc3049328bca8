ghost use Rattle.std.specs.Prelude.{◌≡◌, slice_get, IsTrue};
ghost use Rattle.std.specs.Option.{option_copied, option_map};
ghost use Rattle.std.specs.FinMap.{is_sorted};
ghost use Rattle.odd_overlay.specs.Merging.{queued as the_queued};

use odd_text::{ExactOrd, Map};
use std::marker::Model;
use std::vec::IntoIter;

/// The entries of a map that were not taken yet, in rising order of key.
#[derive(Drop)]
pub struct Queue<K: ExactOrd, V> {
    first: Option<(K, V)>,
    rest: IntoIter<(K, V)>,
}

impl<K: ExactOrd, V> Model for Queue<K, V> {
    ghost use Rattle.std.specs.Prelude.{List, IsTrue, ◌++◌};
    ghost use Rattle.std.specs.Option.{option_to_list};
    ghost use Rattle.std.specs.Coded.{coded_list, coded×};
    ghost use Rattle.std.specs.FinMap.{is_sorted};
    ghost use Rattle.std.specs.Vec.Iter.{into_iter_items};
    ghost use Rattle.odd_overlay.specs.Merging.{queued};

    ghost Value = { List (K × V) };

    ghost coded = { coded_list (coded× K.code V.code) };

    ghost view = { λ q. queued q.first (into_iter_items q.rest) };

    ghost invariant = { λ q. IsTrue (is_sorted K.cmp (option_to_list q.first ++ into_iter_items q.rest)) };
}

impl<K: ExactOrd + Drop, V: Drop> Queue<K, V> {
    /// All entries of a map.
    pub fn of(map: Map<K, V>) -> Queue<K, V>
        ensures { result ≡ map }
    {
        let mut rest = map.into_entries().into_iter();
        let first = rest.next();
        Queue { first, rest }
    }

    /// The first entry, which is taken.
    pub fn take(&mut self) -> Option<(K, V)>
        ensures taken { self.old ≡ the_queued result self.new }
        ensures rising { IsTrue (is_sorted K.cmp self.old) }
    {
        let next = self.rest.next();
        let taken = self.first.take();
        self.first = next;
        taken
    }

    /// The key of the first entry.
    pub fn key(&self) -> Option<&K>
        ensures key { option_copied result ≡ option_map (λ e. e.0) (slice_get self.now 0) }
        ensures rising { IsTrue (is_sorted K.cmp self.now) }
    {
        match &self.first {
            Some(entry) => Some(&entry.0),
            None => None,
        }
    }
}

ghost use Rattle.std.specs.Prelude.{◌≡◌, ◌≤◌, ◌↔◌, ◌++◌, ◌∷◌, [], List, IsNone, IsTrue, MatchOption, OnErr, OnOk, length, slice_get};
ghost use Rattle.std.specs.FinMap.{is_sorted};
ghost use Rattle.std.specs.Option.{option_copied, option_map};
ghost use Rattle.odd_text.specs.Above.{IsAboveLast};

use crate::ranked::Ranked;
use crate::{NoMemory, TryCopy};
use std::alloc::Global;
use std::marker::Model;

/// Pairs of a key and a value, in strictly rising order of key. Pairs are put and taken at the end alone.
#[derive(Debug, Drop)]
pub struct Table<K: Ranked, V> {
    pairs: Vec<(K, V)>,
}

impl<K: Ranked, V> Model for Table<K, V> {
    ghost use Rattle.std.specs.Prelude.{List, IsTrue};
    ghost use Rattle.std.specs.Coded.{coded_list, coded×};
    ghost use Rattle.std.specs.FinMap.{is_sorted};

    ghost Value = { List (K × V) };

    ghost coded = { coded_list (coded× K.code V.code) };

    ghost view = { λ t. t.pairs.items };

    ghost invariant = { λ t. IsTrue (is_sorted K.order t.pairs.items) };
}

impl<K: Ranked, V> Table<K, V> {
    /// The empty table. It takes no memory before the first `push`.
    pub fn new(alloc: Global) -> Self
        ensures { result ≡ [] }
    {
        Table {
            pairs: Vec::new(alloc),
        }
    }

    /// How many pairs it has.
    pub fn len(&self) -> usize
        ensures { result ≡ length self.now }
    {
        self.pairs.len()
    }

    /// The pairs, in strictly rising order of key.
    pub fn entries(&self) -> &[(K, V)]
        ensures all { result.now ≡ self.now }
        ensures rising { IsTrue (is_sorted K.order self.now) }
    {
        self.pairs.as_slice()
    }

    /// The key at a place in the order of the keys, counted from 0.
    pub fn key(&self, at: usize) -> Option<&K>
        ensures value { option_copied result ≡ option_map (λ e. e.0) (slice_get self.now at) }
        ensures none { IsNone result ↔ (length self.now ≤ at) }
    {
        match self.pairs.get(at) {
            Some(pair) => Some(&pair.0),
            None => None,
        }
    }

    /// The value at a place in the order of the keys, counted from 0.
    pub fn value(&self, at: usize) -> Option<&V>
        ensures value { option_copied result ≡ option_map (λ e. e.1) (slice_get self.now at) }
        ensures none { IsNone result ↔ (length self.now ≤ at) }
    {
        match self.pairs.get(at) {
            Some(pair) => Some(&pair.1),
            None => None,
        }
    }

    /// The pairs themselves, moved out, in strictly rising order of key.
    pub fn into_pairs(self) -> Vec<(K, V)>
        ensures all { result.items ≡ self }
        ensures rising { IsTrue (is_sorted K.order self) }
    {
        self.pairs
    }

    /// Takes the last pair, that with the greatest key; None where the table is empty.
    pub fn pop_last(&mut self) -> Option<(K, V)>
        ensures { MatchOption result ((self.old ≡ []) × (self.new ≡ [])) (λ last. self.old ≡ self.new ++ last ∷ []) }
    {
        self.pairs.pop()
    }
}

impl<K: Ranked, V: Drop> Table<K, V> {
    /// Puts a pair at the end, whose key is above the last. Without memory the table stays as it was, and the pair is given up.
    pub fn push(&mut self, key: K, value: V) -> Result<(), NoMemory>
        requires { IsAboveLast K.order self.old key }
        ensures ok { OnOk result (self.new ≡ self.old ++ (key, value) ∷ []) }
        ensures err { OnErr result (self.new ≡ self.old) }
    {
        self.pairs.push((key, value))?;
        Ok(())
    }
}

impl<K: Ranked + TryCopy, V: TryCopy> TryCopy for Table<K, V> {
    fn copy(&self, alloc: Global) -> Result<Table<K, V>, NoMemory> {
        let mut pairs = Vec::new(alloc);
        for pair in self.entries() {
            let key = pair.0.copy(alloc)?;
            let value = pair.1.copy(alloc)?;
            pairs.push((key, value))?;
        }
        Ok(Table { pairs })
    }
}

ghost use Rattle.std.specs.Prelude.{◌≡◌, ◌<◌, ◌≤◌, ◌↔◌, [], length, slice_get, IsTrue, IsNone, IfOk, IfErr, OnOk, OnErr};
ghost use Rattle.std.specs.Option.{option_copied, option_map};
ghost use Rattle.std.specs.FinMap.{find, put, is_sorted};
ghost use Rattle.odd_text.specs.Map.{IsAt, IsGap, SetsOnly};

use crate::copy::TryCopy;
use crate::memory::NoMemory;
use crate::order::ExactOrd;
use std::alloc::Global;
use std::marker::Model;

/// A map, which keeps its entries in rising order of key.
#[derive(Debug, Drop)]
pub struct Map<K: ExactOrd, V> {
    entries: Vec<(K, V)>,
}

impl<K: ExactOrd, V> Model for Map<K, V> {
    ghost use Rattle.std.specs.Prelude.{List, IsTrue};
    ghost use Rattle.std.specs.Coded.{coded_list, coded×};
    ghost use Rattle.std.specs.FinMap.{is_sorted};

    ghost Value = { List (K × V) };

    ghost coded = { coded_list (coded× K.code V.code) };

    ghost view = { λ m. m.entries.items };

    ghost invariant = { λ m. IsTrue (is_sorted K.cmp m.entries.items) };
}

impl<K: ExactOrd, V> Map<K, V> {
    /// The empty map. It takes no memory before the first `put`.
    pub fn new(alloc: Global) -> Self
        ensures { result ≡ [] }
    {
        Map {
            entries: Vec::new(alloc),
        }
    }

    /// How many entries it has.
    pub fn len(&self) -> usize
        ensures { result ≡ length self.now }
    {
        self.entries.len()
    }

    /// Whether it has no entry.
    pub fn is_empty(&self) -> bool
        ensures { IsTrue result ↔ (self.now ≡ []) }
    {
        self.entries.is_empty()
    }

    /// The entries, a key and its value, in strictly rising order of key.
    pub fn entries(&self) -> &[(K, V)]
        ensures all { result.now ≡ self.now }
        ensures rising { IsTrue (is_sorted K.cmp self.now) }
    {
        self.entries.as_slice()
    }

    /// The entries themselves, moved out, in strictly rising order of key.
    pub fn into_entries(self) -> Vec<(K, V)>
        ensures all { result.items ≡ self }
        ensures rising { IsTrue (is_sorted K.cmp self) }
    {
        self.entries
    }

    /// The key at a place in the order of the keys, counted from 0.
    pub fn key(&self, at: usize) -> Option<&K>
        ensures value { option_copied result ≡ option_map (λ e. e.0) (slice_get self.now at) }
        ensures none { IsNone result ↔ (length self.now ≤ at) }
    {
        match self.entries.get(at) {
            Some(entry) => Some(&entry.0),
            None => None,
        }
    }

    /// The value at a place in the order of the keys, counted from 0.
    pub fn value(&self, at: usize) -> Option<&V>
        ensures value { option_copied result ≡ option_map (λ e. e.1) (slice_get self.now at) }
        ensures none { IsNone result ↔ (length self.now ≤ at) }
    {
        match self.entries.get(at) {
            Some(entry) => Some(&entry.1),
            None => None,
        }
    }

    /// The value at a key.
    pub fn find(&self, key: &K) -> Option<&V>
        ensures { option_copied result ≡ find K.cmp key.now self.now }
    {
        match search(self.entries(), key) {
            Ok(at) => Some(&self.entries[at].1),
            Err(_) => None,
        }
    }
}

// Where the key is, or else where it would go. The last entry is looked at first, so that keys that rise are put with
// one comparison each.
fn search<K: ExactOrd, V>(entries: &[(K, V)], key: &K) -> Result<usize, usize>
    requires { IsTrue (is_sorted K.cmp entries.now) }
    ensures found { IfOk result (IsAt K.cmp key.now entries.now) }
    ensures absent { IfErr result (IsGap K.cmp key.now entries.now) }
{
    if let Some(last) = entries.last() {
        if last.0.cmp(key).is_lt() {
            return Err(entries.len());
        }
    }
    entries.binary_search_by(|entry| entry.0.cmp(key))
}

impl<K: ExactOrd + Drop, V: Drop> Map<K, V> {
    /// Puts the value at the key, in place of one that is there. Without memory the map stays as it was.
    pub fn put(&mut self, key: K, value: V) -> Result<(), NoMemory>
        ensures ok { OnOk result (self.new ≡ put K.cmp key value self.old) }
        ensures finds { OnOk result (SetsOnly K.cmp self.old self.new key value) }
        ensures rising { IsTrue (is_sorted K.cmp self.new) }
        ensures err { OnErr result (self.new ≡ self.old) }
    {
        match search(self.entries(), &key) {
            Ok(at) => {
                self.entries[at].1 = value;
                Ok(())
            }
            Err(at) => {
                self.entries.insert(at, (key, value))?;
                Ok(())
            }
        }
    }
}

/// Two maps that hold the same at each key are the same.
pub fn law_same_map<K: ExactOrd, V>(one: &Map<K, V>, other: &Map<K, V>)
    ensures { ((key : K) → find K.cmp key one.now ≡ find K.cmp key other.now) → one.now ≡ other.now }
{
    let _ = one.entries();
    let _ = other.entries();
}

impl<K: ExactOrd + TryCopy, V: TryCopy> TryCopy for Map<K, V> {
    fn copy(&self, alloc: Global) -> Result<Map<K, V>, NoMemory> {
        let mut entries = Vec::new(alloc);
        for entry in self.entries() {
            let key = entry.0.copy(alloc)?;
            let value = entry.1.copy(alloc)?;
            entries.push((key, value))?;
        }
        Ok(Map { entries })
    }
}

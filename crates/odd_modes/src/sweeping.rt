ghost use Rattle.std.specs.Prelude.{◌≡◌, ◌≤◌, ◌+◌, Some, IfOk, IsTrue, OnOk, length, reverse, vec_len};
ghost use Rattle.std.specs.FinMap.{find, is_sorted};
ghost use Rattle.odd_text.specs.Above.{IsAboveLast};
ghost use Rattle.odd_modes.specs.Swept.{pushed, rest_taken, swept_at, value_taken};

use odd_overlay::Overlay;
use odd_text::{NoMemory, Ranked, Steps, Table};
use std::alloc::Global;
use std::cmp::Ordering;
use std::sync::ledger::Ledger;

/// What is done at a key.
#[derive(Drop)]
pub enum Act<E> {
    /// What is held stays.
    Keep,
    /// The edit is laid over what is held, or over nothing.
    Put(E),
}

/// The base with acts laid over it: at the key of a `Put` there is what its edit makes of what the base holds there, at that of a
/// `Keep` what the base holds, and at a key with no act nothing. At most as many steps are counted as both tables together have
/// pairs. The only error is NoMemory, for want of memory.
pub fn sweep<K: Ranked, E: Overlay + Drop, L: Ledger>(
    alloc: Global,
    base: Table<K, E::Base>,
    layer: Table<K, Act<E>>,
    steps: &mut Steps<L>,
) -> Result<Table<K, E::Base>, NoMemory>
where
    E::Base: Drop,
    requires { (key : K) (edit : E) (held : E.Base) → find K.order key layer ≡ Some (Act.Put edit) → find K.order key base ≡ Some held → E.suits edit held }
    ensures values { IfOk result (λ made. (key : K) → find K.order key made ≡ swept_at E.laid (find K.order key layer) (find K.order key base)) }
    ensures cost { steps.new ≤ steps.old + (length base + length layer) }
{
    let mut held = turned(base);
    let mut acts = turned(layer);
    let mut made = Table::new(alloc);
    'sweeping: while let Some((key, act)) = acts.pop() {
        let under = take_at(&mut held, &key, steps);
        let value = acted(alloc, act, under)?;
        push_some(&mut made, key, value)?;
    }
    Ok(made)
}

// The pairs of a table, the last first.
fn turned<K: Ranked, V>(table: Table<K, V>) -> Vec<(K, V)>
    ensures all { reverse result.items ≡ table }
    ensures rising { IsTrue (is_sorted K.order table) }
{
    let mut pairs = table.into_pairs();
    pairs.reverse();
    pairs
}

// Drops the pairs below the key, and takes the value at the key.
fn take_at<K: Ranked, V: Drop, L: Ledger>(
    pairs: &mut Vec<(K, V)>,
    key: &K,
    steps: &mut Steps<L>,
) -> Option<V>
    ensures value { result ≡ value_taken K.order key.now (reverse pairs.old.items) }
    ensures rest { reverse pairs.new.items ≡ rest_taken K.order key.now (reverse pairs.old.items) }
    ensures cost { steps.new + vec_len pairs.new ≤ steps.old + vec_len pairs.old + 1 }
{
    'taking: loop {
        let n = pairs.len();
        if n == 0 {
            return None;
        }
        match pairs[n - 1].0.rank(key, steps) {
            Ordering::Less => drop(pairs.pop()),
            Ordering::Equal => return pairs.pop().map(|pair| pair.1),
            Ordering::Greater => return None,
        }
    }
}

// What an act leaves of what is held.
fn acted<E: Overlay + Drop>(
    alloc: Global,
    act: Act<E>,
    under: Option<E::Base>,
) -> Result<Option<E::Base>, NoMemory>
where
    E::Base: Drop,
    requires { (edit : E) (held : E.Base) → act ≡ Act.Put edit → under ≡ Some held → E.suits edit held }
    ensures { IfOk result (λ made. made ≡ swept_at E.laid (Some act) under) }
{
    match act {
        Act::Keep => Ok(under),
        Act::Put(edit) => edit.over(alloc, under),
    }
}

// Puts the value at the end, if there is one.
fn push_some<K: Ranked, V: Drop>(
    made: &mut Table<K, V>,
    key: K,
    value: Option<V>,
) -> Result<(), NoMemory>
    requires { IsAboveLast K.order made.old key }
    ensures { OnOk result (made.new ≡ pushed made.old key value) }
{
    match value {
        Some(value) => made.push(key, value),
        None => Ok(()),
    }
}

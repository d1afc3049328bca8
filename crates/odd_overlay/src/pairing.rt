ghost use Rattle.std.specs.Prelude.{◌≡◌, Option, None, IfOk};
ghost use Rattle.odd_overlay.specs.Overlaid.{zipped};

use crate::merging::{Least, take_least};
use crate::queue::Queue;
use odd_text::{ExactOrd, Map, NoMemory};
use std::alloc::Global;

/// What is made of the values of two maps at one key.
pub trait Pairing {
    type One;

    type Other;

    type Made;

    /// What has to hold before values are paired: by default nothing.
    ghost can_pair: { Self → Type 0 } = { λ _. Unit {0} };

    /// What is made of one value and the other, where there are such.
    ghost pairs: { Self → Option Self.One → Option Self.Other → Option Self.Made };

    /// What is made of one value and the other, where there are such. The only error is NoMemory, for want of memory.
    fn pair(
        &self,
        alloc: Global,
        one: Option<Self::One>,
        other: Option<Self::Other>,
    ) -> Result<Option<Self::Made>, NoMemory>
        requires { can_pair self.now }
        ensures { IfOk result (λ made. made ≡ pairs self.now one other) };

    /// Nothing is made where there is no value.
    ghost nothing: { (s : Self) → pairs s None None ≡ None };
}

/// What is made of two maps, key by key. It takes one step for each key. The only error is NoMemory, for want of memory.
pub fn zipped_maps<K: ExactOrd + Drop, P: Pairing>(
    alloc: Global,
    pairing: &P,
    one: Map<K, P::One>,
    other: Map<K, P::Other>,
) -> Result<Map<K, P::Made>, NoMemory>
where
    P::One: Drop,
    P::Other: Drop,
    P::Made: Drop,
    requires { P.can_pair pairing.now }
    ensures { IfOk result (λ made. made ≡ zipped K.cmp (P.pairs pairing.now) one other) }
{
    let mut made = Map::new(alloc);
    let mut one = Queue::of(one);
    let mut other = Queue::of(other);
    while let Some(Least { key, before, after }) = take_least(&mut one, &mut other) {
        if let Some(value) = pairing.pair(alloc, before, after)? {
            made.put(key, value)?;
        }
    }
    Ok(made)
}

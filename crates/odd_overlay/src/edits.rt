ghost use Rattle.std.specs.Prelude.{◌≡◌, IfOk};
ghost use Rattle.odd_overlay.specs.Overlaid.{joined_at, joined_maps, laid_at, laid_maps};

use crate::overlay::Overlay;
use crate::pairing::{Pairing, zipped_maps};
use odd_text::{ExactOrd, Map, NoMemory};
use std::alloc::Global;
use std::marker::PhantomData;

/// Two maps of edits as one: at a key of both the two edits there as one. It takes one step for each key. The only error is
/// NoMemory, for want of memory.
pub fn joined_edits<K: ExactOrd + Drop, E: Overlay + Drop>(
    alloc: Global,
    earlier: Map<K, E>,
    later: Map<K, E>,
) -> Result<Map<K, E>, NoMemory>
    requires { (a b : E) → E.joins a b }
    ensures { IfOk result (λ made. made ≡ joined_maps K.cmp E.joined earlier later) }
{
    let joining: Joining<E> = Joining { of: PhantomData };
    zipped_maps(alloc, &joining, earlier, later)
}

/// What a map of edits makes of a map of bases, key by key. It takes one step for each key. The only error is NoMemory, for
/// want of memory.
pub fn laid_edits<K: ExactOrd + Drop, E: Overlay + Drop>(
    alloc: Global,
    edits: Map<K, E>,
    bases: Map<K, E::Base>,
) -> Result<Map<K, E::Base>, NoMemory>
where
    E::Base: Drop,
    requires { (e : E) (x : E.Base) → E.suits e x }
    ensures { IfOk result (λ made. made ≡ laid_maps K.cmp E.laid edits bases) }
{
    let laying: Laying<E> = Laying { of: PhantomData };
    zipped_maps(alloc, &laying, edits, bases)
}

/// Two edits of one key as one, where there are such. The only error is NoMemory, for want of memory.
pub fn joined_pair<E: Overlay + Drop>(
    alloc: Global,
    earlier: Option<E>,
    later: Option<E>,
) -> Result<Option<E>, NoMemory>
    requires { (a b : E) → E.joins a b }
    ensures { IfOk result (λ made. made ≡ joined_at E.joined earlier later) }
{
    match (earlier, later) {
        (None, later) => Ok(later),
        (Some(earlier), None) => Ok(Some(earlier)),
        (Some(earlier), Some(later)) => Ok(Some(earlier.then(alloc, later)?)),
    }
}

/// What an edit, where there is one, makes of what there is. The only error is NoMemory, for want of memory.
pub fn laid_pair<E: Overlay + Drop>(
    alloc: Global,
    edit: Option<E>,
    base: Option<E::Base>,
) -> Result<Option<E::Base>, NoMemory>
where
    E::Base: Drop,
    requires { (e : E) (x : E.Base) → E.suits e x }
    ensures { IfOk result (λ made. made ≡ laid_at E.laid edit base) }
{
    match edit {
        None => Ok(base),
        Some(edit) => edit.over(alloc, base),
    }
}

// Joins two edits of one key.
#[derive(Drop)]
struct Joining<E> {
    of: PhantomData<E>,
}

impl<E: Overlay + Drop> Pairing for Joining<E> {
    ghost use Rattle.std.specs.Prelude.{refl};

    type One = E;

    type Other = E;

    type Made = E;

    ghost can_pair = { λ s. (a b : E) → E.joins a b };

    ghost pairs = { λ s. joined_at E.joined };

    fn pair(&self, alloc: Global, one: Option<E>, other: Option<E>) -> Result<Option<E>, NoMemory>
        requires { (a b : E) → E.joins a b }
        ensures { IfOk result (λ made. made ≡ joined_at E.joined one other) }
    {
        joined_pair(alloc, one, other)
    }

    ghost nothing = { λ s. refl };
}

// Lays an edit over a base of its key.
#[derive(Drop)]
struct Laying<E> {
    of: PhantomData<E>,
}

impl<E: Overlay + Drop> Pairing for Laying<E>
where
    E::Base: Drop,
{
    ghost use Rattle.std.specs.Prelude.{refl};

    type One = E;

    type Other = E::Base;

    type Made = E::Base;

    ghost can_pair = { λ s. (e : E) (x : E.Base) → E.suits e x };

    ghost pairs = { λ s. laid_at E.laid };

    fn pair(
        &self,
        alloc: Global,
        one: Option<E>,
        other: Option<E::Base>,
    ) -> Result<Option<E::Base>, NoMemory>
        requires { (e : E) (x : E.Base) → E.suits e x }
        ensures { IfOk result (λ made. made ≡ laid_at E.laid one other) }
    {
        laid_pair(alloc, one, other)
    }

    ghost nothing = { λ s. refl };
}

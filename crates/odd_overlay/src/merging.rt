ghost use Rattle.std.specs.Prelude.{◌≡◌, ◌<◌, ◌+◌, [], length, IfSome, IsNone, IsTrue, OnSome};
ghost use Rattle.std.specs.FinMap.{is_sorted};
ghost use Rattle.odd_overlay.specs.Merging.{TakesLeast, front as the_front};

use crate::queue::Queue;
use odd_text::ExactOrd;
use std::cmp::Ordering;

/// The least key of two maps, and the values that they have there.
#[derive(Drop)]
pub struct Least<K, A, B> {
    pub key: K,
    pub before: Option<A>,
    pub after: Option<B>,
}

/// The least key of what is left of two maps, with its values, which are taken from both.
pub fn take_least<K: ExactOrd + Drop, A: Drop, B: Drop>(
    one: &mut Queue<K, A>,
    other: &mut Queue<K, B>,
) -> Option<Least<K, A, B>>
    ensures none { IsNone result → (one.old ≡ []) × (other.old ≡ []) }
    ensures least { IfSome result (λ least. TakesLeast K.cmp least.key least.before least.after one.old one.new other.old other.new) }
    ensures fewer { OnSome result (length one.new + length other.new < length one.old + length other.old) }
{
    match front(one, other) {
        None => None,
        Some(Ordering::Less) => match one.take() {
            Some((key, value)) => Some(Least {
                key,
                before: Some(value),
                after: None,
            }),
            None => None,
        },
        Some(Ordering::Greater) => match other.take() {
            Some((key, value)) => Some(Least {
                key,
                before: None,
                after: Some(value),
            }),
            None => None,
        },
        Some(Ordering::Equal) => match (one.take(), other.take()) {
            (Some((key, before)), Some((_, after))) => Some(Least {
                key,
                before: Some(before),
                after: Some(after),
            }),
            _ => None,
        },
    }
}

// Which of the two has the lesser first key, where one of them has an entry.
fn front<K: ExactOrd + Drop, A: Drop, B: Drop>(
    one: &Queue<K, A>,
    other: &Queue<K, B>,
) -> Option<Ordering>
    ensures front { result ≡ the_front K.cmp one.now other.now }
    ensures rising { IsTrue (is_sorted K.cmp one.now) }
    ensures others { IsTrue (is_sorted K.cmp other.now) }
{
    match (one.key(), other.key()) {
        (None, None) => None,
        (Some(_), None) => Some(Ordering::Less),
        (None, Some(_)) => Some(Ordering::Greater),
        (Some(a), Some(b)) => Some(a.cmp(b)),
    }
}

ghost use Rattle.std.specs.Prelude.{IfOk};
ghost use Rattle.std.specs.List.{All};
ghost use Rattle.odd_text.specs.Least.{IsLeast};
ghost use Rattle.odd_decls.specs.Items.{IsTold};
ghost use Rattle.odd_decls.specs.Repeats.{AreSorted, IsRepeat, IsTied, TellRepeats};

use crate::items::key_given;
use odd_items::Item;
use odd_text::{Keyed, NoMemory, lesser};
use std::alloc::Global;

/// How many items stand before the first whose key one of them has, where there is such an item.
pub fn first_repeat(alloc: Global, items: &[Item<'_>]) -> Result<Option<usize>, NoMemory>
    ensures { All IsTold items.now → IfOk result (IsLeast (IsRepeat items.now)) }
{
    let mut keyed = keyed_places(alloc, items)?;
    keyed.sort()?;
    Ok(least_tied(keyed.as_slice()))
}

// The places of the items that declare components, counted from 0, by what they declare.
fn keyed_places<'a>(alloc: Global, items: &[Item<'a>]) -> Result<Vec<Keyed<'a, usize>>, NoMemory>
    ensures { All IsTold items.now → IfOk result (λ keyed. TellRepeats items.now keyed.items) }
{
    let mut keyed = Vec::new(alloc);
    for (place, item) in items.iter().enumerate() {
        if let Some((kind, ident)) = key_given(item) {
            keyed.push(Keyed {
                kind,
                ident: ident.as_str(),
                value: place,
            })?;
        }
    }
    Ok(keyed)
}

// The least place that stands after another by the same key.
fn least_tied(keyed: &[Keyed<'_, usize>]) -> Option<usize>
    ensures { AreSorted keyed.now → IsLeast (IsTied keyed.now) result }
{
    let mut least = None;
    let mut before: Option<&Keyed<'_, usize>> = None;
    for one in keyed {
        if before == Some(one) {
            least = lesser(least, Some(one.value));
        }
        before = Some(one);
    }
    least
}

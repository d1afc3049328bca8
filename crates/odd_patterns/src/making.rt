ghost use Rattle.std.specs.Prelude.{◌≡◌, ◌↔◌, ◌<◌, ◌⊎◌, [], ◌∷◌, IsTrue, IfOk, vec_len};
ghost use Rattle.odd_patterns.specs.Words.{IsChoiceOf, IsGroupOf, SameWords};

use crate::alphabet::Alphabet;
use crate::pattern::Pat;
use odd_text::{NoMemory, Seq};
use sqlite_items::Boxed;
use std::alloc::Global;

/// Either of two patterns: it matches the words of both, and of two equal ones it is that pattern. The only error is NoMemory,
/// for want of memory. It takes stack for the depth of the patterns.
// To keep patterns small, a side that is Never is dropped.
pub fn choice<A: Alphabet>(alloc: Global, left: Pat<A>, right: Pat<A>) -> Result<Pat<A>, NoMemory>
    ensures words { IfOk result (λ made. SameWords made (Pat.Choice left right)) }
    ensures equal { left ≡ right → IfOk result (λ made. made ≡ left) }
{
    match left {
        Pat::Never => Ok(right),
        left => match right {
            Pat::Never => Ok(left),
            right => {
                if same(&left, &right) {
                    return Ok(left);
                }
                plain_choice(alloc, left, right)
            }
        },
    }
}

// The choice as it is.
fn plain_choice<A: Alphabet>(alloc: Global, left: Pat<A>, right: Pat<A>) -> Result<Pat<A>, NoMemory>
    ensures { IfOk result (λ made. made ≡ Pat.Choice left right) }
{
    Ok(Pat::Choice(Boxed::new(alloc, left)?, Boxed::new(alloc, right)?))
}

// Whether two patterns are equal.
fn same<A: Alphabet>(left: &Pat<A>, right: &Pat<A>) -> bool
    ensures { IsTrue result ↔ (left.now ≡ right.now) }
{
    match left {
        Pat::Never => match right {
            Pat::Never => true,
            _ => false,
        },
        Pat::Empty => match right {
            Pat::Empty => true,
            _ => false,
        },
        Pat::Leaf(leaf) => match right {
            Pat::Leaf(other) => *leaf == *other,
            _ => false,
        },
        Pat::Choice(first, last) => match right {
            Pat::Choice(front, end) => same(first.get(), front.get())
                && same(last.get(), end.get()),
            _ => false,
        },
        Pat::Group(first, last) => match right {
            Pat::Group(front, end) => same(first.get(), front.get()) && same(last.get(), end.get()),
            _ => false,
        },
        Pat::More(part) => match right {
            Pat::More(other) => same(part.get(), other.get()),
            _ => false,
        },
    }
}

/// One pattern and then the other. The only error is NoMemory, for want of memory. It takes stack for the depth of the
/// patterns.
// To keep patterns small, a side that is Empty is dropped, and beside one that is Never it is Never.
pub fn group<A: Alphabet>(alloc: Global, left: Pat<A>, right: Pat<A>) -> Result<Pat<A>, NoMemory>
    ensures { IfOk result (λ made. SameWords made (Pat.Group left right)) }
{
    match left {
        Pat::Never => Ok(Pat::Never),
        Pat::Empty => Ok(right),
        left => match right {
            Pat::Never => Ok(Pat::Never),
            Pat::Empty => Ok(left),
            right => plain_group(alloc, left, right),
        },
    }
}

// The group as it is.
fn plain_group<A: Alphabet>(alloc: Global, left: Pat<A>, right: Pat<A>) -> Result<Pat<A>, NoMemory>
    ensures { IfOk result (λ made. made ≡ Pat.Group left right) }
{
    Ok(Pat::Group(Boxed::new(alloc, left)?, Boxed::new(alloc, right)?))
}

/// The pattern once or more. The only error is NoMemory, for want of memory. It takes stack for the depth of the pattern.
// To keep patterns small, it is Never of Never, Empty of Empty, and of a repetition that repetition.
pub fn more<A: Alphabet>(alloc: Global, pat: Pat<A>) -> Result<Pat<A>, NoMemory>
    ensures { IfOk result (λ made. SameWords made (Pat.More pat)) }
{
    match pat {
        Pat::Never => Ok(Pat::Never),
        Pat::Empty => Ok(Pat::Empty),
        Pat::More(part) => Ok(Pat::More(part)),
        pat => plain_more(alloc, pat),
    }
}

// The repetition as it is.
fn plain_more<A: Alphabet>(alloc: Global, pat: Pat<A>) -> Result<Pat<A>, NoMemory>
    ensures { IfOk result (λ made. made ≡ Pat.More pat) }
{
    Ok(Pat::More(Boxed::new(alloc, pat)?))
}

/// One of any number of patterns: it matches a word where one of them does, so none where there are none. Its depth
/// is that of the deepest and the logarithm of their number. The only error is NoMemory, for want of memory. It takes
/// stack for the depth of the deepest and the logarithm of their number.
pub fn choice_of<A: Alphabet>(alloc: Global, parts: Seq<Pat<A>>) -> Result<Pat<A>, NoMemory>
    ensures { IfOk result (λ made. IsChoiceOf parts made) }
{
    choice_of_items(alloc, parts.into_items())
}

fn choice_of_items<A: Alphabet>(alloc: Global, mut items: Vec<Pat<A>>) -> Result<Pat<A>, NoMemory>
    ensures { IfOk result (λ made. IsChoiceOf items.items made) }
{
    let count = items.len();
    if count < 2 {
        return Ok(only(items, Pat::Never));
    }
    let rest = items.split_off(count / 2)?;
    let left = choice_of_items(alloc, items)?;
    let right = choice_of_items(alloc, rest)?;
    choice(alloc, left, right)
}

/// Patterns one after the other: it matches a word that is one piece for each of them, in order, so the empty word
/// alone where there are none. Its depth is that of the deepest and the logarithm of their number. The only error is
/// NoMemory, for want of memory. It takes stack for the depth of the deepest and the logarithm of their number.
pub fn group_of<A: Alphabet>(alloc: Global, parts: Seq<Pat<A>>) -> Result<Pat<A>, NoMemory>
    ensures { IfOk result (λ made. IsGroupOf parts made) }
{
    group_of_items(alloc, parts.into_items())
}

fn group_of_items<A: Alphabet>(alloc: Global, mut items: Vec<Pat<A>>) -> Result<Pat<A>, NoMemory>
    ensures { IfOk result (λ made. IsGroupOf items.items made) }
{
    let count = items.len();
    if count < 2 {
        return Ok(only(items, Pat::Empty));
    }
    let rest = items.split_off(count / 2)?;
    let left = group_of_items(alloc, items)?;
    let right = group_of_items(alloc, rest)?;
    group(alloc, left, right)
}

// The item of a list that has one at most, or `none` where it has none.
fn only<A: Alphabet>(mut items: Vec<Pat<A>>, none: Pat<A>) -> Pat<A>
    requires { vec_len items < 2 }
    ensures { ((items.items ≡ []) × (result ≡ none)) ⊎ (items.items ≡ result ∷ []) }
{
    match items.pop() {
        Some(part) => part,
        None => none,
    }
}

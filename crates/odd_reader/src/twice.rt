ghost use Rattle.std.specs.Prelude.{◌≡◌, IfOk, map};
ghost use Rattle.odd_reader.specs.Resolving.{is_same_name, is_written_same, some_twice};

use odd_text::NoMemory;
use odd_tokens::WrittenAttrs;
use odd_tree::Attrs;
use std::alloc::Global;

/// Whether two attributes or declarations have one name as it is written. The only error is NoMemory, for want of memory.
pub fn is_written_twice(alloc: Global, attrs: &WrittenAttrs) -> Result<bool, NoMemory>
    ensures { IfOk result (λ twice. twice ≡ some_twice is_written_same (map (λ a. a.name) attrs.now)) }
{
    if attrs.len() < 2 {
        return Ok(false);
    }
    are_written_twice(alloc, attrs)
}

// The same, by all names in order.
fn are_written_twice(alloc: Global, attrs: &WrittenAttrs) -> Result<bool, NoMemory>
    ensures { IfOk result (λ twice. twice ≡ some_twice is_written_same (map (λ a. a.name) attrs.now)) }
{
    let mut names = Vec::new(alloc);
    for attr in attrs.as_slice() {
        names.push((&attr.name.prefix, &attr.name.local))?;
    }
    Ok(has_twice(names))
}

/// Whether two attributes have one expanded name. The only error is NoMemory, for want of memory.
pub fn is_named_twice(alloc: Global, attrs: &Attrs) -> Result<bool, NoMemory>
    ensures { IfOk result (λ twice. twice ≡ some_twice is_same_name (map (λ a. a.name) attrs.now)) }
{
    if attrs.len() < 2 {
        return Ok(false);
    }
    are_named_twice(alloc, attrs)
}

// The same, by all names in order.
fn are_named_twice(alloc: Global, attrs: &Attrs) -> Result<bool, NoMemory>
    ensures { IfOk result (λ twice. twice ≡ some_twice is_same_name (map (λ a. a.name) attrs.now)) }
{
    let mut names = Vec::new(alloc);
    for attr in attrs.as_slice() {
        names.push((&attr.name.ns, &attr.name.local))?;
    }
    Ok(has_twice(names))
}

// Whether two items are equal.
fn has_twice<T: Ord + Drop>(mut items: Vec<T>) -> bool
    ensures { result ≡ some_twice T.eq items.items }
{
    items.sort_unstable();
    // equal items are neighbours in this order
    for at in 1..items.len() {
        if items[at - 1] == items[at] {
            return true;
        }
    }
    false
}

ghost use Rattle.std.specs.Prelude.{◌≡◌, ◌++◌, IfOk, map};
ghost use Rattle.std.specs.Option.{option_copied};
ghost use Rattle.odd_tree.specs.Names.{in_force, last_bound};
ghost use Rattle.odd_tree.specs.Elements.{all_binds};

use crate::bindings::Bindings;
use crate::xml::XML;
use odd_text::{NoMemory, Text, TryCopy};
use std::alloc::Global;

/// The declarations in force in an element with these of its own, under those around it, level by level.
pub fn entered<'a>(
    alloc: Global,
    around: &[&'a Bindings],
    own: &'a Bindings,
) -> Result<Vec<&'a Bindings>, NoMemory>
    ensures { IfOk result (λ levels. all_binds (map (λ b. b.now) levels.items) ≡ all_binds (map (λ b. b.now) around.entry.now) ++ own.entry.now) }
{
    let mut levels = Vec::from_slice(alloc, around)?;
    levels.push(own)?;
    Ok(levels)
}

/// The namespace to which a prefix is bound under these declarations, level by level, where it is bound (Namespaces in
/// XML 1.0, section 6.1; `xml` is bound from the start).
pub fn namespace_of(
    alloc: Global,
    around: &[&Bindings],
    prefix: &Text,
) -> Result<Option<Text>, NoMemory>
    ensures { IfOk result (λ ns. ns ≡ in_force (all_binds (map (λ b. b.now) around.now)) prefix.now) }
{
    if prefix.as_str() == "xml" {
        return Ok(Some(Text::from_str(alloc, XML)?));
    }
    match bound(around, prefix) {
        Some(ns) => Ok(Some(ns.copy(alloc)?)),
        None => Ok(None),
    }
}

// The namespace to which a prefix is bound by the last of these levels that binds it.
fn bound<'a>(around: &[&'a Bindings], prefix: &Text) -> Option<&'a Text>
    ensures { option_copied result ≡ last_bound (all_binds (map (λ b. b.now) around.entry.now)) prefix.entry.now }
{
    for level in around.iter().rev() {
        if let Some(ns) = level.find(prefix) {
            return Some(ns);
        }
    }
    None
}

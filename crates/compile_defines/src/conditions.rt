ghost use Rattle.std.specs.Prelude.{◌≡◌, ◌++◌, IfOk, IsOk, IsTrue, OnOk, flat_map};
ghost use Rattle.std.specs.FinMap.{is_sorted};
ghost use Rattle.odd_text.specs.Key.{key_cmp};
ghost use Rattle.odd_text.specs.Sorted.{IsSet};
ghost use Rattle.odd_content.specs.ConditionOrder.{condition_cmp};
ghost use Rattle.compile_defines.specs.Conditions.{IsConditionOf, conditions_in};

use odd_content::{Condition, Content, Contents};
use odd_library::{Component, Library};
use odd_text::{NoMemory, Seq, TryCopy, sorted};
use std::alloc::Global;

/// A list of conditions.
pub type Conditions = Seq<Condition>;

/// The conditions in the contents of a library's components, whose keys rise, in rising order, each once.
/// The only error is NoMemory, for want of memory.
pub fn conditions_of(alloc: Global, library: &Library) -> Result<Conditions, NoMemory>
    ensures set { IfOk result (IsSet condition_cmp (IsConditionOf library.now)) }
    ensures rising { IsOk result → IsTrue (is_sorted key_cmp library.now.parts) }
{
    let mut held = Conditions::new(alloc);
    for entry in library.parts.entries() {
        if let Some(content) = entry.1.content() {
            add_conditions(alloc, &mut held, content)?;
        }
    }
    sorted(alloc, held)
}

// Puts the conditions in a content at the end.
#[cycle(add_conditions)]
fn add_conditions(alloc: Global, held: &mut Conditions, content: &Content) -> Result<(), NoMemory>
    ensures { OnOk result (held.new ≡ held.old ++ conditions_in content.now) }
{
    match content {
        Content::Any {
            condition,
            bounds: _,
        } => held.push(condition.copy(alloc)?),
        Content::Sequence { parts, bounds: _ } => add_conditions_in(alloc, held, parts),
        Content::Alternate { parts, bounds: _ } => add_conditions_in(alloc, held, parts),
        Content::Empty => Ok(()),
        Content::Text => Ok(()),
        Content::Value(_) | Content::Vals(_) => Ok(()),
        Content::Element { .. } | Content::Class { .. } | Content::Macro { .. } => Ok(()),
    }
}

// The same of each part.
#[cycle(add_conditions)]
fn add_conditions_in(alloc: Global, held: &mut Conditions, parts: &Contents) -> Result<(), NoMemory>
    ensures { OnOk result (held.new ≡ held.old ++ flat_map conditions_in parts.now) }
{
    for part in parts.as_slice() {
        add_conditions(alloc, held, part)?;
    }
    Ok(())
}

ghost use Rattle.std.specs.Prelude.{◌≡◌, ℕ, Err, IfOk, IsOk};
ghost use Rattle.odd_text.specs.declared.key.Key.{Key as AKey};
ghost use Rattle.odd_meaning.specs.Links.{classes_of, macros_of};
ghost use Rattle.odd_meaning.specs.Rules.{Breaks, BreaksByCycle, IsFirstBreak};
ghost use Rattle.odd_classes.specs.Placing.{IsFirstAmong, IsGraphOf, LeadsToItself, keys_by};

use crate::graph::graph_by;
use crate::links::Link;
use odd_graph::{Nodes, first_on_cycle};
use odd_library::Library;
use odd_text::{Key, NoMemory, TryCopy};
use std::alloc::Global;

/// Why a library is not known to have no cycle.
#[derive(Debug, Drop)]
pub enum CycleRefusal {
    /// The component at the key is on a cycle, and breaks the rule.
    Loop { key: Key, rule: u8 },
    NoMemory,
}

// A class is a member of itself.
const OWN_MEMBER: u8 = 13;

// A macro or a datatype reaches itself.
const REACHES_ITSELF: u8 = 14;

/// Loop is answered for the first class of a library, by ident, that is a member of itself (rule 13), and where there is none
/// for the first macro, or else the first datatype, that reaches itself (rule 14). NoMemory is answered for want of memory.
pub fn check_cycles(alloc: Global, library: &Library) -> Result<(), CycleRefusal>
    ensures none { IsOk result → (key : AKey) (rule : ℕ) → BreaksByCycle library.now key rule → ⊥ }
    ensures first { (key : AKey) (rule : ℕ) → result ≡ Err (CycleRefusal.Loop key rule) → IsFirstBreak (BreaksByCycle library.now) key rule }
{
    acyclic(alloc, library)?;
    Ok(())
}

/// The graphs of a library without a cycle.
#[derive(Drop)]
pub struct Graphs {
    /// By the classes that a component is said to be a member of.
    pub classes: Vec<Nodes>,
    /// By the macros that its content names.
    pub macros: Vec<Nodes>,
}

/// The graphs of a library, or Loop as `check_cycles` answers it.
pub fn acyclic(alloc: Global, library: &Library) -> Result<Graphs, CycleRefusal>
    ensures classes { IfOk result (λ graphs. IsGraphOf classes_of library.now.parts graphs.classes.items) }
    ensures macros { IfOk result (λ graphs. IsGraphOf macros_of library.now.parts graphs.macros.items) }
    ensures none { IsOk result → (key : AKey) (rule : ℕ) → BreaksByCycle library.now key rule → ⊥ }
    ensures first { (key : AKey) (rule : ℕ) → result ≡ Err (CycleRefusal.Loop key rule) → IsFirstBreak (BreaksByCycle library.now) key rule }
{
    let classes = acyclic_by(alloc, library, Link::Classes, OWN_MEMBER)?;
    let macros = acyclic_by(alloc, library, Link::Macros, REACHES_ITSELF)?;
    acyclic_by(alloc, library, Link::Datatypes, REACHES_ITSELF)?;
    Ok(Graphs { classes, macros })
}

/// The graph of a library by classes. Loop is answered for the first class, by ident, that is a member of itself (rule 13). NoMemory
/// is answered for want of memory.
pub fn acyclic_classes(alloc: Global, library: &Library) -> Result<Vec<Nodes>, CycleRefusal>
    ensures graph { IfOk result (λ arrows. IsGraphOf classes_of library.now.parts arrows.items) }
    ensures none { IsOk result → (key : AKey) → Breaks library.now key 13 → ⊥ }
    ensures first { (key : AKey) (rule : ℕ) → result ≡ Err (CycleRefusal.Loop key rule) → IsFirstAmong (λ other. Breaks library.now other 13) key }
{
    acyclic_by(alloc, library, Link::Classes, OWN_MEMBER)
}

// The graph of a library by a link, where no component leads to itself by it.
fn acyclic_by(
    alloc: Global,
    library: &Library,
    link: Link,
    rule: u8,
) -> Result<Vec<Nodes>, CycleRefusal>
    ensures graph { IfOk result (λ arrows. IsGraphOf (keys_by link) library.now.parts arrows.items) }
    ensures none { IsOk result → (key : AKey) → LeadsToItself link library.now key → ⊥ }
    ensures first { (key : AKey) (given : ℕ) → result ≡ Err (CycleRefusal.Loop key given) → IsFirstAmong (LeadsToItself link library.now) key }
    ensures rule { (key : AKey) (given : ℕ) → result ≡ Err (CycleRefusal.Loop key given) → given ≡ rule }
{
    let entries = library.parts.entries();
    let arrows = graph_by(alloc, link, entries)?;
    let Some(place) = first_on_cycle(alloc, arrows.as_slice())? else {
        return Ok(arrows);
    };
    match library.parts.key(place) {
        Some(key) => Err(CycleRefusal::Loop {
            key: key.copy(alloc)?,
            rule,
        }),
        None => Ok(arrows),
    }
}

impl From<NoMemory> for CycleRefusal {
    ghost use Rattle.odd_classes.specs.declared.cycles.CycleRefusal.TheVariants as refusal;

    ghost from_gives = { λ _ error. error ≡ refusal.NoMemory };

    fn from(_error: NoMemory) -> CycleRefusal {
        CycleRefusal::NoMemory
    }
}

ghost use Rattle.std.specs.Prelude.{◌≡◌, IfOk};
ghost use Rattle.odd_library.specs.Formed.{IsFormedPart, IsFormedSpec};
ghost use Rattle.odd_library.specs.Over.{HaveOneKey, both_changed as the_both_changed, class_laid_over, element_laid_over, laid_over as the_laid_over, module_joined as the_module_joined, other_laid_over, set_changed as the_set_changed, spec_joined, spec_laid};
ghost use Rattle.odd_library.specs.OverLaws.{spec_joined_follows, spec_joined_leads, spec_one_by_one, spec_regrouped};

use crate::classes_over;
use crate::library::{ClassPart, Component, ElementPart, OtherPart};
use crate::spec::{Mode, Spec};
use odd_overlay::{Overlay, joined_pair};
use odd_text::{NoMemory, Text};
use std::alloc::Global;

/// Declarations that add, replace or delete stand alone, and one that changes is laid over what was declared before it. Two
/// join where they have one key, and one suits each component: the library before a file may be any.
impl Overlay for Spec {
    type Base = Component;

    ghost joins = { HaveOneKey };

    ghost suits = { λ spec part. Unit {0} };

    ghost joined = { spec_joined };

    ghost laid = { spec_laid };

    fn then(self, alloc: Global, later: Spec) -> Result<Spec, NoMemory> {
        match (self.mode, later.mode) {
            (_, Mode::Add | Mode::Replace | Mode::Delete) => Ok(later),
            (Mode::Add | Mode::Replace, Mode::Change) => set_changed(alloc, self, later),
            (Mode::Delete, Mode::Change) => Ok(self),
            (Mode::Change, Mode::Change) => both_changed(alloc, self, later),
        }
    }

    fn over(self, alloc: Global, base: Option<Component>) -> Result<Option<Component>, NoMemory>
        ensures { IfOk result (λ made. made ≡ spec_laid self base) }
    {
        match self.mode {
            Mode::Add | Mode::Replace => Ok(Some(Component::of(alloc, self)?)),
            Mode::Change => match base {
                Some(part) => Ok(Some(laid_over(alloc, part, self)?)),
                None => Ok(None),
            },
            Mode::Delete => Ok(None),
        }
    }

    ghost one_by_one = { λ a b x h k. spec_one_by_one a b x };

    ghost regrouped = { λ a b c h k. spec_regrouped a b c };

    ghost made_suits = { λ a b x y h k e. tt };

    ghost joined_leads = { spec_joined_leads };

    ghost joined_follows = { spec_joined_follows };

    ghost joined_suits = { λ a b x h k l. tt };
}

/// A component with a declaration that changes it laid over it: its module stays, as does the type of a class; of memberships
/// and attributes that are changed the others stay; and what else the declaration gives is put in place of what was there. The
/// only error is NoMemory, for want of memory.
pub fn laid_over(alloc: Global, part: Component, spec: Spec) -> Result<Component, NoMemory>
    ensures value { IfOk result (λ made. made ≡ the_laid_over part spec) }
    ensures formed { IsFormedPart spec.key.kind part → IsFormedSpec spec → IfOk result (IsFormedPart spec.key.kind) }
{
    match part {
        Component::Element(part) => Ok(Component::Element(element_over(alloc, part, spec)?)),
        Component::Class(part) => Ok(Component::Class(class_over(alloc, part, spec)?)),
        Component::Macro(part) => Ok(Component::Macro(other_over(part, spec))),
        Component::Datatype(part) => Ok(Component::Datatype(other_over(part, spec))),
    }
}

// An element with a declaration laid over it.
fn element_over(alloc: Global, part: ElementPart, spec: Spec) -> Result<ElementPart, NoMemory>
    ensures { IfOk result (λ made. made ≡ element_laid_over part spec) }
{
    Ok(ElementPart {
        module: part.module,
        ns: spec.ns.unwrap_or(part.ns),
        alt: spec.alt.or(part.alt),
        classes: classes_over(alloc, spec.classes, part.classes)?,
        content: spec.content.unwrap_or(part.content),
        atts: part.atts.then(alloc, spec.atts)?,
    })
}

// A class with a declaration laid over it.
fn class_over(alloc: Global, part: ClassPart, spec: Spec) -> Result<ClassPart, NoMemory>
    ensures { IfOk result (λ made. made ≡ class_laid_over part spec) }
{
    Ok(ClassPart {
        module: part.module,
        gives: part.gives,
        classes: classes_over(alloc, spec.classes, part.classes)?,
        atts: part.atts.then(alloc, spec.atts)?,
    })
}

// A macro or a datatype with a declaration laid over it.
fn other_over(part: OtherPart, spec: Spec) -> OtherPart
    ensures { result ≡ other_laid_over part spec }
{
    OtherPart {
        module: part.module,
        content: spec.content.unwrap_or(part.content),
    }
}

// A declaration that sets a component, changed by a later one.
fn set_changed(alloc: Global, before: Spec, spec: Spec) -> Result<Spec, NoMemory>
    ensures { IfOk result (λ made. made ≡ the_set_changed before spec) }
{
    Ok(Spec {
        key: before.key,
        mode: before.mode,
        module: before.module,
        ns: spec.ns.or(before.ns),
        alt: spec.alt.or(before.alt),
        gives: before.gives,
        classes: joined_pair(alloc, before.classes, spec.classes)?,
        content: spec.content.or(before.content),
        atts: before.atts.then(alloc, spec.atts)?,
    })
}

// Two changes as one.
fn both_changed(alloc: Global, before: Spec, spec: Spec) -> Result<Spec, NoMemory>
    ensures { IfOk result (λ made. made ≡ the_both_changed before spec) }
{
    Ok(Spec {
        key: before.key,
        mode: before.mode,
        module: module_joined(before.module, spec.module),
        ns: spec.ns.or(before.ns),
        alt: spec.alt.or(before.alt),
        gives: before.gives.or(spec.gives),
        classes: joined_pair(alloc, before.classes, spec.classes)?,
        content: spec.content.or(before.content),
        atts: before.atts.then(alloc, spec.atts)?,
    })
}

// The earlier module, or the later one where none is given before.
fn module_joined(before: Text, later: Text) -> Text
    ensures { result ≡ the_module_joined before later }
{
    if before.as_str().is_empty() {
        later
    } else {
        before
    }
}

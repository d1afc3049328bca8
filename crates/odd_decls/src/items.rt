ghost use Rattle.std.specs.Prelude.{◌≡◌, Some, map, IfOk};
ghost use Rattle.odd_tree.specs.Elements.{all_binds};
ghost use Rattle.odd_forms.specs.Faults.{child_in};
ghost use Rattle.odd_text.specs.Least.{IsLeast};
ghost use Rattle.odd_forms.specs.Table.{form_at};
ghost use Rattle.odd_forms.specs.declared.element.Element.TheVariants as the_element;
ghost use Rattle.odd_decls.specs.Items.{IsTold};
ghost use Rattle.odd_decls.specs.Offences.{ItemFault};
ghost use Rattle.odd_decls.specs.ItemReading.{GivesEntry, IsKeyOf, seen_key};

use crate::declarations::{kind_declared, spec_entry};
use crate::taken::reference_entry;
use odd_forms::{Element, LEVELS, deep_fault, stray_fault};
use odd_items::Item;
use odd_library::Entry;
use odd_text::{Kind, NoMemory, Text};
use odd_tree::{Bindings, Tree, attribute, is_ncname};
use std::alloc::Global;

/// The kind and the ident of the component that an item declares, where it declares one and its ident is an NCName.
pub fn key_given<'a>(item: &Item<'a>) -> Option<(Kind, &'a Text)>
    ensures { IsTold item.now → IsKeyOf item.now.tree.now (seen_key result) }
{
    let kind = kind_declared(item.element?)?;
    let ident = attribute(&item.tree.attrs, "ident")?;
    is_ncname(ident).then_some((kind, ident))
}

/// The least rule that an item of a `schemaSpec` breaks by itself. `around` are the declarations in force in the
/// `schemaSpec`, level by level. The only error is NoMemory, for want of memory.
pub fn item_fault(
    alloc: Global,
    item: &Item<'_>,
    around: &[&Bindings],
) -> Result<Option<u8>, NoMemory>
    ensures { IsTold item.now → IfOk result (IsLeast (ItemFault (all_binds (map (λ b. b.now) around.now)) item.now.tree.now)) }
{
    match item.element {
        Some(element) => element_fault(alloc, element, item.tree, around),
        None => Ok(stray_fault(Element::SchemaSpec.form(), item.tree)),
    }
}

// The least rule that an item breaks that is an element of the table. A group breaks none: what it holds are items by themselves.
fn element_fault(
    alloc: Global,
    element: Element,
    item: &Tree,
    around: &[&Bindings],
) -> Result<Option<u8>, NoMemory>
    ensures { child_in (form_at the_element.SchemaSpec) item.now ≡ Some element → IfOk result (IsLeast (ItemFault (all_binds (map (λ b. b.now) around.now)) item.now)) }
{
    match element {
        Element::SpecGrp => Ok(None),
        _ => deep_fault(alloc, element, item, LEVELS, around),
    }
}

/// What an item of a `schemaSpec` declares that breaks nothing, if it declares something. `ns` is the namespace of elements that
/// give none themselves.
pub fn item_entry(
    alloc: Global,
    ns: &Text,
    item: &Item<'_>,
    around: &[&Bindings],
) -> Result<Option<Entry>, NoMemory>
    ensures { IsTold item.now → IfOk result (GivesEntry ns.now (record { around = all_binds (map (λ b. b.now) around.now); element = item.now.tree.now })) }
{
    let Some(element) = item.element else {
        return Ok(None);
    };
    if kind_declared(element).is_some() {
        return spec_entry(alloc, ns, element, item, around);
    }
    reference_entry(alloc, element, item.tree)
}

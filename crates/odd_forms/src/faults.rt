ghost use Rattle.std.specs.Prelude.{◌≡◌, ◌↔◌, [], ◌∷◌, count_by, if◌then◌else◌, IfOk, IsTrue, Some, None, map, is_some, nat_le};
ghost use Rattle.std.specs.List.{list_any};
ghost use Rattle.std.specs.Option.{option_copied};
ghost use Rattle.odd_tree.specs.Elements.{all_binds, children_of, given};
ghost use Rattle.odd_forms.specs.Children.{GivesOne, IsChild};
ghost use Rattle.odd_forms.specs.Faults.{AttributeFault, ChildFault, DemandFault, OwnFault, child_in, element_among as the_element_among};
ghost use Rattle.odd_text.specs.Least.{Among, IsLeast};
ghost use Rattle.odd_forms.specs.Names.{is_one_of as the_is_one_of};
ghost use Rattle.odd_forms.specs.Seen as seen;
ghost use Rattle.odd_forms.specs.Table.{form_at};

use crate::attributes::attribute_fault;
use crate::demands::demand_fault;
use crate::element::Element;
use crate::form::{AttributeForm, Demand, Form};
use crate::names::{is_one_of, is_passed_over, is_relax_ng, is_tei};
use odd_text::{NoMemory, lesser};
use odd_tree::{Bindings, Tree, attribute, elements};
use std::alloc::Global;

/// A needed attribute is absent, or one is malformed.
pub const MALFORMED: u8 = 1;
/// A form that is left out.
pub const LEFT_OUT: u8 = 2;
/// A child that may not stand there, a `mode` or a `type` that is unknown, or what contradicts itself.
pub const UNKNOWN: u8 = 3;
/// Twice in one place.
pub const TWICE: u8 = 4;

/// The rule, where there is a fault.
pub fn fault_where(is_fault: bool, rule: u8) -> Option<u8>
    ensures { result ≡ (if is_fault then Some rule else None) }
{
    if is_fault { Some(rule) } else { None }
}

// The least rule that an element breaks by the attributes that it may have.
fn attributes_fault(
    alloc: Global,
    forms: &[AttributeForm],
    tree: &Tree,
) -> Result<Option<u8>, NoMemory>
    ensures { IfOk result (IsLeast (Among (λ a. AttributeFault a tree.now) (map seen.attribute forms.now))) }
{
    let mut least = None;
    for form in forms {
        least = lesser(least, attribute_fault(alloc, form, tree)?);
    }
    Ok(least)
}

// Whether an element has an attribute whose meaning is left out.
fn has_left_out(locals: &[&str], tree: &Tree) -> bool
    ensures { result ≡ list_any (λ l. is_some (given tree.now l.now)) locals.now }
{
    locals
        .iter()
        .any(|local| attribute(&tree.attrs, local).is_some())
}

// The least rule that an element breaks by what must also hold of it.
fn demands_fault(
    alloc: Global,
    demands: &[Demand],
    tree: &Tree,
    inside: &[&Bindings],
) -> Result<Option<u8>, NoMemory>
    ensures { IfOk result (IsLeast (Among (DemandFault (all_binds (map (λ b. b.now) inside.now)) tree.now) (map seen.demand demands.now))) }
{
    let mut least = None;
    for demand in demands {
        least = lesser(least, demand_fault(alloc, demand, tree, inside)?);
    }
    Ok(least)
}

/// The least rule that an element breaks beside its children. `inside` are the declarations in force in it, level by level.
/// The only error is NoMemory, for want of memory.
pub fn own_fault(
    alloc: Global,
    form: &Form,
    tree: &Tree,
    inside: &[&Bindings],
) -> Result<Option<u8>, NoMemory>
    ensures { IfOk result (IsLeast (OwnFault (seen.form form.now) (all_binds (map (λ b. b.now) inside.now)) tree.now)) }
{
    let attributes = attributes_fault(alloc, form.attributes, tree)?;
    let left_out = fault_where(has_left_out(form.left_out, tree), LEFT_OUT);
    let demands = demands_fault(alloc, form.demands, tree, inside)?;
    Ok(lesser(attributes, lesser(left_out, demands)))
}

/// The element of the table that an element is, among these.
pub fn element_among(elements: &[Element], tree: &Tree) -> Option<Element>
    ensures { result ≡ the_element_among elements.now tree.now }
{
    elements
        .iter()
        .copied()
        .find(|element| is_one_of(tree, &[element.form().name]))
}

/// The element of the table that a child is, where it may stand there.
pub fn child_of(form: &Form, child: &Tree) -> Option<Element>
    ensures { result ≡ child_in (seen.form form.now) child.now }
{
    element_among(form.many, child).or(element_among(form.once, child))
}

/// Whether the child of an element of the table is of a kind.
pub fn is_child(parent: Element, kind: Element, child: &Tree) -> bool
    ensures { IsTrue result ↔ IsChild parent kind child.now }
{
    child_of(parent.form(), child) == Some(kind)
}

/// A child of a kind, where there is one.
pub fn child_of_kind<'a>(parent: Element, kind: Element, tree: &'a Tree) -> Option<&'a Tree>
    ensures { GivesOne parent kind (λ child given. given ≡ child) (children_of tree.entry.now) (option_copied result) }
{
    for child in elements(tree) {
        if is_child(parent, kind, child) {
            return Some(child);
        }
    }
    None
}

/// The least rule that a child breaks by standing there, of those that are no element of the table there.
pub fn stray_fault(form: &Form, child: &Tree) -> Option<u8>
    ensures { child_in (seen.form form.now) child.now ≡ None → IsLeast (ChildFault (seen.form form.now) child.now) result }
{
    if is_relax_ng(child) || is_one_of(child, form.left_out_children) {
        return Some(LEFT_OUT);
    }
    if is_passed_over(child) || is_one_of(child, form.passed_over) {
        return None;
    }
    fault_where(form.closed || is_tei(child), UNKNOWN)
}

// Whether an element has two children or more of this name.
fn has_two(local: &str, tree: &Tree) -> bool
    ensures { result ≡ nat_le 2 (count_by (the_is_one_of (local.now ∷ [])) (children_of tree.now)) }
{
    elements(tree)
        .filter(|child| is_one_of(child, &[local]))
        .nth(1)
        .is_some()
}

/// Whether a child that may stand once stands twice.
pub fn has_twice(once: &[Element], tree: &Tree) -> bool
    ensures { result ≡ list_any (λ e. nat_le 2 (count_by (the_is_one_of ((form_at e).name ∷ [])) (children_of tree.now))) once.now }
{
    once.iter()
        .any(|element| has_two(element.form().name, tree))
}

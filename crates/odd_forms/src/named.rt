ghost use Rattle.std.specs.Prelude.{◌≡◌, is_some};
ghost use Rattle.std.specs.List.{list_any};
ghost use Rattle.std.specs.Option.{option_copied};
ghost use Rattle.odd_tree.specs.Elements.{shown_elements};
ghost use Rattle.odd_tree.specs.declared.tree.Node.{out-Node};
ghost use Rattle.odd_forms.specs.Faults.{count_named as the_count_named, element_among as the_element_among, has_named as the_has_named};
ghost use Rattle.odd_forms.specs.Names.{first_named};

use crate::element::Element;
use crate::faults::element_among;
use crate::names::is_one_of;
use odd_tree::{Node, Tree, elements};

/// Whether a child is of this name.
pub fn has_named(element: Element, tree: &Tree) -> bool
    ensures { result ≡ the_has_named element tree.now }
{
    elements(tree).any(|child| is_one_of(child, &[element.form().name]))
}

/// How many children are of these names.
pub fn count_named(kinds: &[Element], tree: &Tree) -> usize
    ensures { result ≡ the_count_named kinds.now tree.now }
{
    tree.children
        .as_slice()
        .iter()
        .filter(|node| is_of(kinds, node))
        .count()
}

// Whether what stands in an element is an element of these names.
fn is_of(kinds: &[Element], node: &Node) -> bool
    ensures { result ≡ list_any (λ t. is_some (the_element_among kinds.now t)) (shown_elements (out-Node node.now)) }
{
    match node {
        Node::Element(child) => element_among(kinds, child).is_some(),
        Node::Text(_) => false,
    }
}

/// The first child that is TEI's of this local name.
pub fn child_named<'a>(tree: &'a Tree, local: &str) -> Option<&'a Tree>
    ensures { option_copied result ≡ first_named local.now tree.entry.now }
{
    elements(tree).find(|child| is_one_of(child, &[local]))
}

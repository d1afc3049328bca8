ghost use Rattle.std.specs.Prelude.{◌≡◌};
ghost use Rattle.std.specs.Iterator.{YieldsFirstRef, item_count};
ghost use Rattle.std.specs.Option.{option_copied};
ghost use Rattle.odd_tree.specs.Elements.{attribute_value, children_of, elements_of, is_named as the_is_named};

use crate::tree::{Attr, Attrs, Node, Tree};
use odd_text::Text;
use std::marker::Model;

// Whether an attribute has this local name, and no namespace.
fn is_named(attr: &Attr, local: &str) -> bool
    ensures { result ≡ the_is_named attr.now local.now }
{
    attr.name.ns.as_str().is_empty() && attr.name.local.as_str() == local
}

/// The value of the attribute of this local name that has no namespace.
pub fn attribute<'a>(attrs: &'a Attrs, local: &str) -> Option<&'a Text>
    ensures { option_copied result ≡ attribute_value attrs.entry.now local.now }
{
    for attr in attrs.as_slice() {
        if is_named(attr, local) {
            return Some(&attr.value);
        }
    }
    None
}

/// The elements among the children of an element, in their order.
#[derive(Drop)]
pub struct ChildElements<'a> {
    nodes: &'a [Node],
}

impl<'a> Model for ChildElements<'a> {
    ghost use Rattle.std.specs.Prelude.{List};
    ghost use Rattle.odd_tree.specs.Elements.{elements_of};
    ghost use Rattle.odd_tree.specs.declared.tree.Tree.{Tree as ATree};
    ghost use Rattle.odd_tree.specs.contracts.tree.Tree as tree_row;
    ghost use Rattle.std.specs.Coded.{codes};

    ghost Value = { List ATree };

    ghost coded = { Prim.hlevel (codes, tree_row.the_row.coded) };

    ghost view = { λ it. elements_of it.nodes.now };
}

impl<'a> Iterator for ChildElements<'a> {
    type Item = &'a Tree;

    ghost next_gives = { YieldsFirstRef (λ s. s) };

    ghost remaining = { item_count (λ s. s) };

    fn next(&mut self) -> Option<&'a Tree> {
        while let Some((first, others)) = self.nodes.split_first() {
            self.nodes = others;
            if let Node::Element(child) = first {
                return Some(child);
            }
        }
        None
    }
}

/// The elements among the children of an element, in their order.
pub fn elements(tree: &Tree) -> ChildElements<'_>
    ensures { result ≡ children_of tree.now }
{
    ChildElements {
        nodes: tree.children.as_slice(),
    }
}

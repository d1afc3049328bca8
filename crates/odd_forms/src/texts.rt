ghost use Rattle.std.specs.Prelude.{◌≡◌, IfOk};
ghost use Rattle.odd_forms.specs.Texts.{collapsed_in as the_collapsed_in};
ghost use Rattle.odd_tree.specs.Elements.{text_of as the_text_of};

use odd_text::{NoMemory, Text};
use odd_tree::{Node, Tree};
use rng_values::collapse;
use std::alloc::Global;

/// The text of an element, without that of the elements in it, with white space collapsed. The only error is NoMemory, for
/// want of memory.
pub fn collapsed_in(alloc: Global, tree: &Tree) -> Result<Text, NoMemory>
    ensures { IfOk result (λ text. text ≡ the_collapsed_in tree.now) }
{
    collapse(alloc, &text_of(alloc, tree)?)
}

// The text of an element, without that of the elements in it.
fn text_of(alloc: Global, tree: &Tree) -> Result<Text, NoMemory>
    ensures { IfOk result (λ text. text ≡ the_text_of tree.now) }
{
    let mut text = Text::new(alloc);
    for node in tree.children.as_slice() {
        if let Node::Text(piece) = node {
            text.push_str(piece.as_str())?;
        }
    }
    Ok(text)
}

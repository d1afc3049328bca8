ghost use Rattle.std.specs.Prelude.{◌≡◌, ◌++◌, [], ◌∷◌, List, IfOk, OnOk};
ghost use Rattle.odd_tree.specs.declared.tree.Node.{Node as ANode, Element as AnElement};
ghost use Rattle.odd_items.specs.Left.{before_rest};
ghost use Rattle.odd_items.specs.Without.{text_before};

use odd_text::{NoMemory, Text, TryCopy};
use odd_tree::{Node, Nodes, Tree};
use std::alloc::Global;

/// What is left of some nodes so far: nodes, and the text that stands behind them, if one does. It grows with the texts that come
/// to stand beside it.
#[derive(Drop)]
pub struct Left {
    pub nodes: Nodes,
    pub text: Option<Text>,
}

impl Left {
    /// Nothing so far.
    pub fn new(alloc: Global) -> Left
        ensures { (rest : List ANode) → result.nodes ++ before_rest result.text rest ≡ rest }
    {
        Left {
            nodes: Nodes::new(alloc),
            text: None,
        }
    }

    /// Puts a text at the end.
    pub fn put_text(&mut self, alloc: Global, text: &Text) -> Result<(), NoMemory>
        ensures { OnOk result ((rest : List ANode) → self.new.nodes ++ before_rest self.new.text rest ≡ self.old.nodes ++ before_rest self.old.text (text_before text.now rest)) }
    {
        if let Some(before) = &mut self.text {
            before.push_str(text.as_str())?;
            return Ok(());
        }
        self.text = Some(text.copy(alloc)?);
        Ok(())
    }

    /// Puts an element at the end.
    pub fn put_element(&mut self, tree: Tree) -> Result<(), NoMemory>
        ensures { OnOk result ((rest : List ANode) → self.new.nodes ++ before_rest self.new.text rest ≡ self.old.nodes ++ before_rest self.old.text (AnElement tree ∷ rest)) }
    {
        if let Some(text) = self.text.take() {
            self.nodes.push(Node::Text(text))?;
        }
        self.nodes.push(Node::Element(tree))?;
        Ok(())
    }

    /// All nodes.
    pub fn into_nodes(self) -> Result<Nodes, NoMemory>
        ensures { IfOk result (λ nodes. nodes ≡ self.nodes ++ before_rest self.text []) }
    {
        let mut nodes = self.nodes;
        if let Some(text) = self.text {
            nodes.push(Node::Text(text))?;
        }
        Ok(nodes)
    }
}

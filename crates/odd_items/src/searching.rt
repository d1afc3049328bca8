ghost use Rattle.std.specs.Prelude.{◌≡◌, [], IfOk, List, OnOk, map};
ghost use Rattle.odd_items.specs.Adding.{AddsKept, KeepsIt, LeadsInside};
ghost use Rattle.odd_items.specs.Search.{Finds, Found as AFound, is_searched as the_is_searched};
ghost use Rattle.odd_items.specs.Searching.{AreKept, AreParents};

use odd_forms::{is_one_of, is_tei};
use odd_text::{NoMemory, Scope};
use odd_tree::{Node, Tree};
use std::alloc::Global;

/// A level of declarations of namespaces: those on one tag, and the level around it.
#[derive(Clone, Copy)]
pub struct Level<'a> {
    pub binds: &'a Scope,
    pub outer: Option<usize>,
}

/// An element that the search found, the levels around it and around its children, and the place among what was found of the
/// one whose child it is, if it is a child of one.
#[derive(Clone, Copy)]
pub struct Kept<'a> {
    pub tree: &'a Tree,
    pub level: Option<usize>,
    pub inside: Option<usize>,
    pub parent: Option<usize>,
}

/// What a search found, in document order, with the levels of declarations on its way.
#[derive(Drop)]
pub struct Search<'a> {
    pub levels: Vec<Level<'a>>,
    pub found: Vec<Kept<'a>>,
}

/// Every element of one of the names in the element, where it and all elements around it are TEI's and none is a `constraintSpec`; or of
/// these the outermost alone. The only error is NoMemory, for want of memory.
pub fn find_elements<'a>(
    alloc: Global,
    tree: &'a Tree,
    names: &[&str],
    outermost: bool,
) -> Result<Search<'a>, NoMemory>
    ensures { IfOk result (λ made. (found : List AFound) × Finds (map (λ n. n.now) names.now) outermost [] tree.entry.now found × AreKept made.levels.items made.found.items found × AreParents (map (λ n. n.now) names.now) outermost made.found.items found) }
{
    let mut made = Search {
        levels: Vec::new(alloc),
        found: Vec::new(alloc),
    };
    made.add(tree, names, outermost, None, None)?;
    Ok(made)
}

impl<'a> Search<'a> {
    // Adds what is found in an element under this level, which is a child of what was found at a place, if any.
    fn add(
        &mut self,
        tree: &'a Tree,
        names: &[&str],
        outermost: bool,
        level: Option<usize>,
        parent: Option<usize>,
    ) -> Result<(), NoMemory>
        ensures { OnOk result (AddsKept (map (λ n. n.now) names.now) outermost tree.entry.now level parent self.old.levels.items self.new.levels.items self.old.found.items self.new.found.items) }
    {
        if !is_searched(tree) {
            return Ok(());
        }
        let inside = self.level_in(tree, level)?;
        let named = is_one_of(tree, names);
        let kept = Kept {
            tree,
            level,
            inside,
            parent,
        };
        let holder = self.keep(kept, named)?;
        if outermost && named {
            return Ok(());
        }
        for node in tree.children.as_slice() {
            let Node::Element(child) = node else {
                continue;
            };
            self.add(child, names, outermost, inside, holder)?;
        }
        Ok(())
    }

    // Adds an element where it has one of the names, and answers its place.
    fn keep(&mut self, kept: Kept<'a>, named: bool) -> Result<Option<usize>, NoMemory>
        ensures levels { self.new.levels.items ≡ self.old.levels.items }
        ensures kept { IfOk result (λ holder. KeepsIt kept.entry named self.old.found.items self.new.found.items holder) }
    {
        if !named {
            return Ok(None);
        }
        let place = self.found.len();
        self.found.push(kept)?;
        Ok(Some(place))
    }

    // The level of the declarations in an element under this one.
    fn level_in(&mut self, tree: &'a Tree, level: Option<usize>) -> Result<Option<usize>, NoMemory>
        ensures found { self.new.found.items ≡ self.old.found.items }
        ensures inside { IfOk result (λ inside. LeadsInside tree.entry.now level self.old.levels.items self.new.levels.items inside) }
    {
        if tree.binds.is_empty() {
            return Ok(level);
        }
        let at = self.levels.len();
        self.levels.push(Level {
            binds: &tree.binds,
            outer: level,
        })?;
        Ok(Some(at))
    }
}

// Whether the search goes into an element: it is TEI's and no constraint.
fn is_searched(tree: &Tree) -> bool
    ensures { result ≡ the_is_searched tree.now }
{
    is_tei(tree) && !is_one_of(tree, &["constraintSpec"])
}

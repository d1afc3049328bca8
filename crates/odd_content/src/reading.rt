ghost use Rattle.std.specs.Prelude.{◌≡◌, ℕ, map, Err, IfOk, IsOk, Some};
ghost use Rattle.odd_tree.specs.Elements.{all_binds, within};
ghost use Rattle.odd_text.specs.Least.{IsLeast};
ghost use Rattle.odd_content.specs.Breaking.{ContentFault};
ghost use Rattle.odd_content.specs.Formed.{AreBound, IsFormedContent};
ghost use Rattle.odd_forms.specs.Tags.{tags_in};
ghost use Rattle.odd_content.specs.Giving.{IsContentOf, joined_parts, key_in, part_content, part_named, parts_in, value_content};
ghost use Rattle.odd_content.specs.Items.{item_given};
ghost use Rattle.odd_tree.specs.Formed.{IsFormed};
ghost use Rattle.odd_tree.specs.declared.tree.Tree.{out-Tree};

use crate::condition::read_condition;
use crate::content::{Content, Contents};
use crate::picking::read_pick;
use crate::{read_bounds, read_item, read_list};
use odd_forms::{Element, LEVELS, child_of, deep_fault};
use odd_text::{NoMemory, Scope, Text, TryCopy};
use odd_tree::{Bindings, Node, Tree, attribute, entered};
use rng_types::Bounds;
use std::alloc::Global;

/// Why a `content` gives no content model.
#[derive(Clone, Copy, Debug, PartialEq, Eq)]
pub enum ContentRefusal {
    /// The least rule of form that it breaks.
    Rule(u8),
    NoMemory,
}

impl From<NoMemory> for ContentRefusal {
    ghost use Rattle.odd_content.specs.declared.reading.ContentRefusal.TheVariants as refusal;

    ghost from_gives = { λ _ error. error ≡ refusal.NoMemory };

    fn from(_error: NoMemory) -> ContentRefusal {
        ContentRefusal::NoMemory
    }
}

// Bounds that are not given.
const ONCE: Bounds = Bounds {
    min: 1,
    max: Some(1),
};

/// The content model that a `content` says, under the namespace declarations outside it (docs/content.md). Rule is
/// answered where it breaks a rule of form, with the least that it breaks: 1, a needed attribute is absent or one is
/// malformed, or a prefix is not bound; 2, a form that is left out, or a sixty-first level; 3, a child that may not stand
/// there, a maximum below the minimum, or words in both `include` and `except`. NoMemory is answered for want of memory.
/// Of a formed tree, as `read_tree` gives it, the content model is formed.
pub fn read_content(alloc: Global, tree: &Tree, scope: &Scope) -> Result<Content, ContentRefusal>
    ensures ok { IfOk result (IsContentOf scope.now tree.now) }
    ensures sound { IsOk result → (rule : ℕ) → ContentFault scope.now tree.now rule → ⊥ }
    ensures formed { (first end : ℕ) → IsFormed first end tree.now → AreBound scope.now → IfOk result IsFormedContent }
    ensures rule { (rule : ℕ) → result ≡ Err (ContentRefusal.Rule rule) → IsLeast (ContentFault scope.now tree.now) (Some rule) }
{
    let outside = Bindings::new(alloc, scope.copy(alloc)?)?;
    match deep_fault(alloc, Element::Content, tree, LEVELS, &[&outside])? {
        Some(rule) => Err(ContentRefusal::Rule(rule)),
        None => Ok(content_in(alloc, tree, &[&outside])?),
    }
}

/// The content model that a `content` says that breaks no rule. `around` are the declarations around it, level by level. The
/// only error is NoMemory, for want of memory.
pub fn content_in(alloc: Global, tree: &Tree, around: &[&Bindings]) -> Result<Content, NoMemory>
    ensures { IfOk result (IsContentOf (all_binds (map (λ b. b.now) around.now)) tree.now) }
{
    if tree.binds.is_empty() {
        return Ok(joined(parts_in_force(alloc, tree, around)?));
    }
    let own = Bindings::new(alloc, tree.binds.copy(alloc)?)?;
    let inside = entered(alloc, around, &own)?;
    Ok(joined(parts_in_force(alloc, tree, inside.as_slice())?))
}

// Whether a child is a part of a content, and which.
fn part_of(tree: &Tree) -> Option<Element>
    ensures { result ≡ part_named (out-Tree tree.now).name }
{
    child_of(Element::Content.form(), tree)
}

// The content of some parts: none is empty, and several are a sequence.
fn joined(parts: Contents) -> Content
    ensures { result ≡ joined_parts parts }
{
    if parts.len() >= 2 {
        return Content::Sequence {
            parts,
            bounds: ONCE,
        };
    }
    match parts.into_items().pop() {
        Some(part) => part,
        None => Content::Empty,
    }
}

// What the parts in an element give, where these are the declarations in force in it.
#[cycle(parts)]
fn parts_in_force(alloc: Global, tree: &Tree, inside: &[&Bindings]) -> Result<Contents, NoMemory>
    ensures { IfOk result (λ parts. parts ≡ parts_in (all_binds (map (λ b. b.now) inside.now)) (out-Tree tree.now).children) }
{
    let mut parts = Contents::new(alloc);
    for node in tree.children.as_slice() {
        let Node::Element(child) = node else {
            continue;
        };
        let Some(part) = part_of(child) else {
            continue;
        };
        parts.push(read_part(alloc, part, child, inside)?)?;
    }
    Ok(parts)
}

// What a part of this kind gives.
#[cycle(parts)]
fn read_part(
    alloc: Global,
    part: Element,
    tree: &Tree,
    around: &[&Bindings],
) -> Result<Content, NoMemory>
    ensures { IfOk result (λ made. made ≡ part_content part (within (all_binds (map (λ b. b.now) around.now)) tree.now) (out-Tree tree.now).attrs (tags_in tree.now) (parts_in (within (all_binds (map (λ b. b.now) around.now)) tree.now) (out-Tree tree.now).children)) }
{
    if tree.binds.is_empty() {
        return part_in_force(alloc, part, tree, around);
    }
    let own = Bindings::new(alloc, tree.binds.copy(alloc)?)?;
    let inside = entered(alloc, around, &own)?;
    part_in_force(alloc, part, tree, inside.as_slice())
}

// The same, where these are the declarations in force in it.
#[cycle(parts)]
fn part_in_force(
    alloc: Global,
    part: Element,
    tree: &Tree,
    inside: &[&Bindings],
) -> Result<Content, NoMemory>
    ensures { IfOk result (λ made. made ≡ part_content part (all_binds (map (λ b. b.now) inside.now)) (out-Tree tree.now).attrs (tags_in tree.now) (parts_in (all_binds (map (λ b. b.now) inside.now)) (out-Tree tree.now).children)) }
{
    let bounds = read_bounds(tree);
    match part {
        Element::TextNode => Ok(Content::Text),
        Element::DataRef => data_given(alloc, tree),
        Element::ValList => Ok(Content::Vals(read_list(alloc, tree)?)),
        Element::ElementRef => Ok(Content::Element {
            key: key_given(alloc, tree)?,
            bounds,
        }),
        Element::ClassRef => Ok(Content::Class {
            key: key_given(alloc, tree)?,
            pick: read_pick(alloc, tree)?,
            bounds,
        }),
        Element::MacroRef => Ok(Content::Macro {
            key: key_given(alloc, tree)?,
            bounds,
        }),
        Element::AnyElement => Ok(Content::Any {
            condition: read_condition(alloc, tree, inside)?,
            bounds,
        }),
        Element::Sequence => Ok(Content::Sequence {
            parts: parts_in_force(alloc, tree, inside)?,
            bounds,
        }),
        Element::Alternate => Ok(Content::Alternate {
            parts: parts_in_force(alloc, tree, inside)?,
            bounds,
        }),
        _ => Ok(Content::Empty),
    }
}

// The ident that a reference gives, and none where it is absent.
fn key_given(alloc: Global, tree: &Tree) -> Result<Text, NoMemory>
    ensures { IfOk result (λ key. key ≡ key_in (out-Tree tree.now).attrs) }
{
    match attribute(&tree.attrs, "key") {
        Some(key) => key.copy(alloc),
        None => Ok(Text::new(alloc)),
    }
}

// The data of a `dataRef`.
fn data_given(alloc: Global, tree: &Tree) -> Result<Content, NoMemory>
    ensures { IfOk result (λ made. made ≡ value_content (item_given tree.now)) }
{
    match read_item(alloc, tree)? {
        Some(item) => Ok(Content::Value(item)),
        None => Ok(Content::Empty),
    }
}

ghost use Rattle.std.specs.Prelude.{◌≡◌, ◌&&◌, IfOk, codes, false, not, true};
ghost use Rattle.odd_text.specs.Same.{is_same};
ghost use Rattle.odd_tree.specs.declared.tree.Tree.{out-Tree};
ghost use Rattle.odd_forms.specs.Tags.{tag_of, tags_in};
ghost use Rattle.odd_text.specs.Sorted.{IsSet};
ghost use Rattle.odd_text.specs.Text.{text_cmp};
ghost use Rattle.odd_content.specs.Said.{IsPutIn, SaysEach};
ghost use Rattle.odd_content.specs.Values.{has_mode as the_has_mode, kind_in, kind_named as the_kind_named, list_given, marks_in, puts as puts_in, value_marked, value_tagged};

use odd_forms::is_one_of;
use odd_overlay::{map_of, words_laid};
use odd_text::{Map, NoMemory, Text, Words};
use odd_tree::{Tree, attribute, elements};
use rng_types::{ListKind, ValList};
use rng_values::collapse;
use std::alloc::Global;
use std::collections::BTreeMap;

/// The list that a `valList` sets: each of its values, with white space collapsed, but those that are deleted: of
/// several of one value the last counts. Where it gives no type, it is open. The only error is NoMemory, for want of memory.
pub fn read_list(alloc: Global, tree: &Tree) -> Result<ValList, NoMemory>
    ensures value { IfOk result (λ list. list ≡ list_given tree.now) }
    ensures each { IfOk result (λ list. IsSet text_cmp (IsPutIn (value_marked true) puts_in (tags_in tree.now)) list.values) }
{
    let marks = marks_of(alloc, tree, true)?;
    Ok(ValList {
        kind: list_kind(tree).unwrap_or(ListKind::Open),
        values: words_laid(alloc, marks, Words::new(alloc))?,
    })
}

/// The values that a `valList` puts into a list that it changes (true), and those that it takes out (false). The only error is
/// NoMemory, for want of memory.
pub fn read_marks(alloc: Global, tree: &Tree) -> Result<Map<Text, bool>, NoMemory>
    ensures value { IfOk result (λ marks. marks ≡ marks_in false (tags_in tree.now)) }
    ensures each { IfOk result (SaysEach (value_marked false) puts_in (tags_in tree.now)) }
{
    marks_of(alloc, tree, false)
}

/// The type of a list, where a `valList` gives it.
pub fn list_kind(tree: &Tree) -> Option<ListKind>
    ensures { result ≡ kind_in (out-Tree tree.now).attrs }
{
    match attribute(&tree.attrs, "type") {
        Some(word) => Some(kind_named(word.as_str())),
        None => None,
    }
}

fn kind_named(word: &str) -> ListKind
    ensures { result ≡ the_kind_named word.now }
{
    match word {
        "closed" => ListKind::Closed,
        "semi" => ListKind::Semi,
        _ => ListKind::Open,
    }
}

// The values that a `valList` puts in and takes out, as one that is set or changed. A tree takes them in any order, and gives
// them in rising order.
fn marks_of(alloc: Global, tree: &Tree, is_set: bool) -> Result<Map<Text, bool>, NoMemory>
    ensures { IfOk result (λ marks. marks ≡ marks_in is_set (tags_in tree.now)) }
{
    let mut named = BTreeMap::new(alloc);
    for child in elements(tree) {
        if is_idle(child, is_set) {
            continue;
        }
        if let Some(value) = value_of(alloc, child)? {
            named.insert(value, puts(child))?;
        }
    }
    map_of(alloc, named)
}

// Whether a child does nothing: one that is changed, in a list that is.
fn is_idle(child: &Tree, is_set: bool) -> bool
    ensures { result ≡ (not is_set && the_has_mode (codes "change") (out-Tree child.now).attrs) }
{
    !is_set && has_mode(child, "change")
}

// Whether a child puts its value in, and does not take it out.
fn puts(child: &Tree) -> bool
    ensures { result ≡ not (the_has_mode (codes "delete") (out-Tree child.now).attrs) }
{
    !has_mode(child, "delete")
}

// The value that a child names, where it is a `valItem`.
fn value_of(alloc: Global, child: &Tree) -> Result<Option<Text>, NoMemory>
    ensures { IfOk result (λ value. value ≡ value_tagged (tag_of child.now)) }
{
    if !is_one_of(child, &["valItem"]) {
        return Ok(None);
    }
    match attribute(&child.attrs, "ident") {
        Some(ident) => Ok(Some(collapse(alloc, ident)?)),
        None => Ok(None),
    }
}

/// Whether the `mode` of an element is this word, which is another than `add`.
pub fn has_mode(tree: &Tree, word: &str) -> bool
    requires { is_same (codes "add") word.now ≡ false }
    ensures { result ≡ the_has_mode word.now (out-Tree tree.now).attrs }
{
    match attribute(&tree.attrs, "mode") {
        Some(mode) => mode.as_str() == word,
        None => false,
    }
}

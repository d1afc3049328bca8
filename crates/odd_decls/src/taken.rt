ghost use Rattle.std.specs.Prelude.{◌≡◌, codes, IfOk};
ghost use Rattle.std.specs.Option.{option_map};
ghost use Rattle.odd_tree.specs.Elements.{given};
ghost use Rattle.odd_tree.specs.declared.tree.Tree.{out-Tree};
ghost use Rattle.odd_content.specs.Giving.{pick_given};
ghost use Rattle.odd_decls.specs.Declares.{kind_taken as the_kind_taken};
ghost use Rattle.odd_decls.specs.ItemReading.{reference_of, taken_of};
ghost use Rattle.odd_library.specs.declared.odd.Entry.TheVariants as the_entry;

use odd_content::read_pick;
use odd_forms::Element;
use odd_library::Entry;
use odd_text::{Key, Kind, NoMemory, TryCopy};
use odd_tree::{Tree, attribute};
use std::alloc::Global;

/// What an item refers to, where it has a key.
pub fn reference_entry(
    alloc: Global,
    element: Element,
    item: &Tree,
) -> Result<Option<Entry>, NoMemory>
    ensures { IfOk result (λ made. made ≡ reference_of element item.now) }
{
    match element {
        Element::ModuleRef => module_entry(alloc, item),
        _ => taken_entry(alloc, kind_taken(element), item),
    }
}

// What a `moduleRef` refers to, where it has a key.
fn module_entry(alloc: Global, item: &Tree) -> Result<Option<Entry>, NoMemory>
    ensures { IfOk result (λ made. made ≡ option_map (λ key. the_entry.Module (out-Tree item.now).at key (pick_given item.now)) (given item.now (codes "key"))) }
{
    let Some(key) = attribute(&item.attrs, "key") else {
        return Ok(None);
    };
    Ok(Some(Entry::Module {
        at: item.at,
        key: key.copy(alloc)?,
        pick: read_pick(alloc, item)?,
    }))
}

// What an item refers to that takes a component of the kind, where it has a key.
fn taken_entry(alloc: Global, kind: Option<Kind>, item: &Tree) -> Result<Option<Entry>, NoMemory>
    ensures { IfOk result (λ made. made ≡ taken_of kind item.now) }
{
    let (Some(kind), Some(key)) = (kind, attribute(&item.attrs, "key")) else {
        return Ok(None);
    };
    let ident = key.copy(alloc)?;
    Ok(Some(Entry::Take {
        at: item.at,
        key: Key { kind, ident },
    }))
}

// The kind of the component that an item refers to.
fn kind_taken(element: Element) -> Option<Kind>
    ensures { result ≡ the_kind_taken element }
{
    match element {
        Element::ElementRefItem => Some(Kind::Element),
        Element::ClassRefItem => Some(Kind::Class),
        Element::MacroRefItem => Some(Kind::Macro),
        Element::DataRefItem => Some(Kind::Datatype),
        _ => None,
    }
}
